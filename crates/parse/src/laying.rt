// Adding a token.
ghost use Rattle.std.specs.Prelude.{◌≡◌};
ghost use Rattle.tape.specs.Tape.{view};
ghost use Rattle.parse.specs.After.{after, lay_then};

use machine::{Machine, Refusal, State, Turn};
use tape::token::Token;
use tape::words;

// Adds a token, and goes on at a place in a state.
#[tactic(auto, unfolding(crate::specs::After::lay_then))]
pub(crate) fn lay(
    tape: &mut [u32],
    m: Machine,
    t: Token,
    at: usize,
    state: State,
) -> Result<Turn, Refusal>
    ensures { after result tape.new ≡ lay_then t at state (view tape.old m.count) m }
{
    let count = words::push(tape, m.count, t).ok_or(Refusal::Full)?;
    Ok(Turn::Next(m.to(at, state, count)))
}
