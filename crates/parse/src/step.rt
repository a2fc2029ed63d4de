// A step of any state, and the scalar that it leaves due. What is come to in more than one place, a scalar, an operator among values, a
// parameter, is left due by the state and taken at one, so that it is compiled into the loop, and the machine passes from turn to turn in
// registers.
ghost use Rattle.std.specs.Prelude.{◌≡◌, ◌≤◌, length};
ghost use Rattle.tape.specs.Tape.{view};
ghost use Rattle.parse.specs.After.{after};
ghost use Rattle.parse.specs.Step.{entered, entry};
ghost use Rattle.parse.specs.Parse.{text_limit};

use crate::here::Here;
use crate::parse_open::{flag_parent, open_as};
use crate::scalars::{Scalar, scalar_at};
use crate::text::Text;
use machine::{Machine, Refusal, State, Turn, is_parse_open};
use tape::words;

// What a state makes of a byte: a whole turn; or that a scalar is due, and the state after it; that an operator of a mixed container is due,
// and how many tokens stand on the tape; or that a parameter is due, and inside which parent.
#[derive(Clone, Copy)]
pub enum Step {
    Turned(Result<Turn, Refusal>),
    Scalar(State),
    Operator(u32),
    Parameter(u32),
}

// After a scalar: in ParseOpen it is the container's first entry, and the byte behind it decides. Else the machine goes on as it is, made
// anew field by field, since a copy of the whole would go through memory.
#[tactic(auto, unfolding(crate::specs::Step::entered))]
fn entered(text: Text, tape: &mut [u32], m: Machine) -> Result<Turn, Refusal>
    ensures { after result tape.new ≡ entered text.entry.bytes.now (view tape.old m.count) m }
{
    if !is_parse_open(m.state) {
        return Ok(Turn::Next(m.to(m.at, m.state, m.count)));
    }
    flag_parent(tape, m);
    open_as(text, tape, m)
}

// Takes the scalar that is due, and goes on past it in a state.
#[tactic(auto, using(crate::proofs::Steps::entry_taken))]
pub(crate) fn entry(here: Here, tape: &mut [u32], state: State) -> Result<Turn, Refusal>
    ensures { after result tape.new ≡ entry here.entry.text.bytes.now state (view tape.old here.entry.m.count) here.entry.m }
{
    let m = here.m;
    let Scalar { token, rest } = scalar_at(here.text, m.at).ok_or(Refusal::Eof)?;
    let count = words::push(tape, m.count, token).ok_or(Refusal::Full)?;
    entered(here.text, tape, m.to(rest, state, count))
}
