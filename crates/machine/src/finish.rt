// What the end of a run makes of the tape and of the parse's answer.
ghost use Rattle.std.specs.Prelude.{◌≡◌, length};
ghost use Rattle.machine.specs.Finish.{outcome, refuse, finish};

use crate::{Parsed, Refusal};
use tape::words;

// Refuses a text: the whole tape is left zero.
pub fn refuse(tape: &mut [u32], refusal: Refusal) -> Result<Parsed, Refusal>
    ensures { outcome result tape.new ≡ refuse (length tape.old) refusal }
{
    words::clear_from(tape, 0);
    Err(refusal)
}

// Ends a parse: zeros behind the tokens that stand on the tape, or a refusal.
#[tactic(auto, unfolding(crate::specs::Finish::finish))]
pub fn finish(tape: &mut [u32], ending: Result<u32, Refusal>, bom: bool) -> Result<Parsed, Refusal>
    ensures { outcome result tape.new ≡ finish tape.old ending bom }
{
    match ending {
        Ok(count) => {
            words::clear_from(tape, count);
            Ok(Parsed { count, bom })
        }
        Err(refusal) => refuse(tape, refusal),
    }
}
