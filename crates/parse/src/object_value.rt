// A turn in ObjectValue.
ghost use Rattle.std.specs.Prelude.{◌≡◌, ◌<◌, length};
ghost use Rattle.tape.specs.Tape.{view};
ghost use Rattle.parse.specs.ObjectValue.{object_value_turn};
ghost use Rattle.parse.specs.Step.{stepped};
ghost use Rattle.parse.specs.Here.{from_here, stepped_here};

use crate::containers::open_then;
use crate::here::Here;
use crate::step::Step;
use crate::text::Text;
use machine::{Machine, Refusal, State, Turn};

// A turn in ObjectValue, at a byte that is no blank.
#[tactic(auto, unfolding(crate::specs::ObjectValue::object_value_turn, crate::specs::Step::entry))]
pub(crate) fn object_value_turn(here: Here, tape: &mut [u32]) -> Step
    ensures { stepped_here result here.entry tape.new
        ≡ from_here object_value_turn here.entry tape.old }
{
    let b = here.byte();
    if b == b'{' {
        return Step::Turned(open_then(here, tape));
    }
    if b == b'}' {
        return Step::Turned(Err(Refusal::NoValue(here.m.at)));
    }
    Step::Scalar(State::Key)
}
