// A turn in ArrayValue.
ghost use Rattle.std.specs.Prelude.{◌≡◌, length, ℕ, ◌<◌, List};
ghost use Rattle.tape.specs.Tape.{view};
ghost use Rattle.parse.specs.After.{after};
ghost use Rattle.parse.specs.KeyValueSeparator.{mix_then};
ghost use Rattle.parse.specs.ArrayValue.{array_close, operator_then, after_end, unmixed_operator};
ghost use Rattle.parse.specs.ArrayValue.{array_operator, array_value_turn};
ghost use Rattle.parse.specs.Step.{stepped};
ghost use Rattle.parse.specs.Parse.{text_limit};
ghost use Rattle.parse.specs.Here.{from_here, stepped_here};

use crate::containers::{close, open_then};
use crate::here::Here;
use crate::laying::lay;
use crate::step::Step;
use crate::text::Text;
use machine::bytes::{ValueByte, value_byte};
use machine::parents::{container_at, nothing_open, own_kind, parent_of};
use machine::{Machine, Refusal, State, Turn, before, byte_at, less};
use operator::Sighted;
use tape::token::Standing;
use tape::{token, words};

// `}`: closes the container that is open, in its own kind.
#[tactic(auto, unfolding(crate::specs::ArrayValue::array_close))]
fn array_close(here: Here, tape: &mut [u32]) -> Result<Turn, Refusal>
    ensures { after result tape.new ≡ array_close (view tape.old here.entry.m.count) here.entry.m }
{
    let m = here.m;
    let container = container_at(tape, m.count, m.parent);
    let grand = parent_of(container);
    if nothing_open(m.parent, grand) {
        return Err(Refusal::StackEmpty(m.at));
    }
    close(here, tape, own_kind(container), grand)
}

// An operator among the values of a mixed container.
#[tactic(auto, using(crate::proofs::Bounds::sighted_short), unfolding(crate::specs::ArrayValue::operator_then))]
pub(crate) fn operator_then(here: Here, tape: &mut [u32]) -> Result<Turn, Refusal>
    ensures { after result tape.new ≡ from_here operator_then here.entry tape.old }
{
    let at = here.m.at;
    match operator::operator_at(here.byte(), byte_at(here.text.bytes, at + 1)) {
        Some(Sighted { operator, width }) => {
            lay(
                tape,
                here.m,
                token::operator(operator.number()),
                at + width,
                State::ArrayValue,
            )
        }
        None => Err(Refusal::UnknownOperator(before(at))),
    }
}

// An operator byte after a container: `=` belongs to an object template and is skipped.
#[tactic(auto, unfolding(crate::specs::ArrayValue::after_end))]
fn after_end(here: Here) -> Result<Turn, Refusal>
    ensures { (ws : List ℕ) → after result ws ≡ after_end here.entry.text.bytes.now (view ws here.entry.m.count) here.entry.m }
{
    let m = here.m;
    if here.byte() == b'=' {
        return Ok(Turn::Next(m.to(m.at + 1, State::ArrayValue, m.count)));
    }
    Err(Refusal::NothingPrecedes(before(m.at)))
}

// An operator byte that makes the container mixed: the operator itself is due.
#[tactic(auto, unfolding(crate::specs::KeyValueSeparator::mix_then))]
fn mixed_operator(tape: &mut [u32], m: Machine) -> Step
    ensures { (text : List ℕ) → stepped text result tape.new m ≡ mix_then (view tape.old m.count) m (operator_then text) }
{
    match words::insert_mixed(tape, m.count) {
        Some(count) => Step::Operator(count),
        None => Step::Turned(Err(Refusal::Full)),
    }
}

// An operator byte in a container that is not mixed: the last token decides.
#[tactic(auto, unfolding(crate::specs::ArrayValue::unmixed_operator, tape::specs::Words::token_in, tape::specs::Tape::token_at))]
fn unmixed_operator(here: Here, tape: &mut [u32]) -> Step
    ensures { stepped_here result here.entry tape.new
        ≡ from_here unmixed_operator here.entry tape.old }
{
    let m = here.m;
    let last = words::token(tape, m.count, less(m.count, 1));
    match last.standing() {
        Standing::Unquoted | Standing::OtherScalar => mixed_operator(tape, m),
        Standing::End => Step::Turned(after_end(here)),
        Standing::Nothing => Step::Turned(Err(Refusal::NothingPrecedes(before(m.at)))),
    }
}

// `<` `>` `!` `=` in ArrayValue.
#[tactic(auto, using(crate::proofs::Steps::operator_mixed), unfolding(crate::specs::ArrayValue::array_operator))]
fn array_operator(here: Here, tape: &mut [u32]) -> Step
    ensures { stepped_here result here.entry tape.new
        ≡ from_here array_operator here.entry tape.old }
{
    if here.m.mixed {
        return Step::Operator(here.m.count);
    }
    unmixed_operator(here, tape)
}

// A turn in ArrayValue, at a byte that is no blank.
#[tactic(auto, unfolding(crate::specs::ArrayValue::array_value_turn, crate::specs::Step::entry))]
pub(crate) fn array_value_turn(here: Here, tape: &mut [u32]) -> Step
    ensures { stepped_here result here.entry tape.new
        ≡ from_here array_value_turn here.entry tape.old }
{
    match value_byte(here.byte()) {
        ValueByte::Brace => Step::Turned(open_then(here, tape)),
        ValueByte::Closer => Step::Turned(array_close(here, tape)),
        ValueByte::Sign => array_operator(here, tape),
        ValueByte::Other => Step::Scalar(State::ArrayValue),
    }
}
