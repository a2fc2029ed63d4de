// A turn in KeyValueSeparator.
ghost use Rattle.std.specs.Prelude.{◌≡◌, ◌≤◌, ◌<◌, length};
ghost use Rattle.tape.specs.Tape.{view};
ghost use Rattle.parse.specs.After.{after, next};
ghost use Rattle.parse.specs.KeyValueSeparator.{mix_then, separator_then, separator_turn};
ghost use Rattle.parse.specs.Equals.{is_separator, at_equals, past_equals};
ghost use Rattle.parse.specs.Parse.{text_limit};
ghost use Rattle.parse.specs.Here.{from_here};

use crate::here::Here;
use crate::laying::lay;
use crate::text::Text;
use machine::{Machine, Refusal, State, Turn, byte_at, mixed_on};
use operator::Sighted;
use tape::{token, words};

// Puts a MixedContainer in before the last token, and goes on in ArrayValue with mixed on.
#[tactic(auto, unfolding(crate::specs::KeyValueSeparator::mix_then))]
fn mix(tape: &mut [u32], m: Machine) -> Result<Turn, Refusal>
    ensures { after result tape.new ≡ mix_then (view tape.old m.count) m (λ t m'. next m' t) }
{
    let count = words::insert_mixed(tape, m.count).ok_or(Refusal::Full)?;
    Ok(Turn::Next(mixed_on(m, count)))
}

// An operator between a key and its value; `=` is the usual one and adds no token.
#[tactic(auto, unfolding(crate::specs::KeyValueSeparator::separator_then))]
fn separator_then(here: Here, tape: &mut [u32], sign: Sighted) -> Result<Turn, Refusal>
    requires { sign.width ≤ 2 }
    ensures { after result tape.new ≡ separator_then sign.operator sign.width (view tape.old here.entry.m.count) here.entry.m }
{
    let m = here.m;
    let at = m.at + sign.width;
    if sign.operator.is_equal() {
        return Ok(Turn::Next(m.to(at, State::ObjectValue, m.count)));
    }
    lay(
        tape,
        m,
        token::operator(sign.operator.number()),
        at,
        State::ObjectValue,
    )
}

// A turn in KeyValueSeparator, at a byte that is no blank.
#[tactic(auto, using(crate::proofs::Bounds::sighted_short), unfolding(crate::specs::KeyValueSeparator::separator_turn))]
pub(crate) fn separator_turn(here: Here, tape: &mut [u32]) -> Result<Turn, Refusal>
    ensures { after result tape.new ≡ from_here separator_turn here.entry tape.old }
{
    let m = here.m;
    let at = m.at;
    let b = here.byte();
    match operator::operator_at(b, byte_at(here.text.bytes, at + 1)) {
        Some(sign) => separator_then(here, tape, sign),
        None => {
            if b == b'{' {
                return Ok(Turn::Next(m.to(at, State::ObjectValue, m.count)));
            }
            mix(tape, m)
        }
    }
}

// Whether a state is KeyValueSeparator.
fn is_separator(state: State) -> bool
    ensures { result ≡ is_separator state }
{
    state == State::KeyValueSeparator
}

// Whether a machine in KeyValueSeparator has next the `=` that most keys have right behind them, and no second one.
#[tactic(auto, unfolding(crate::specs::Equals::at_equals))]
fn at_equals(text: Text, m: Machine) -> bool
    ensures { result ≡ at_equals text.entry.bytes.now m }
{
    is_separator(m.state)
        && byte_at(text.bytes, m.at) == b'='
        && byte_at(text.bytes, m.at + 1) != b'='
}

// The machine past that `=`, which adds no token: a turn of its own would find the same. Else the machine as it is, made anew field by field.
#[tactic(auto, using(crate::proofs::Equals::equals_next), unfolding(crate::specs::Equals::past_equals))]
pub(crate) fn past_equals(text: Text, m: Machine) -> Machine
    ensures { result ≡ past_equals text.entry.bytes.now m }
{
    let mut at = m.at;
    let mut state = m.state;
    if at_equals(text, m) {
        at += 1;
        state = State::ObjectValue;
    }
    m.to(at, state, m.count)
}
