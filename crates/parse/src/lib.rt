// The text tape parser: from save text to tokens on a lent tape.
#![tactic(auto)]

ghost use Rattle.std.specs.Prelude.{◌≡◌, ◌<◌, length};
ghost use Rattle.tape.specs.Tape.{view};
ghost use Rattle.parse.specs.After.{after, next};
ghost use Rattle.parse.specs.Step.{stepped};
ghost use Rattle.machine.specs.Finish.{outcome};
ghost use Rattle.parse.specs.Parse.{text_limit, state_turn, turn, run, ending, enough, parse_of};
ghost use Rattle.parse.specs.Here.{from_here, stepped_here};

use crate::here::Here;
use crate::step::Step;
use crate::text::Text;
use machine::finish::{finish, refuse};
use machine::start::{has_bom, start};
use machine::{Machine, Parsed, Refusal, State, Turn, mixed_on};

mod array_value;
mod containers;
mod here;
mod key;
mod laying;
mod object_value;
mod parameter;
mod parse_open;
mod scalars;
mod separator;
mod span;
mod step;
mod text;

// A text of more bytes than this is too long.
pub const TEXT_LIMIT: usize = 16777215;

// What the machine's state makes of a byte that is no blank.
#[tactic(auto, unfolding(crate::specs::Parse::state_turn))]
fn state_step(here: Here, tape: &mut [u32]) -> Step
    ensures { stepped_here result here.entry tape.new ≡ from_here state_turn here.entry tape.old }
{
    match here.m.state {
        State::Key => key::key_turn(here, tape),
        State::KeyValueSeparator => Step::Turned(separator::separator_turn(here, tape)),
        State::ObjectValue => object_value::object_value_turn(here, tape),
        State::ParseOpen => parse_open::parse_open_turn(here, tape),
        State::ArrayValue => array_value::array_value_turn(here, tape),
    }
}

// A turn of the machine's state, at a byte that is no blank.
fn state_turn(here: Here, tape: &mut [u32]) -> Result<Turn, Refusal>
    ensures { after result tape.new ≡ from_here state_turn here.entry tape.old }
{
    match state_step(here, tape) {
        Step::Turned(turned) => turned,
        Step::Scalar(state) => step::entry(here, tape, state),
        Step::Operator(count) => array_value::operator_then(
            Here {
                text: here.text,
                m: mixed_on(here.m, count),
            },
            tape,
        ),
        Step::Parameter(parent) => parameter::parameter(
            Here {
                text: here.text,
                m: here.m.within(parent),
            },
            tape,
        ),
    }
}

// A turn: skips blanks, and then the state decides.
#[tactic(auto, using(crate::proofs::Bounds::skip_within), unfolding(crate::specs::Parse::turn))]
fn turn(text: Text, tape: &mut [u32], m: Machine) -> Result<Turn, Refusal>
    ensures { after result tape.new ≡ turn text.entry.bytes.now (view tape.old m.count) m }
{
    match cut::skip_ws_t(text.bytes, m.at) {
        Some(p) => state_turn(
            Here {
                text,
                m: m.to(p, m.state, m.count),
            },
            tape,
        ),
        None => containers::text_end(tape, m),
    }
}

// Turns until the text is done or refused.
fn run(text: Text, tape: &mut [u32], from: Machine) -> Result<u32, Refusal>
    ensures { ending result tape.new
        ≡ run text.entry.bytes.now (enough text.entry.bytes.now) (next from (view tape.old from.count)) }
{
    let mut m = from;
    loop {
        match turn(text, tape, m)? {
            Turn::Next(after) => m = separator::past_equals(text, after),
            Turn::Done(count) => return Ok(count),
        }
    }
}

// Parses a text onto a lent tape, whose old contents never matter: on success the tokens stand at its front with zeros
// behind them, and a refusal leaves it zero.
#[tactic(auto, using(crate::proofs::Outcomes::parse_too_long, crate::proofs::Outcomes::parse_runs, crate::proofs::Outcomes::finish_answers))]
pub fn parse(text: &[u8], tape: &mut [u32]) -> Result<Parsed, Refusal>
    ensures { outcome result tape.new ≡ parse_of text.now (length tape.old) }
{
    if TEXT_LIMIT < text.len() {
        return refuse(tape, Refusal::TooLong);
    }
    let bom = has_bom(text);
    let table = data::character_class();
    let text = Text {
        bytes: text,
        table: &table,
    };
    let ending = run(text, tape, start(bom));
    finish(tape, ending, bom)
}
