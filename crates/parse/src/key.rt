// A turn in Key.
ghost use Rattle.std.specs.Prelude.{◌≡◌, ◌<◌, length};
ghost use Rattle.tape.specs.Tape.{view};
ghost use Rattle.parse.specs.After.{after};
ghost use Rattle.parse.specs.Key.{key_close, open_header, key_header, key_brace, key_turn};
ghost use Rattle.parse.specs.Step.{stepped};
ghost use Rattle.parse.specs.Parse.{text_limit};
ghost use Rattle.parse.specs.Here.{from_here, stepped_here};

use crate::containers::close;
use crate::here::Here;
use crate::laying::lay;
use crate::step::Step;
use crate::text::Text;
use machine::bytes::{KeyByte, key_byte};
use machine::parents::{container_at, nothing_open, parent_of};
use machine::{Machine, Refusal, State, Turn, byte_at, less};
use tape::token::{ContainerKind, Standing};
use tape::{token, words};

// `}` or `]`: closes the container that is open, or is skipped, since some game files have one too many.
#[tactic(auto, unfolding(crate::specs::Key::key_close))]
fn key_close(here: Here, tape: &mut [u32]) -> Result<Turn, Refusal>
    ensures { after result tape.new ≡ key_close (view tape.old here.entry.m.count) here.entry.m }
{
    let m = here.m;
    let grand = parent_of(container_at(tape, m.count, m.parent));
    if nothing_open(m.parent, grand) {
        return Ok(Turn::Next(m.to(m.at + 1, State::Key, m.count)));
    }
    close(here, tape, ContainerKind::Object, grand)
}

// Makes the last token a Header and opens its container.
#[tactic(auto, unfolding(crate::specs::Key::open_header, tape::specs::Words::token_in, tape::specs::Tape::token_at))]
fn open_header(tape: &mut [u32], m: Machine, at: usize) -> Result<Turn, Refusal>
    ensures { after result tape.new ≡ open_header at (view tape.old m.count) m }
{
    let last = less(m.count, 1);
    let header = words::token(tape, m.count, last).as_header();
    words::put(tape, m.count, last, header);
    lay(
        tape,
        m,
        token::opener(ContainerKind::Array, 0, false),
        at,
        State::ParseOpen,
    )
}

// A container without a key: the last token, if Unquoted, is its Header.
#[tactic(auto, unfolding(crate::specs::Key::key_header, tape::specs::Words::token_in, tape::specs::Tape::token_at))]
fn key_header(tape: &mut [u32], m: Machine, at: usize) -> Result<Turn, Refusal>
    ensures { after result tape.new ≡ key_header at (view tape.old m.count) m }
{
    let last = words::token(tape, m.count, less(m.count, 1));
    match last.standing() {
        Standing::Unquoted => open_header(tape, m, at),
        Standing::OtherScalar | Standing::End | Standing::Nothing => Err(Refusal::NoHeader(at)),
    }
}

// `{`: an empty pair of braces is dropped, else it is a Header's container.
#[tactic(auto, unfolding(crate::specs::Key::key_brace))]
fn key_brace(here: Here, tape: &mut [u32]) -> Result<Turn, Refusal>
    ensures { after result tape.new ≡ from_here key_brace here.entry tape.old }
{
    let m = here.m;
    let p = cut::skip_ws_t(here.text.bytes, m.at + 1).ok_or(Refusal::Eof)?;
    if byte_at(here.text.bytes, p) == b'}' {
        return Ok(Turn::Next(m.to(p + 1, State::Key, m.count)));
    }
    key_header(tape, m, p)
}

// A turn in Key, at a byte that is no blank.
#[tactic(auto, unfolding(crate::specs::Key::key_turn, crate::specs::Step::entry))]
pub(crate) fn key_turn(here: Here, tape: &mut [u32]) -> Step
    ensures { stepped_here result here.entry tape.new ≡ from_here key_turn here.entry tape.old }
{
    match key_byte(here.byte()) {
        KeyByte::Closer => Step::Turned(key_close(here, tape)),
        KeyByte::Brace => Step::Turned(key_brace(here, tape)),
        KeyByte::Bracket => Step::Parameter(here.m.parent),
        KeyByte::Other => Step::Scalar(State::KeyValueSeparator),
    }
}
