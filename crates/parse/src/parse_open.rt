// A turn in ParseOpen: what the first entry says that a container is.
ghost use Rattle.std.specs.Prelude.{◌≡◌, length, ℕ, ◌<◌, List};
ghost use Rattle.tape.specs.Tape.{view};
ghost use Rattle.parse.specs.After.{after};
ghost use Rattle.parse.specs.ParseOpen.{settle, open_empty, open_parameter, open_brace, flag_parent, open_as, parse_open_turn};
ghost use Rattle.parse.specs.Step.{stepped};
ghost use Rattle.parse.specs.Parse.{text_limit};
ghost use Rattle.parse.specs.Here.{from_here, stepped_here};

use crate::containers::close_at;
use crate::here::Here;
use crate::step::Step;
use crate::text::Text;
use machine::bytes::{OpenByte, follows_key, open_byte};
use machine::parents::{container_at, resumed};
use machine::{Machine, Refusal, State, Turn, byte_at, less};
use tape::token::ContainerKind;
use tape::{token, words};

// Gives the opener that stands `back` tokens before the count its kind, and goes on inside it with mixed off.
#[tactic(auto, unfolding(crate::specs::ParseOpen::settle))]
fn settle(
    tape: &mut [u32],
    m: Machine,
    kind: ContainerKind,
    back: u32,
    at: usize,
    state: State,
) -> Result<Turn, Refusal>
    ensures { after result tape.new ≡ settle kind back at state (view tape.old m.count) m }
{
    let opener = less(m.count, back);
    words::put(tape, m.count, opener, token::opener(kind, m.parent, false));
    Ok(Turn::Next(Machine {
        at,
        state,
        parent: opener,
        mixed: false,
        count: m.count,
    }))
}

// `}`: an empty Array, and its parent is taken up.
#[tactic(auto, unfolding(crate::specs::ParseOpen::open_empty, crate::specs::Containers::close_at))]
fn open_empty(here: Here, tape: &mut [u32]) -> Result<Turn, Refusal>
    ensures { after result tape.new ≡ open_empty (view tape.old here.entry.m.count) here.entry.m }
{
    let m = here.m;
    let up = container_at(tape, m.count, m.parent);
    let count = close_at(tape, m.count, less(m.count, 1), ContainerKind::Array, false).ok_or(
        Refusal::Full,
    )?;
    Ok(Turn::Next(resumed(up, m.parent, m.at + 1, count)))
}

// `[`: the container is an Object that begins with a parameter, which is due.
#[tactic(auto, unfolding(crate::specs::ParseOpen::open_parameter))]
fn open_parameter(tape: &mut [u32], m: Machine) -> Step
    ensures { (text : List ℕ) → stepped text result tape.new m ≡ open_parameter text (view tape.old m.count) m }
{
    if m.mixed {
        return Step::Turned(Err(Refusal::MixedParameter(m.at)));
    }
    let opener = less(m.count, 1);
    words::put(
        tape,
        m.count,
        opener,
        token::opener(ContainerKind::Object, m.parent, false),
    );
    Step::Parameter(opener)
}

// `{`: an empty pair of braces is dropped, else the container is an Array whose first entry is a container.
#[tactic(auto, unfolding(crate::specs::ParseOpen::open_brace))]
fn open_brace(here: Here, tape: &mut [u32]) -> Result<Turn, Refusal>
    ensures { after result tape.new ≡ from_here open_brace here.entry tape.old }
{
    let m = here.m;
    let p = cut::skip_ws_t(here.text.bytes, m.at + 1).ok_or(Refusal::Eof)?;
    if byte_at(here.text.bytes, p) == b'}' {
        return Ok(Turn::Next(m.to(p + 1, State::ParseOpen, m.count)));
    }
    settle(tape, m, ContainerKind::Array, 1, m.at, State::ArrayValue)
}

// Sets the parent's stored flag where mixed is in force.
#[tactic(auto, unfolding(crate::specs::ParseOpen::flag_parent))]
pub(crate) fn flag_parent(tape: &mut [u32], m: Machine)
    ensures { view tape.new m.count ≡ flag_parent (view tape.old m.count) m }
{
    if !m.mixed {
        return;
    }
    if let Some(container) = container_at(tape, m.count, m.parent) {
        words::put(
            tape,
            m.count,
            m.parent,
            token::opener(container.kind, container.link, true),
        );
    }
}

// The byte after the first scalar says whether the container is an Object or an Array.
#[tactic(auto, unfolding(crate::specs::ParseOpen::open_as))]
pub(crate) fn open_as(text: Text, tape: &mut [u32], m: Machine) -> Result<Turn, Refusal>
    ensures { after result tape.new ≡ open_as text.entry.bytes.now (view tape.old m.count) m }
{
    let p = cut::skip_ws_t(text.bytes, m.at).ok_or(Refusal::Eof)?;
    if follows_key(byte_at(text.bytes, p)) {
        return settle(
            tape,
            m,
            ContainerKind::Object,
            2,
            p,
            State::KeyValueSeparator,
        );
    }
    settle(tape, m, ContainerKind::Array, 2, p, State::ArrayValue)
}

// A turn in ParseOpen, at a byte that is no blank.
#[tactic(auto, unfolding(crate::specs::ParseOpen::parse_open_turn, crate::specs::Step::entry))]
pub(crate) fn parse_open_turn(here: Here, tape: &mut [u32]) -> Step
    ensures { stepped_here result here.entry tape.new ≡ from_here parse_open_turn here.entry tape.old }
{
    match open_byte(here.byte()) {
        OpenByte::Closer => Step::Turned(open_empty(here, tape)),
        OpenByte::Bracket => open_parameter(tape, here.m),
        OpenByte::Brace => Step::Turned(open_brace(here, tape)),
        OpenByte::Other => Step::Scalar(State::ParseOpen),
    }
}
