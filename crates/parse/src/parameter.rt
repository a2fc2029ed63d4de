// A parameter: `[[name] value ]`, or `[[name] key ..`, which opens an Object.
ghost use Rattle.std.specs.Prelude.{◌≡◌, ◌≤◌, ◌<◌, length};
ghost use Rattle.cut.specs.Runs.{run_end};
ghost use Rattle.tape.specs.Tape.{view};
ghost use Rattle.parse.specs.After.{after};
ghost use Rattle.parse.specs.Parameter.{parameter_object, value_or_object, parameter_value, parameter_named, parameter_name};
ghost use Rattle.parse.specs.Parameter.{name_kind, name_start, parameter};
ghost use Rattle.parse.specs.Parse.{text_limit};
ghost use Rattle.parse.specs.Here.{from_here};

use crate::here::Here;
use crate::laying::lay;
use crate::scalars::viewed;
use crate::span::Span;
use crate::text::Text;
use machine::{Machine, Refusal, State, Turn, byte_at};
use tape::token::{ContainerKind, ScalarKind};
use tape::{token, words};

// Opens an Object whose first key is a run.
#[tactic(auto, unfolding(crate::specs::Parameter::parameter_object, crate::specs::After::lay_then))]
fn parameter_object(tape: &mut [u32], m: Machine, run: Span, rest: usize) -> Result<Turn, Refusal>
    ensures { after result tape.new ≡ parameter_object run.start run.end rest (view tape.old m.count) m }
{
    let opener = token::opener(ContainerKind::Object, m.parent, false);
    let count = words::push(tape, m.count, opener).ok_or(Refusal::Full)?;
    lay(
        tape,
        m.to(rest, State::KeyValueSeparator, count).within(m.count),
        viewed(ScalarKind::Unquoted, run),
        rest,
        State::KeyValueSeparator,
    )
}

// What the byte after a run says that the run is.
#[tactic(auto, unfolding(crate::specs::Parameter::value_or_object))]
fn value_or_object(
    text: Text,
    tape: &mut [u32],
    m: Machine,
    run: Span,
    rest: usize,
) -> Result<Turn, Refusal>
    requires { rest ≤ text_limit }
    ensures { after result tape.new ≡ value_or_object text.entry.bytes.now run.start run.end rest (view tape.old m.count) m }
{
    if byte_at(text.bytes, rest) == b']' {
        return lay(
            tape,
            m,
            viewed(ScalarKind::Unquoted, run),
            rest + 1,
            State::Key,
        );
    }
    parameter_object(tape, m, run, rest)
}

// The run that starts at a place: the cut is handed the text's later part, and the place is added back.
#[tactic(auto, using(crate::proofs::Tables::run_end_lent, crate::proofs::Tables::run_end_fits))]
fn run_from(text: Text, start: usize) -> Span
    requires { start < length text.bytes.now }
    ensures { (result.start ≡ start) × (result.end ≡ run_end text.entry.bytes.now start) }
{
    let end = start + cut::split_at_scalar(&text.bytes[start..], text.table);
    Span { start, end }
}

// The run after a parameter's name: its value, or the first key of its Object.
#[tactic(auto, using(crate::proofs::Bounds::skip_within), unfolding(crate::specs::Parameter::parameter_value))]
fn parameter_value(text: Text, tape: &mut [u32], m: Machine) -> Result<Turn, Refusal>
    ensures { after result tape.new ≡ parameter_value text.entry.bytes.now (view tape.old m.count) m }
{
    let start = cut::skip_ws_t(text.bytes, m.at).ok_or(Refusal::Eof)?;
    let run = run_from(text, start);
    let rest = cut::skip_ws_t(text.bytes, run.end).ok_or(Refusal::Eof)?;
    value_or_object(text, tape, m, run, rest)
}

// Adds a name, which `]` must end.
#[tactic(auto, unfolding(crate::specs::Parameter::parameter_named, crate::specs::After::lay_then))]
fn parameter_named(
    text: Text,
    tape: &mut [u32],
    m: Machine,
    kind: ScalarKind,
    name: Span,
) -> Result<Turn, Refusal>
    ensures { after result tape.new ≡ parameter_named text.entry.bytes.now kind name.start name.end (view tape.old m.count) m }
{
    if byte_at(text.bytes, name.end) != b']' {
        return Err(Refusal::OpenName(name.end));
    }
    let count = words::push(tape, m.count, viewed(kind, name)).ok_or(Refusal::Full)?;
    parameter_value(text, tape, m.to(name.end + 1, State::Key, count))
}

// Reads a name that starts at a place.
#[tactic(auto, unfolding(crate::specs::Parameter::parameter_name))]
fn parameter_name(
    text: Text,
    tape: &mut [u32],
    m: Machine,
    kind: ScalarKind,
    start: usize,
) -> Result<Turn, Refusal>
    ensures { after result tape.new ≡ parameter_name text.entry.bytes.now kind start (view tape.old m.count) m }
{
    if text.bytes.len() <= start {
        return Err(Refusal::Eof);
    }
    let name = run_from(text, start);
    parameter_named(text, tape, m, kind, name)
}

// The kind of a name, by whether `!` stands before it. It and the place are told first, so that one call reads the name.
#[tactic(auto, unfolding(crate::specs::Parameter::name_kind))]
fn name_kind(undefined: bool) -> ScalarKind
    ensures { result ≡ name_kind undefined }
{
    if undefined {
        ScalarKind::UndefinedParameter
    } else {
        ScalarKind::Parameter
    }
}

// The place of a name behind `[[` or `[[!`.
#[tactic(auto, unfolding(crate::specs::Parameter::name_start))]
fn name_start(at: usize, undefined: bool) -> usize
    requires { at < text_limit }
    ensures { result ≡ name_start at undefined }
{
    if undefined { at + 3 } else { at + 2 }
}

// `[[` or `[[!` at the machine's place, with what follows it.
#[tactic(auto, using(crate::proofs::Steps::parameter_read), unfolding(crate::specs::Parameter::parameter))]
pub(crate) fn parameter(here: Here, tape: &mut [u32]) -> Result<Turn, Refusal>
    ensures { after result tape.new ≡ from_here parameter here.entry tape.old }
{
    let at = here.m.at;
    if byte_at(here.text.bytes, at + 1) != b'[' {
        return Err(Refusal::NoParameter(at));
    }
    let undefined = byte_at(here.text.bytes, at + 2) == b'!';
    parameter_name(
        here.text,
        tape,
        here.m,
        name_kind(undefined),
        name_start(at, undefined),
    )
}
