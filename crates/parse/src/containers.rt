// Opening a container, leaving one, and the text's end inside one.
ghost use Rattle.std.specs.Prelude.{◌≡◌, ◌<◌};
ghost use Rattle.tape.specs.Token.{opener_of, end_of};
ghost use Rattle.tape.specs.Tape.{view, replace, lay, after_push};
ghost use Rattle.parse.specs.After.{after};
ghost use Rattle.machine.specs.Parents.{resumed};
ghost use Rattle.parse.specs.Containers.{open_then};
ghost use Rattle.parse.specs.Containers.{close, key_end, text_end};
ghost use Rattle.parse.specs.Parse.{text_limit};

use crate::here::Here;
use crate::laying::lay;
use machine::parents::{container_at, parent_of, resumed};
use machine::{Machine, Refusal, State, Turn, is_key};
use tape::token::ContainerKind;
use tape::{token, words};

// `{` where a value is due: adds an Array, whose kind is settled in ParseOpen.
#[tactic(auto, unfolding(crate::specs::Containers::open_then))]
pub(crate) fn open_then(here: Here, tape: &mut [u32]) -> Result<Turn, Refusal>
    ensures { after result tape.new ≡ open_then (view tape.old here.entry.m.count) here.entry.m }
{
    lay(
        tape,
        here.m,
        token::opener(ContainerKind::Array, 0, false),
        here.m.at + 1,
        State::ParseOpen,
    )
}

// Closes opener i as a kind with a flag: it names its End, and its End names it.
pub(crate) fn close_at(
    tape: &mut [u32],
    count: u32,
    i: u32,
    kind: ContainerKind,
    mixed: bool,
) -> Option<u32>
    ensures { after_push result tape.new ≡ lay (replace (view tape.old count) i (opener_of kind count mixed)) count (end_of i) }
{
    words::put(tape, count, i, token::opener(kind, count, mixed));
    words::push(tape, count, token::end(i))
}

// Closes the container that the machine is in, as a kind with the flag in force, and takes up its parent.
#[tactic(auto, unfolding(crate::specs::Containers::close, crate::specs::Containers::close_at))]
pub(crate) fn close(
    here: Here,
    tape: &mut [u32],
    kind: ContainerKind,
    grand: u32,
) -> Result<Turn, Refusal>
    ensures { after result tape.new ≡ close kind grand (view tape.old here.entry.m.count) here.entry.m }
{
    let m = here.m;
    let up = container_at(tape, m.count, grand);
    let count = close_at(tape, m.count, m.parent, kind, m.mixed).ok_or(Refusal::Full)?;
    Ok(Turn::Next(resumed(up, grand, m.at + 1, count)))
}

// The text's end in Key: one container may still be open, at top level, and is closed as an unmixed Object.
#[tactic(auto, unfolding(crate::specs::Containers::key_end, crate::specs::Containers::close_at))]
fn key_end(tape: &mut [u32], m: Machine) -> Result<Turn, Refusal>
    ensures { after result tape.new ≡ key_end (view tape.old m.count) m }
{
    let parent = m.parent;
    let count = m.count;
    if parent == 0 {
        return Ok(Turn::Done(count));
    }
    if parent_of(container_at(tape, count, parent)) != 0 {
        return Err(Refusal::Eof);
    }
    let end = close_at(tape, count, parent, ContainerKind::Object, false).ok_or(Refusal::Full)?;
    Ok(Turn::Done(end))
}

// The text's end, which only Key may meet.
#[tactic(auto, unfolding(crate::specs::Containers::text_end))]
pub(crate) fn text_end(tape: &mut [u32], m: Machine) -> Result<Turn, Refusal>
    ensures { after result tape.new ≡ text_end (view tape.old m.count) m }
{
    if is_key(m.state) {
        return key_end(tape, m);
    }
    Err(Refusal::Eof)
}
