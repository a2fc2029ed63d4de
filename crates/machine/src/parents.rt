// What a container on the tape says, and the machine inside a parent that is taken up.
ghost use Rattle.std.specs.Prelude.{◌≡◌};
ghost use Rattle.tape.specs.Tape.{view};
ghost use Rattle.machine.specs.Parents.{container_at, parent_of, own_kind, state_in_object, state_in, mixed_in, resumed, nothing_open};

use crate::{Machine, State};
use tape::token::{Container, ContainerKind};
use tape::words;

// Token i of count as a container.
#[tactic(auto, unfolding(tape::specs::Words::token_in, tape::specs::Tape::token_at))]
pub fn container_at(tape: &[u32], count: u32, i: u32) -> Option<Container>
    ensures { result ≡ container_at (view tape.now count) i }
{
    words::token(tape, count, i).container()
}

// The parent that an open container names, 0 where there is none.
pub fn parent_of(container: Option<Container>) -> u32
    ensures { result ≡ parent_of container }
{
    match container {
        Some(container) => container.link,
        None => 0,
    }
}

// A container's own kind, Object where there is none.
pub fn own_kind(container: Option<Container>) -> ContainerKind
    ensures { result ≡ own_kind container }
{
    match container {
        Some(container) => container.kind,
        None => ContainerKind::Object,
    }
}

// The state in which an Object that is taken up goes on.
fn state_in_object(mixed: bool) -> State
    ensures { result ≡ state_in_object mixed }
{
    if mixed { State::ArrayValue } else { State::Key }
}

// The state in which a container that is taken up goes on.
fn state_in(container: Option<Container>) -> State
    ensures { result ≡ state_in container }
{
    let Some(container) = container else {
        return State::Key;
    };
    match container.kind {
        ContainerKind::Array => State::ArrayValue,
        ContainerKind::Object => state_in_object(container.mixed),
    }
}

// The flag in force in a container that is taken up.
fn mixed_in(container: Option<Container>) -> bool
    ensures { result ≡ mixed_in container }
{
    match container {
        Some(container) => container.mixed,
        None => false,
    }
}

// The machine past a closing byte, inside a parent that is taken up.
pub fn resumed(up: Option<Container>, parent: u32, at: usize, count: u32) -> Machine
    ensures { result ≡ resumed up parent at count }
{
    Machine {
        at,
        state: state_in(up),
        parent,
        mixed: mixed_in(up),
        count,
    }
}

// Whether no container is open, by the parent and the parent's own.
pub fn nothing_open(parent: u32, grand: u32) -> bool
    ensures { result ≡ nothing_open parent grand }
{
    parent == 0 && grand == 0
}
