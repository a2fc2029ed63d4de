// The program `dump` again, run on one byte more than it reads: a program is tried on one input, so that this is one of its own.
#![tactic(auto)]

use input::read_full;
use report::limits::{DUMP_BYTES, MOST_INPUT, TAPE_WORDS};
use std::io;

// Writes what was put, in one piece.
fn write_lines(rt: &impl Print, lines: &[u8; DUMP_BYTES], end: usize) -> io::Result<()> {
    rt.write_all(put::front(lines, end))
}

// Reads one byte more than a save may have, which tells that it has too many, and writes all that is printed.
fn main(rt: HostRuntime) -> io::Result<()> {
    let mut input = [0u8; MOST_INPUT + 1];
    let mut tape = [0u32; TAPE_WORDS];
    let mut lines = [0u8; DUMP_BYTES];
    let n = read_full(&mut rt.stdin(), &mut input)?;
    let end = report::dump::save_lines(&mut lines, &input[..n], &mut tape);
    write_lines(&rt, &lines, end)
}
