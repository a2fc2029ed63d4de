// Prints the tokens of the sheet file on standard input.
#![tactic(auto)]

use input::read_full;
use report::limits::{DUMP_BYTES, MOST_INPUT, TAPE_WORDS};
use std::io;

// Writes what was put, in one piece.
fn write_lines(rt: &impl Print, lines: &[u8; DUMP_BYTES], end: usize) -> io::Result<()> {
    rt.write_all(put::front(lines, end))
}

// Reads one byte more than an input may have, and writes all that is printed. No sheet file has so many bytes, so that a longer input is
// refused.
fn main(rt: HostRuntime) -> io::Result<()> {
    let mut input = [0u8; MOST_INPUT + 1];
    let mut words = [0u32; TAPE_WORDS];
    let mut lines = [0u8; DUMP_BYTES];
    let n = read_full(&mut rt.stdin(), &mut input)?;
    let end = file_lines::found_lines(&mut lines, &input[..n], &mut words);
    write_lines(&rt, &lines, end)
}
