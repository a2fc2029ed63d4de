// Reads scalars from standard input, one to a line, and writes on a line for each what the five
// readings make of it: `=` and the value, or the refusal's number; then the number of its kind.
#![tactic(auto)]

use input::read_full;
use scalar::{BoolError, DecimalError, Numbered, WholeError};
use std::io;

// How many bytes of the text count.
const MOST_BYTES: usize = 32768;

// Reads the text, of which only the first bytes count.
fn main(rt: HostRuntime) -> io::Result<()> {
    let mut text = [0u8; MOST_BYTES];
    let n = read_full(&mut rt.stdin(), &mut text)?;
    write_lines(&rt, &text[..n])
}

// A line for each line of the text, whose last may have no LF.
fn write_lines(rt: &impl Print, text: &[u8]) -> io::Result<()> {
    for line in text.split_inclusive(|&byte| byte == b'\n') {
        write_readings(rt, line.strip_suffix(b"\n").unwrap_or(line))?;
    }
    Ok(())
}

// The five readings of a scalar.
fn write_readings(rt: &impl Print, d: &[u8]) -> io::Result<()> {
    write_bool(rt, scalar::to_bool(d))?;
    print!(rt; " ")?;
    write_u64(rt, scalar::to_u64(d))?;
    print!(rt; " ")?;
    write_i64(rt, scalar::to_i64(d))?;
    print!(rt; " ")?;
    write_f64(rt, scalar::to_f64(d))?;
    print!(rt; " ")?;
    println!(rt; "{}", scalar::kind_number(scalar::kind(d)))
}

// A truth is 1 or 0.
fn write_bool(rt: &impl Print, r: Result<bool, BoolError>) -> io::Result<()> {
    match r {
        Ok(yes) => print!(rt; "={}", yes as u8),
        Err(e) => print!(rt; "{}", e.number()),
    }
}

// A number without a minus, in decimal.
fn write_u64(rt: &impl Print, r: Result<u64, WholeError>) -> io::Result<()> {
    match r {
        Ok(n) => print!(rt; "={n}"),
        Err(e) => print!(rt; "{}", e.number()),
    }
}

// A number with a sign, in decimal.
fn write_i64(rt: &impl Print, r: Result<i64, WholeError>) -> io::Result<()> {
    match r {
        Ok(n) => print!(rt; "={n}"),
        Err(e) => print!(rt; "{}", e.number()),
    }
}

// An f64 is its bits in hex; a loss of precision is its number and the bits that it carries.
fn write_f64(rt: &impl Print, r: Result<f64, DecimalError>) -> io::Result<()> {
    match r {
        Ok(x) => print!(rt; "={:016x}", scalar::pattern(x)),
        Err(DecimalError::PrecisionLoss(x)) => {
            print!(rt; "{}:{:016x}", scalar::PRECISION_LOSS, scalar::pattern(x))
        }
        Err(e) => print!(rt; "{}", e.number()),
    }
}
