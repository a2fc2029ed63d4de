// A refusal's number, with what it is said by.
ghost use Rattle.std.specs.Prelude.{◌≡◌};
ghost use Rattle.put.specs.Append.{wrote, append};
ghost use Rattle.report.specs.Dump.{refusal, refused_line};

use crate::numbers::put_decimal;
use put::{put_byte, put_bytes};

// Puts that something is refused, and the refusal's number.
pub(crate) fn put_refusal(out: &mut [u8], at: usize, number: u64) -> usize
    ensures { wrote result out.new ≡ append out.old at (refusal number) }
{
    let word = put_bytes(out, at, b"refused ");
    put_decimal(out, word, number)
}

// Puts the line of a refusal that has no place.
pub fn put_refused_line(out: &mut [u8], at: usize, number: u64) -> usize
    ensures { wrote result out.new ≡ append out.old at (refused_line number) }
{
    let told = put_refusal(out, at, number);
    put_byte(out, told, b'\n')
}
