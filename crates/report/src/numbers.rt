// Numbers, most significant digit first: the digits of the quotient, and behind them the last one. The calls go as deep as there are
// digits; a loop would find the last digit first, and need room of its own to turn them about.
ghost use Rattle.std.specs.Prelude.{◌≡◌, ◌<◌, ◌≤◌};
ghost use Rattle.put.specs.Append.{wrote, append};
ghost use Rattle.report.specs.Digits.{glyph as glyph_of, decimal, hex_by, most_hex, hex};
ghost use Rattle.report.specs.Readings.{integer};

use put::put_byte;

// The digit for a number below sixteen: `0` to `9`, then `a` to `f`.
#[tactic(auto, unfolding(crate::specs::Digits::glyph))]
fn glyph(d: u8) -> u8
    requires { d < 16 }
    ensures { result ≡ glyph_of d }
{
    if d < 10 { b'0' + d } else { b'a' + (d - 10) }
}

// Puts a number in decimal.
pub fn put_decimal(out: &mut [u8], at: usize, n: u64) -> usize
    ensures { wrote result out.new ≡ append out.old at (decimal n) }
{
    if n < 10 {
        return put_byte(out, at, glyph(n as u8));
    }
    let last = put_decimal(out, at, n / 10);
    put_byte(out, last, glyph((n % 10) as u8))
}

// The hexadecimal digits of a u64.
const MOST_HEX: usize = 16;

// Puts the last so many hexadecimal digits of a number. It calls itself once for each digit, which is at most sixteen deep.
fn put_hex_by(out: &mut [u8], at: usize, n: u64, digits: usize) -> usize
    requires { digits ≤ most_hex }
    ensures { wrote result out.new ≡ append out.old at (hex_by digits n) }
{
    if digits == 0 {
        return at;
    }
    let last = put_hex_by(out, at, n / 16, digits - 1);
    put_byte(out, last, glyph((n % 16) as u8))
}

// Puts the last so many hexadecimal digits of a number, zeros in front among them; of more than a u64 has, as many as it has.
pub fn put_hex(out: &mut [u8], at: usize, n: u64, digits: usize) -> usize
    ensures { wrote result out.new ≡ append out.old at (hex digits n) }
{
    put_hex_by(out, at, n, digits.min(MOST_HEX))
}

// Puts a number with its sign, where it has a minus.
pub fn put_integer(out: &mut [u8], at: usize, n: i64) -> usize
    ensures { wrote result out.new ≡ append out.old at (integer n) }
{
    if n < 0 {
        let next = put_byte(out, at, b'-');
        return put_decimal(out, next, scalar::magnitude(n));
    }
    put_decimal(out, at, scalar::magnitude(n))
}
