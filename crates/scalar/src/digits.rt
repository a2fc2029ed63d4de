// Runs of decimal digits: their number modulo 2^64, and whether the true number is past 64 bits.
ghost use Rattle.std.specs.Prelude.{◌≡◌, ◌*◌, ◌%◌, ◌^◌, true, drop, nat_lt};
ghost use Rattle.scalar.specs.Digits.{is_digit, carry, digit_run, value, gathered, digits_in, most_u64};

// Fewer bytes than this cannot write digits past 64 bits, with or without a point: 2^64 has twenty.
pub(crate) const OVERFLOW_CUTOFF: usize = 20;

// What a run of digits gathers to, modulo 2^64, and the place after the run.
#[derive(Clone, Copy)]
pub struct Gathered {
    pub total: u64,
    pub at: usize,
}

// The digits that stand at a place: the number that they write, or the most that 64 bits hold where it is more, and the place after
// them.
#[derive(Clone, Copy)]
pub struct Digits {
    pub number: u64,
    pub end: usize,
}

// Whether a byte is a decimal digit.
#[tactic(auto, using(crate::proofs::Runs::digit_in, crate::proofs::Runs::digit_out))]
fn is_digit(b: u8) -> bool
    ensures { result ≡ is_digit b }
{
    matches!(b, b'0'..=b'9')
}

// Ten times a number, modulo 2^64: eight times and twice, which shifts cannot overflow.
fn times_ten(x: u64) -> u64
    ensures { result ≡ (x * 10) % 2 ^ 64 }
{
    std::num::wrapping_add_u64(x << 3, x << 1)
}

// A total carried on by one more digit, modulo 2^64.
fn carried(total: u64, b: u8) -> u64
    requires { is_digit b ≡ true }
    ensures { result ≡ carry total b % 2 ^ 64 }
{
    std::num::wrapping_add_u64(times_ten(total), (b - b'0') as u64)
}

// The digits from a place on, carried on from a total before them: the one look at each digit.
pub(crate) fn gather(d: &[u8], at: usize, start: u64) -> Gathered
    ensures { result ≡ gathered d.now at start }
{
    let mut total = start;
    for i in at..d.len() {
        let b = d[i];
        if !is_digit(b) {
            return Gathered { total, at: i };
        }
        total = carried(total, b);
    }
    Gathered {
        total,
        at: at.max(d.len()),
    }
}

// Whether the digits from a place on carry a total past what 64 bits hold. Only long inputs pay for
// this second look.
pub(crate) fn overflows(d: &[u8], at: usize, start: u64) -> bool
    ensures { result ≡ nat_lt most_u64 (value start (digit_run (drop at d.now))) }
{
    let mut total = start;
    for i in at..d.len() {
        let b = d[i];
        if !is_digit(b) {
            return false;
        }
        let digit = (b - b'0') as u64;
        if total > (u64::MAX - digit) / 10 {
            return true;
        }
        total = total * 10 + digit;
    }
    false
}

// Whether the digits from a place on write a number past what 64 bits hold.
#[tactic(auto, using(crate::proofs::Runs::short_fits))]
pub(crate) fn exceeds(d: &[u8], at: usize) -> bool
    ensures { result ≡ nat_lt most_u64 (value 0 (digit_run (drop at d.now))) }
{
    d.len() >= OVERFLOW_CUTOFF && overflows(d, at, 0)
}

// The digits that stand at a place of some bytes, none of them where another byte or none stands there.
pub fn digits_at(d: &[u8], at: usize) -> Digits
    ensures { result ≡ digits_in d.now at }
{
    let run = gather(d, at, 0);
    let number = if exceeds(d, at) { u64::MAX } else { run.total };
    Digits {
        number,
        end: run.at,
    }
}
