// The second pair of cuts: what the plain pair answers, by a look at eight bytes in one u64, as the Rust's routine for quotes has it where
// there is no SSE2, and at two such words a step. A mask marks every byte that a cut looks for, and a few others: the marked byte itself is
// tested before it counts. The last bytes are looked at one by one, so that nothing is read past the part.
// The pair begins with what is quick where runs are alike: a run of one byte, and an unquoted one of less than a word. Which of these comes
// next cannot be guessed in a save, so the scalars of a text are cut by two that stand beside the pair (`split_unguessed`,
// `quote_unguessed`) and begin with a stride.
ghost use Rattle.std.specs.Prelude.{◌≡◌, ◌+◌, ◌-◌, ◌≤◌, ◌<◌, length, take, drop};
ghost use Rattle.data.specs.Classes.{is_boundary};
ghost use Rattle.cut.specs.Lanes.{word, over};
ghost use Rattle.cut.specs.Marks.{may_end, may_close, word_size, stride, all_unmarked, word_mark, first_mark};
ghost use Rattle.cut.specs.Quotes.{quoted_from, quoted_run, closes_soon};
ghost use Rattle.cut.specs.Runs.{stop_from, unquoted_run};

use crate::QuotedRun;

// How many bytes a word has, and a step of two words.
const WORD: usize = 8;

const STRIDE: usize = 2 * WORD;

// The top bit of every byte of a word, by which a byte is marked.
const TOPS: u64 = 0x8080_8080_8080_8080;

// A byte at a word's width.
fn wide(b: u8) -> u64
    ensures { (result ≡ b) × (result < 256) }
{
    b as u64
}

// The eight bytes from a place on, in one word, the first the lowest.
fn eight(d: &[u8], i: usize) -> u64
    requires { i + word_size ≤ length d.now }
    ensures { result ≡ word (take word_size (drop i d.now)) }
{
    wide(d[i])
        | (wide(d[i + 1]) << 8)
        | (wide(d[i + 2]) << 16)
        | (wide(d[i + 3]) << 24)
        | (wide(d[i + 4]) << 32)
        | (wide(d[i + 5]) << 40)
        | (wide(d[i + 6]) << 48)
        | (wide(d[i + 7]) << 56)
}

// Marks the bytes of a word that may end an unquoted run: those up to `#`, and by their low five bits `;` `<` `=` `>` `[` `]` `{` `}`, with
// which go `\` `^` `|` `~`.
fn may_end(x: u64) -> u64
    ensures { result ≡ over may_end word_size x }
{
    let z = x & 0x7f7f_7f7f_7f7f_7f7f;
    let small = (z ^ 0x7f7f_7f7f_7f7f_7f7f) + 0x2424_2424_2424_2424;
    let signs = ((z + 0x0101_0101_0101_0101) & 0x1f1f_1f1f_1f1f_1f1f) + 0x6464_6464_6464_6464;
    small | signs
}

// Marks the bytes of a word that may be a quote or a backslash.
fn may_close(x: u64) -> u64
    ensures { result ≡ over may_close word_size x }
{
    let z = x & 0x7f7f_7f7f_7f7f_7f7f;
    (TOPS - (z ^ 0x2222_2222_2222_2222)) | (TOPS - (z ^ 0x5c5c_5c5c_5c5c_5c5c))
}

// Whether two words have no mark.
fn all_unmarked(x: u64, y: u64) -> bool
    ensures { result ≡ all_unmarked x y }
{
    ((x & TOPS) | (y & TOPS)) == 0
}

// How many bytes stand before the first mark of a word; all eight where there is none.
fn word_mark(x: u64) -> usize
    ensures mark { result ≡ word_mark x }
    ensures few { result ≤ word_size }
{
    (u64::trailing_zeros(x & TOPS) >> 3) as usize
}

// How many bytes stand before the first mark of two words; all sixteen where there is none.
fn first_mark(x: u64, y: u64) -> usize
    ensures mark { result ≡ first_mark x y }
    ensures few { result ≤ stride }
{
    let mut word = x;
    let mut skip = 0;
    if (x & TOPS) == 0 {
        word = y;
        skip = WORD;
    }
    skip + word_mark(word)
}

// How many places of so many bytes there are from which a stride and one byte more can be read.
fn strides(n: usize) -> usize
    ensures { result ≡ n - stride }
{
    if n < STRIDE { 0 } else { n - STRIDE }
}

// The first boundary byte from a place on, or the end, a byte at a time.
fn stop_tail(d: &[u8], at: usize) -> usize
    ensures { result ≡ stop_from is_boundary (drop at d.now) at }
{
    match d.get(at..) {
        Some(left) => at
            + left
                .iter()
                .position(|&b| data::is_boundary(b))
                .unwrap_or(left.len()),
        None => at,
    }
}

// The same, by strides. One without a mark is passed whole.
fn stop_far(d: &[u8], at: usize) -> usize
    ensures { result ≡ stop_from is_boundary (drop at d.now) at }
{
    // No `for`: a step goes over a stride, or to behind a marked byte.
    let mut i = at;
    let last = strides(d.len());
    while i < last {
        let x = may_end(eight(d, i));
        let y = may_end(eight(d, i + WORD));
        if all_unmarked(x, y) {
            i += STRIDE;
        } else {
            i += first_mark(x, y);
            if data::is_boundary(d[i]) {
                return i;
            }
            i += 1;
        }
    }
    stop_tail(d, i)
}

// The first boundary byte of a part, or its end. Most runs end within the first stride, which is therefore looked at by itself, with no
// branch before its first mark.
fn stop(d: &[u8]) -> usize
    ensures { result ≡ stop_from is_boundary d.now 0 }
{
    if STRIDE < d.len() {
        let n = first_mark(may_end(eight(d, 0)), may_end(eight(d, WORD)));
        if data::is_boundary(d[n]) {
            return n;
        }
    }
    stop_far(d, 0)
}

// How long the run at the head of a part is that stops at a place: one byte where that is the head.
fn run_to(d: &[u8], n: usize) -> usize
    requires { n ≡ stop_from is_boundary d.now 0 }
    ensures { result ≡ unquoted_run d.now }
{
    if n != 0 {
        return n;
    }
    if d.len() == 0 { 0 } else { 1 }
}

// How long the unquoted run at the head of a part is, by the thirteen boundary bytes, for runs of all lengths one after the other.
pub(crate) fn split_unguessed(d: &[u8]) -> usize
    ensures { result ≡ unquoted_run d.now }
{
    run_to(d, stop(d))
}

// How long the unquoted run at the head of a part is that has more than a word and a stride. The first word is looked at by itself.
fn split_word(d: &[u8]) -> usize
    requires { word_size + stride < length d.now }
    ensures { result ≡ unquoted_run d.now }
{
    let x = may_end(eight(d, 0));
    let mut from = WORD;
    if (x & TOPS) != 0 {
        let n = word_mark(x);
        if data::is_boundary(d[n]) {
            return if n == 0 { 1 } else { n };
        }
        from = n + 1;
    }
    stop_far(d, from)
}

// How long the unquoted run at the head of a part is, by the thirteen boundary bytes. One at the head is a run of its own, and so is a byte
// before one, which is asked for first where the second byte stands before `@`. A part of no more than a word and a stride is looked at a byte
// at a time.
pub fn split_at_scalar(d: &[u8]) -> usize
    ensures { result ≡ unquoted_run d.now }
{
    if WORD + STRIDE < d.len() {
        let second = d[1];
        if second < b'@' {
            if data::is_boundary(second) {
                return 1;
            }
        }
        return split_word(d);
    }
    run_to(d, stop_tail(d, 0))
}

// The quoted run from a place on, with a backslash before it or none, by the plain cut of what is left. A backslash may have skipped past
// the end, where nothing closes the run.
fn quote_tail(d: &[u8], at: usize, before: bool) -> Option<QuotedRun>
    ensures { result ≡ quoted_from (drop at d.now) at before }
{
    if d.len() < at {
        return None;
    }
    let left = crate::parse_quote_scalar(&d[at..])?;
    Some(QuotedRun {
        length: at + left.length,
        escaped: before | left.escaped,
    })
}

// How long the quoted run after an opening quote is, and whether a backslash takes part in it, for runs of all lengths one after the other.
// A stride without a mark is passed whole.
pub(crate) fn quote_unguessed(d: &[u8]) -> Option<QuotedRun>
    ensures { result ≡ quoted_run d.now }
{
    // No `for`, as in `stop_far`.
    let mut i = 0;
    let mut escaped = false;
    let last = strides(d.len());
    while i < last {
        let x = may_close(eight(d, i));
        let y = may_close(eight(d, i + WORD));
        if all_unmarked(x, y) {
            i += STRIDE;
        } else {
            let n = first_mark(x, y);
            i += n;
            let b = d[i];
            if b == b'"' {
                return Some(QuotedRun { length: i, escaped });
            }
            i += 1;
            if b == b'\\' {
                escaped = true;
                i += 1;
            }
        }
    }
    quote_tail(d, i, escaped)
}

// Whether a quoted run has one byte.
fn closes_soon(d: &[u8]) -> bool
    ensures { result ≡ closes_soon d.now }
{
    match d {
        &[first, b'"', ..] => (first != b'"') & (first != b'\\'),
        _ => false,
    }
}

// How long the quoted run after an opening quote is, and whether a backslash takes part in it. Where a stride can be read, a run of one byte
// is asked for first.
pub fn parse_quote_scalar(d: &[u8]) -> Option<QuotedRun>
    ensures { result ≡ quoted_run d.now }
{
    if STRIDE < d.len() {
        if closes_soon(d) {
            return Some(QuotedRun {
                length: 1,
                escaped: false,
            });
        }
    }
    quote_unguessed(d)
}
