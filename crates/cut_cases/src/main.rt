// Worked cuts: each line of the input has a letter that names a cut, a place and a text, both in hexadecimal, and is written out again with
// the answer. b skips blanks, r ends a run and c cuts a scalar, each at the place; s, q and v measure the run, the quoted run and the
// variable at the head of the text, S and Q the runs once more, by strides. U and D make texts of every length up to 40 and write the run,
// or the quoted run, at the head of each by strides, and `differs` behind it where the plain cut, or the one by which a scalar of a text is
// cut, has another: their line's text is the byte that the texts are full of, the one that they end with, and those that are laid at every
// place in turn.
#![tactic(auto)]

ghost use Rattle.std.specs.Prelude.{◌≡◌, ◌≤◌, length};

use cut::{Cut, QuotedRun};
use input::read_full;
use std::io;

// How many bytes of the input count.
const MOST_BYTES: usize = 65536;

// How many bytes a text has room for.
const ROOM: usize = 64;

// The length of the longest texts that are made.
const LONGEST: usize = 40;

// What a hexadecimal digit is worth; 0 for any other byte.
fn digit(b: u8) -> u8
    ensures { result ≤ 15 }
{
    match b {
        b'0'..=b'9' => b - b'0',
        b'a'..=b'f' => b - b'a' + 10,
        _ => 0,
    }
}

// The number that digits spell. Those that a word has no room for are lost.
fn number(digits: &[u8]) -> usize {
    let mut value: usize = 0;
    for &b in digits {
        value = (value << 4) | usize::from(digit(b));
    }
    value
}

// The byte that two hexadecimal digits spell.
fn byte(high: u8, low: u8) -> u8 {
    digit(high) * 16 + digit(low)
}

// Puts the bytes that pairs of digits spell into the text, as far as it has room, and answers how many there are.
fn bytes(hex: &[u8], text: &mut [u8]) -> usize
    ensures { result ≤ length text.new }
{
    let (pairs, _) = hex.as_chunks::<2>();
    for (slot, &[high, low]) in text.iter_mut().zip(pairs) {
        *slot = byte(high, low);
    }
    text.len().min(pairs.len())
}

// All that is written goes through here, but for the digits of a number.
fn say(rt: &impl Print, words: &[u8]) -> io::Result<()> {
    rt.write_all(words)
}

// A number stands behind a space, so that a line needs no other.
fn say_number(rt: &impl Print, n: usize) -> io::Result<()> {
    say(rt, b" ")?;
    print!(rt; "{n}")
}

// Where a scalar's view lies, and where the text goes on.
fn say_view(rt: &impl Print, start: usize, end: usize, rest: usize) -> io::Result<()> {
    say_number(rt, start)?;
    say_number(rt, end)?;
    say_number(rt, rest)
}

// What stands behind blanks and comments.
fn say_blanks(rt: &impl Print, text: &[u8], place: usize) -> io::Result<()> {
    match cut::skip_ws_t(text, place) {
        Some(i) => {
            say(rt, b" at")?;
            say_number(rt, i)
        }
        None => say(rt, b" end"),
    }
}

// Whether a backslash took part in a quoted run.
fn say_escaped(rt: &impl Print, escaped: bool) -> io::Result<()> {
    if escaped {
        say(rt, b" escaped")?;
    }
    Ok(())
}

// Where a quoted run closes.
fn say_quoted(rt: &impl Print, run: Option<QuotedRun>) -> io::Result<()> {
    match run {
        Some(QuotedRun { length, escaped }) => {
            say(rt, b" closed")?;
            say_number(rt, length)?;
            say_escaped(rt, escaped)
        }
        None => say(rt, b" unclosed"),
    }
}

// The scalar at a place.
fn say_scalar(rt: &impl Print, text: &[u8], place: usize) -> io::Result<()> {
    match cut::scalar_at(text, place) {
        Some(Cut::Unquoted { start, end, rest }) => {
            say(rt, b" unquoted")?;
            say_view(rt, start, end, rest)
        }
        Some(
            Cut::Quoted {
                start,
                end,
                rest,
                escaped,
            },
        ) => {
            say(rt, b" quoted")?;
            say_view(rt, start, end, rest)?;
            say_escaped(rt, escaped)
        }
        None => say(rt, b" end"),
    }
}

// What stands behind an answer by strides.
fn say_alike(rt: &impl Print, alike: bool) -> io::Result<()> {
    if !alike {
        say(rt, b" differs")?;
    }
    Ok(())
}

// The run at the head of a text by strides, held against the plain cut and against the end of the run as a text's.
fn say_both_runs(rt: &impl Print, text: &[u8], classes: &[u8; data::BYTE_COUNT]) -> io::Result<()> {
    let length = cut::strides::split_at_scalar(text);
    say_number(rt, length)?;
    say_alike(
        rt,
        (length == cut::split_at_scalar(text, classes)) & (length == cut::run_end(text, 0)),
    )
}

// Whether a quoted run closes behind so many bytes, with an escape or without.
fn closes(run: Option<QuotedRun>, wanted: usize, with_escape: bool) -> bool {
    match run {
        Some(QuotedRun { length, escaped }) => (length == wanted) & (escaped == with_escape),
        None => false,
    }
}

// Puts bytes into the room from a place on, as far as it goes.
fn lay(room: &mut [u8], at: usize, part: &[u8])
    ensures { length room.new ≡ length room.old }
{
    if let Some(slots) = room.get_mut(at..) {
        for (slot, &b) in slots.iter_mut().zip(part) {
            *slot = b;
        }
    }
}

// The place of the last of so many bytes. Of none it is past the room, so that nothing is laid there.
fn last_place(n: usize) -> usize {
    n.checked_sub(1).unwrap_or(ROOM)
}

// Whether a quoted run is what the scalar of a text is, with the opening quote before it.
fn is_scalar(run: Option<QuotedRun>, text: &[u8]) -> bool {
    if ROOM <= text.len() {
        return false;
    }
    let mut room = [b'"'; ROOM];
    lay(&mut room, 1, text);
    match cut::scalar_at(&room[..text.len() + 1], 0) {
        Some(Cut::Quoted { end, escaped, .. }) => closes(run, last_place(end), escaped),
        Some(Cut::Unquoted { .. }) => false,
        None => run.is_none(),
    }
}

// The quoted run at the head of a text by strides, held against the plain cut and against the scalar of a text: its length, with an e where
// it has an escape, or a dash.
fn say_both_quoted(rt: &impl Print, text: &[u8]) -> io::Result<()> {
    let plain = cut::parse_quote_scalar(text);
    let fast = cut::strides::parse_quote_scalar(text);
    match fast {
        Some(QuotedRun { length, escaped }) => {
            say_number(rt, length)?;
            if escaped {
                say(rt, b"e")?;
            }
            say_alike(rt, closes(plain, length, escaped) & is_scalar(fast, text))
        }
        None => {
            say(rt, b" -")?;
            say_alike(rt, plain.is_none() & is_scalar(fast, text))
        }
    }
}

// A text of so many bytes: full of the shape's first byte, ended by its second, with its others laid at a place. Past the end they are
// laid too, where no cut may see them.
fn shaped(shape: &[u8], n: usize, at: usize) -> Option<[u8; ROOM]>
    requires { n ≤ 40 }
{
    let [filler, last, laid @ ..] = shape else {
        return None;
    };
    let mut room = [*filler; ROOM];
    lay(&mut room, last_place(n), &[*last]);
    lay(&mut room, at, laid);
    Some(room)
}

// The texts of every length, with a line for each: of each length a text for each place, and the end for the text without.
fn sweep<F: Fn(&[u8]) -> io::Result<()>>(
    rt: &impl Print,
    shape: &[u8],
    say_both: F,
) -> io::Result<()>
    requires { F.IsAlwaysCallable say_both }
{
    for n in 0..=LONGEST {
        say(rt, b"\nof")?;
        say_number(rt, n)?;
        say(rt, b":")?;
        for at in 0..=n {
            if let Some(room) = shaped(shape, n, at) {
                say_both(&room[..n])?;
            }
        }
    }
    Ok(())
}

// The answer of the cut that a letter names.
fn answer(
    rt: &impl Print,
    name: u8,
    place: usize,
    text: &[u8],
    classes: &[u8; data::BYTE_COUNT],
) -> io::Result<()> {
    match name {
        b'b' => say_blanks(rt, text, place),
        b'r' => say_number(rt, cut::run_end(text, place)),
        b'c' => say_scalar(rt, text, place),
        b's' => say_number(rt, cut::split_at_scalar(text, classes)),
        b'S' => say_number(rt, cut::strides::split_at_scalar(text)),
        b'q' => say_quoted(rt, cut::parse_quote_scalar(text)),
        b'Q' => say_quoted(rt, cut::strides::parse_quote_scalar(text)),
        b'v' => say_number(rt, cut::parse_variable(text)),
        b'U' => sweep(rt, text, |part| say_both_runs(rt, part, classes)),
        b'D' => sweep(rt, text, |part| say_both_quoted(rt, part)),
        _ => say(rt, b" no such cut"),
    }
}

// A line: the letter, a space, the place, a space, the text.
fn line_answer(rt: &impl Print, line: &[u8], classes: &[u8; data::BYTE_COUNT]) -> io::Result<()> {
    let [name, _, fields @ ..] = line else {
        return Ok(());
    };
    let Some(space) = fields.iter().position(|&b| b == b' ') else {
        return Ok(());
    };
    let mut room = [0u8; ROOM];
    let n = bytes(&fields[space + 1..], &mut room);
    say(rt, line)?;
    answer(rt, *name, number(&fields[..space]), &room[..n], classes)?;
    say(rt, b"\n")
}

// Each line of the input in turn, whose last may have no LF.
fn lines(rt: &impl Print, input: &[u8], classes: &[u8; data::BYTE_COUNT]) -> io::Result<()> {
    for line in input.split_inclusive(|&b| b == b'\n') {
        line_answer(rt, line.strip_suffix(b"\n").unwrap_or(line), classes)?;
    }
    Ok(())
}

// Cases in, the same cases with their answers out.
fn main(rt: HostRuntime) -> io::Result<()> {
    let mut input = [0u8; MOST_BYTES];
    let n = read_full(&mut rt.stdin(), &mut input)?;
    let classes = data::character_class();
    lines(&rt, &input[..n], &classes)
}
