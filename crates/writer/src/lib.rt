// The way back: from a sheet, with the text that its views lie in, to save text.
#![tactic(auto)]

ghost use Rattle.std.specs.Prelude.{◌≡◌, ◌≤◌, length};
ghost use Rattle.sheet.specs.Decided.{Decided};
ghost use Rattle.sheet.specs.Sound.{Sound};
ghost use Rattle.tape.specs.Words.{tokens_in};
ghost use Rattle.writer.specs.Refusals.{number};
ghost use Rattle.writer.specs.Write.{left, text_of, refuse, weigh_text, weigh, read_back, write_of};
ghost use Rattle.writer.specs.Ranges.{Whole};
ghost use Rattle.writer.specs.Source.{tokens};

use crate::bodies::put_pairs;
use crate::source::Source;
use tape::words;

// What a body is written as.
mod bodies;
// What is due next in a body.
pub mod dues;
// Whether a sheet is of the form that can be written.
mod form;
// How deep a sheet nests.
mod levels;
// How long its text will be.
mod measure;
// What a token is to the writer.
pub mod pieces;
// Walks over a body's direct tokens.
mod ranges;
// What is written.
mod source;

// Why a sheet is not written, by the refusals' numbers.
#[derive(Clone, Copy, PartialEq, Eq)]
pub enum Refusal {
    NotSound = 41,
    TooDeep = 42,
    TooLong = 43,
    NoRoom = 44,
    ReadsOtherwise = 45,
    OtherForm = 46,
}

impl Refusal {
    // The refusal's number.
    pub fn number(self) -> u32
        ensures { result ≡ number self }
    {
        self as u32
    }
}

// Whether a sound sheet's text is within the limit and finds room, by a buffer of so many bytes and a scratch of so many words.
fn weigh_text(source: Source<'_>, room: usize, scratch: &[u32]) -> Result<(), Refusal>
    requires { Whole source.words.now source.count }
    ensures { result ≡ weigh_text room (length scratch.now) (tokens source.entry)
        (text_of source.entry.text.now (tokens source.entry)) }
{
    let size = measure::measure(source).ok_or(Refusal::TooLong)?;
    if room < size || words::capacity(scratch) < source.count {
        return Err(Refusal::NoRoom);
    }
    Ok(())
}

// What can be said of a sheet before a byte is written. Each reason is looked for in the whole sheet before the next.
fn weigh(source: Source<'_>, room: usize, scratch: &[u32]) -> Result<(), Refusal>
    ensures { Decided (Sound (length source.entry.text.now) source.entry.words.now source.entry.count)
        (weigh source.entry.text.now (tokens source.entry) room (length scratch.now)) result }
{
    if !sheet::check(source.text.len(), source.words, source.count) {
        return Err(Refusal::NotSound);
    }
    if !form::all_formed(source) {
        return Err(Refusal::OtherForm);
    }
    if levels::sinks_too_deep(source) {
        return Err(Refusal::TooDeep);
    }
    weigh_text(source, room, scratch)
}

// Refuses, and leaves all that was lent zero.
fn refuse(out: &mut [u8], scratch: &mut [u32], r: Refusal) -> Result<usize, Refusal>
    ensures { left result out.new scratch.new ≡ refuse (length out.old) (length scratch.old) r }
{
    put::clear_from(out, 0);
    words::clear_from(scratch, 0);
    Err(r)
}

// Writes a sheet that fits, and reads it back.
fn write_fitting(source: Source<'_>, out: &mut [u8], scratch: &mut [u32]) -> Result<usize, Refusal>
    requires { Whole source.words.now source.count
        × (length (text_of source.text.now (tokens source)) ≤ length out.old) }
    ensures { left result out.new scratch.new
        ≡ read_back source.entry.text.now (tokens source.entry) (length out.old) (length scratch.old)
        (text_of source.entry.text.now (tokens source.entry)) }
{
    let size = put_pairs(out, 0, &source, 0, source.count);
    put::clear_from(out, size);
    let front = put::front(out, size);
    if alike::comes_back(source.text, source.words, source.count, front, scratch) {
        return Ok(size);
    }
    put::clear_from(out, 0);
    Err(Refusal::ReadsOtherwise)
}

// Writes a sheet, with the text that its views lie in, as save text into a lent buffer. The text is read back by the parse, with a lent
// scratch for its tape. After success the buffer holds the text and zeros behind it, after a refusal it is all zero, and the scratch
// ends zero always. Nothing is read past the first count tokens and their views.
pub fn write(
    text: &[u8],
    words: &[u32],
    count: usize,
    out: &mut [u8],
    scratch: &mut [u32],
) -> Result<usize, Refusal>
    ensures { Decided (Sound (length text.now) words.now count)
        (write_of text.now (tokens_in words.now count) (length out.old) (length scratch.old))
        (left result out.new scratch.new) }
{
    let source = Source { text, words, count };
    match weigh(source, out.len(), scratch) {
        Err(r) => refuse(out, scratch, r),
        Ok(()) => write_fitting(source, out, scratch),
    }
}
