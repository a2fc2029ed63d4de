// The answers about a sheet as lines, which are what records of the kinds `C`, `V` and `W` are answered with.
ghost use Rattle.std.specs.Prelude.{◌≡◌, length, Bool};
ghost use Rattle.sheet.specs.Sound.{Sound};
ghost use Rattle.sheet.specs.Views.{viewed};
ghost use Rattle.put.specs.Append.{wrote, append};
ghost use Rattle.sheet.specs.Decided.{Decided};
ghost use Rattle.tape.specs.Words.{tokens_in};
ghost use Rattle.writer.specs.Write.{write_of};
ghost use Rattle.report.specs.Sheets.{Judged, hex_bytes, view_text, reported, report_written};

use crate::numbers::put_hex;
use crate::refusals::put_refused_line;
use put::{front, put_byte, put_bytes};

// Puts whether the first count tokens of the words are a sound sheet for a text of a length.
pub fn put_check(
    out: &mut [u8],
    at: usize,
    text_length: usize,
    words: &[u32],
    count: usize,
) -> usize
    ensures { Judged (Sound text_length words.now count) out.old at (wrote result out.new) }
{
    if sheet::check(text_length, words, count) {
        return put_bytes(out, at, b"sound\n");
    }
    put_bytes(out, at, b"unsound\n")
}

// Puts bytes as hexadecimal digits, two each.
pub fn put_hex_bytes(out: &mut [u8], at: usize, bytes: &[u8]) -> usize
    ensures { wrote result out.new ≡ append out.old at (hex_bytes bytes.now) }
{
    let mut next = at;
    for &byte in bytes {
        next = put_hex(out, next, byte as u64, 2);
    }
    next
}

// Puts the part of the text that a token views, or the refusal's number.
pub fn put_view(
    out: &mut [u8],
    at: usize,
    text: &[u8],
    words: &[u32],
    count: usize,
    index: usize,
) -> usize
    ensures { wrote result out.new ≡ append out.old at
        (view_text text.now (viewed (length text.now) words.now count index)) }
{
    let found = sheet::views::view_of(text, words, count, index);
    match found {
        Some(_) => {
            let word = put_bytes(out, at, b"view ");
            let bytes = put_hex_bytes(out, word, sheet::views::view(text, words, count, index));
            put_byte(out, bytes, b'\n')
        }
        None => put_refused_line(out, at, sheet::views::refusal(found) as u64),
    }
}

// Writes a sheet back into a lent buffer, and puts the text or the refusal's number.
pub fn put_written(
    out: &mut [u8],
    at: usize,
    text: &[u8],
    words: &[u32],
    count: usize,
    buffer: &mut [u8],
    scratch: &mut [u32],
) -> usize
    ensures { Decided (Sound (length text.now) words.now count)
        (λ (sound : Bool). report_written out.old at
        (write_of text.now (tokens_in words.now count) (length buffer.old) (length scratch.old) sound))
        (reported (wrote result out.new) buffer.new scratch.new) }
{
    match writer::write(text, words, count, buffer, scratch) {
        Ok(size) => {
            let word = put_bytes(out, at, b"text ");
            let bytes = put_hex_bytes(out, word, front(buffer, size));
            put_byte(out, bytes, b'\n')
        }
        Err(refusal) => put_refused_line(out, at, refusal.number() as u64),
    }
}
