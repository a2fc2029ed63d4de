// What is said of sheet files as lines, each put into a lent buffer from a place on: the file that a sheet is written as, and the sheet
// that a file is read as. Records of the kinds `F` and `R` are answered with them.
#![tactic(auto)]

ghost use Rattle.std.specs.Prelude.{Bool, ◌≡◌, length};
ghost use Rattle.tape.specs.Words.{words_for, tokens_in};
ghost use Rattle.sheet.specs.Decided.{Decided};
ghost use Rattle.sheet.specs.Sound.{Sound};
ghost use Rattle.file.specs.declared.layout.Version.TheVariants.{V1};
ghost use Rattle.file.specs.Files.{write_of, ReadsAs};
ghost use Rattle.put.specs.Append.{wrote, append};
ghost use Rattle.report.specs.Room.{most_tokens};
ghost use Rattle.file_lines.specs.Lines.{sheet_line, reported, report_file, report_sheet, report_whole, Held};

use put::{front, put_byte, put_bytes};
use report::limits::{DUMP_BYTES, TAPE_WORDS};
use report::numbers::put_decimal;
use report::refusals::put_refused_line;
use report::sheets::put_hex_bytes;
use report::tokens::{put_field, put_tokens};

// Writes a sheet for a text of a length as a file into a lent buffer, and puts the file or the refusal's number.
pub fn put_filed(
    out: &mut [u8],
    at: usize,
    text_length: usize,
    words: &[u32],
    count: usize,
    buffer: &mut [u8],
) -> usize
    ensures { Decided (Sound text_length words.now count)
        (λ (sound : Bool). report_file out.old at
        (write_of V1 text_length (tokens_in words.now count) (length buffer.old) sound))
        (reported (wrote result out.new) buffer.new) }
{
    match file::write(text_length, words, count, buffer) {
        Ok(size) => {
            let word = put_bytes(out, at, b"file ");
            let bytes = put_hex_bytes(out, word, front(buffer, size));
            put_byte(out, bytes, b'\n')
        }
        Err(refusal) => put_refused_line(out, at, refusal.number() as u64),
    }
}

// Puts the line before the tokens of a sheet: the length of its text, and how many tokens there are.
fn put_sheet_line(out: &mut [u8], at: usize, text_length: u32, count: u32) -> usize
    ensures { wrote result out.new ≡ append out.old at (sheet_line text_length count) }
{
    let word = put_bytes(out, at, b"sheet ");
    let size = put_decimal(out, word, text_length as u64);
    let counted = put_field(out, size, count as u64);
    put_byte(out, counted, b'\n')
}

// Reads any bytes as a sheet file onto lent words, and puts the sheet's line and one for each token, or the refusal's number. A buffer
// that holds the dump of as many tokens as the bytes and the words have room for holds all of it.
pub fn put_found(out: &mut [u8], at: usize, bytes: &[u8], words: &mut [u32]) -> usize
    ensures lines { ReadsAs (report_sheet out.old at) bytes.now (length words.old)
        (reported (wrote result out.new) words.new) }
    ensures held { Held bytes.now (length words.old) }
{
    match file::read(bytes, words) {
        Ok(found) => {
            let next = put_sheet_line(out, at, found.text_length, found.count);
            put_tokens(out, next, words, found.count)
        }
        Err(refusal) => put_refused_line(out, at, refusal.number() as u64),
    }
}

// Puts what the program `sheet_dump` prints into the buffer that it lends. That holds all of it, whatever the bytes.
pub fn found_lines(
    lines: &mut [u8; DUMP_BYTES],
    bytes: &[u8],
    words: &mut [u32; TAPE_WORDS],
) -> usize
    ensures { ReadsAs (report_whole lines.old 0) bytes.now (words_for most_tokens)
        (reported (wrote result lines.new) words.new) }
{
    put_found(lines, 0, bytes, words)
}
