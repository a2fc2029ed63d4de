// The dump of a text, which is what the program `dump` prints and what a record of kind `T` is answered with.
ghost use Rattle.std.specs.Prelude.{◌≡◌, [], ◌∷◌, ◌++◌, length};
ghost use Rattle.data.specs.Bytes.{line_feed};
ghost use Rattle.parse.specs.Parse.{parse_of};
ghost use Rattle.report.specs.Words.{input_over};
ghost use Rattle.report.specs.Digits.{decimal};
ghost use Rattle.tape.specs.Words.{words_for};
ghost use Rattle.put.specs.Append.{wrote, append, whole};
ghost use Rattle.report.specs.Dump.{dump_of, left_by, save_of, save_leaves};
ghost use Rattle.report.specs.Room.{most_input, most_tokens, Held};

use crate::limits::{DUMP_BYTES, MOST_INPUT, TAPE_WORDS};
use crate::numbers::put_decimal;
use crate::tokens::{put_header, put_refused, put_tokens};
use put::{put_byte, put_bytes};

// Parses a text onto a lent tape, and puts the header and a line for each token, or the refusal.
pub fn put_dump(out: &mut [u8], at: usize, text: &[u8], tape: &mut [u32]) -> usize
    ensures lines { wrote result out.new ≡ append out.old at (dump_of text.now (length tape.old)) }
    ensures words { tape.new ≡ left_by (parse_of text.now (length tape.old)) }
    ensures held { Held (dump_of text.now (length tape.old)) (length tape.old) }
{
    match parse::parse(text, tape) {
        Ok(parsed) => {
            let next = put_header(out, at, parsed.count, parsed.bom);
            put_tokens(out, next, tape, parsed.count)
        }
        Err(refusal) => {
            let number = refusal.number() as u64;
            let place = refusal.place() as u64;
            put_refused(out, at, number, place)
        }
    }
}

// Puts the line for an input that is too long.
fn put_over(out: &mut [u8], at: usize) -> usize
    ensures { wrote result out.new ≡ append out.old at (input_over ++ decimal most_input ++ (line_feed ∷ [])) }
{
    let over = put_bytes(out, at, b"input over ");
    let most = put_decimal(out, over, MOST_INPUT as u64);
    put_byte(out, most, b'\n')
}

// Puts what the program `dump` prints for its input: the dump, or that there are too many bytes.
pub fn put_save(out: &mut [u8], at: usize, input: &[u8], tape: &mut [u32]) -> usize
    ensures lines { wrote result out.new ≡ append out.old at (save_of input.now (length tape.old)) }
    ensures words { tape.new ≡ save_leaves input.now tape.old }
    ensures held { Held (save_of input.now (length tape.old)) (length tape.old) }
{
    if MOST_INPUT < input.len() {
        return put_over(out, at);
    }
    put_dump(out, at, input, tape)
}

// Puts what the program `dump` prints into the buffer that it lends. That holds all of it, whatever the input.
pub fn save_lines(lines: &mut [u8; DUMP_BYTES], input: &[u8], tape: &mut [u32; TAPE_WORDS]) -> usize
    ensures lines { wrote result lines.new ≡ whole lines.old 0 (save_of input.now (words_for most_tokens)) }
    ensures words { tape.new ≡ save_leaves input.now tape.old }
{
    put_save(lines, 0, input, tape)
}
