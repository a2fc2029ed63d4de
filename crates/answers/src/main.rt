// Answers records, to be compared with the Rust's answers to the same records. A record is a kind, a capacity of two bytes, a length of two
// bytes and a body of that length; numbers have their larger bytes first. Input is read and answers are written in large blocks. A read or a
// write that fails ends all with its error.
#![tactic(auto)]

ghost use Rattle.std.specs.Prelude.{◌≡◌, ◌+◌, ◌≤◌, ◌<◌, ◌⊎◌, length, IfOk, IfSome};
ghost use Rattle.tape.specs.Words.{words_for};
ghost use Rattle.report.specs.Room.{most_input, most_tokens};
ghost use Rattle.answers.specs.Whole.{word_in, view_head, write_head, most_answer, stop_bytes, block_bytes, Whole};

use input::read_full;
use packed::numbers::{Width, number_at};
use put::front;
use report::limits::{DUMP_BYTES, MOST_INPUT, MOST_TOKENS, TAPE_WORDS};
use std::io;
use std::io::Read;
use tape::words::WORDS_PER_TOKEN;

// The bytes of a record before its body: its kind, its capacity and its length.
const HEAD: usize = 5;

// The bytes of a word in a body.
const WORD: usize = 4;

// The bytes of a number that is shorter than a word.
const PAIR: usize = 2;

// The bytes of a body before its words, where a check or a file is asked for.
const CHECK_HEAD: usize = 2 * WORD;

// The bytes of a body before its words, where a view is asked for and where a sheet is to be written back. The last two of them say how
// many words there are.
const VIEW_HEAD: usize = 2 * WORD + PAIR;

const WRITE_HEAD: usize = PAIR + WORD + PAIR;

// The most bytes that are lent to write a sheet back or as a file, and the most words to write one back or to read one: no record needs
// more, and one that asks for more gets so much.
const MOST_BUFFER: usize = MOST_INPUT;

const MOST_SCRATCH: usize = 16384;

// How many bytes are read at a time.
const BLOCK: usize = 4 * MOST_INPUT;

// Bytes for the answers that are not yet written: while no more than half of them are taken, any answer finds room.
const ANSWER_BYTES: usize = 2 * DUMP_BYTES;

// A record that is all there. Its answer is the place after the lines that are put, and none where the record is bad.
#[derive(Clone, Copy)]
struct Record<'a> {
    kind: u8,
    capacity: usize,
    body: &'a [u8],
}

// A number of two bytes.
fn pair(high: u8, low: u8) -> usize
    ensures { result < 65536 }
{
    usize::from(u16::from_be_bytes([high, low]))
}

// The number of four bytes at a place.
fn word_at(bytes: &[u8], at: usize) -> u32
    ensures { result ≡ word_in bytes.now at }
{
    number_at(bytes, at, Width::Four)
}

// Puts the numbers that bytes spell into words, as far as there is room, and answers how many there are.
fn take_words(bytes: &[u8], words: &mut [u32]) -> usize
    ensures { result ≤ length words.new }
{
    let (spelt, _) = bytes.as_chunks::<WORD>();
    for (slot, &word) in words.iter_mut().zip(spelt) {
        *slot = u32::from_be_bytes(word);
    }
    words.len().min(spelt.len())
}

// Where the words of a body end whose head says by its last two bytes how many there are, if they are all there.
fn words_end(body: &[u8], head: usize) -> Option<usize>
    requires { (head ≡ view_head) ⊎ (head ≡ write_head) }
    ensures { IfSome result (λ end. (head ≤ end) × (end ≤ length body.now)) }
{
    let (front, _) = body.split_at_checked(head)?;
    let (_, [high, low]) = front.split_last_chunk::<PAIR>()?;
    let end = head + pair(*high, *low) * WORD;
    if body.len() < end { None } else { Some(end) }
}

// A sheet that stands in a body: the length of its text, how many tokens it counts, and how many words it has.
#[derive(Clone, Copy)]
struct Sheet {
    text_length: usize,
    count: usize,
    words: usize,
}

// The sheet that is all of a body: the text's length, the count, and the words to the body's end, which are put into words.
fn take_sheet(body: &[u8], words: &mut [u32]) -> Option<Sheet>
    ensures { IfSome result (λ sheet. sheet.words ≤ length words.new) }
{
    let spelt = body.get(CHECK_HEAD..)?;
    if spelt.len() % WORD != 0 {
        return None;
    }
    Some(Sheet {
        text_length: word_at(body, 0) as usize,
        count: word_at(body, WORD) as usize,
        words: take_words(spelt, words),
    })
}

// Kind `T`: the dump of a text, with room for so many tokens, or for a dump's most where the record asks for more.
fn tokens_answer(out: &mut [u8], at: usize, asked: Record, words: &mut [u32]) -> Option<usize>
    requires { (at + most_answer ≤ length out.old) × (words_for most_tokens ≤ length words.old) }
    ensures { Whole asked.entry.capacity asked.entry.body.now out.old at result out.new }
{
    let room = asked.capacity.min(MOST_TOKENS) * WORDS_PER_TOKEN;
    Some(report::dump::put_dump(out, at, asked.body, &mut words[..room]))
}

// Kind `S`: the readings of a scalar.
fn readings_answer(out: &mut [u8], at: usize, asked: Record) -> Option<usize>
    requires { at + most_answer ≤ length out.old }
    ensures { Whole asked.entry.capacity asked.entry.body.now out.old at result out.new }
{
    Some(report::readings::put_readings(out, at, asked.body))
}

// Kind `N`: the number that a scalar begins with, and how many bytes are left over after it.
fn leading_answer(out: &mut [u8], at: usize, asked: Record) -> Option<usize>
    requires { (at + most_answer ≤ length out.old) × (length asked.body.now ≤ most_input) }
    ensures { Whole asked.entry.capacity asked.entry.body.now out.old at result out.new }
{
    Some(report::readings::put_leading(out, at, asked.body))
}

// Kind `D`: the date that a scalar says, with its day count.
fn date_answer(out: &mut [u8], at: usize, asked: Record) -> Option<usize>
    requires { at + most_answer ≤ length out.old }
    ensures { Whole asked.entry.capacity asked.entry.body.now out.old at result out.new }
{
    Some(report::dates::put_date(out, at, asked.body))
}

// Kind `Y`: the date of a day count, which is all of the body.
fn day_answer(out: &mut [u8], at: usize, asked: Record) -> Option<usize>
    requires { at + most_answer ≤ length out.old }
    ensures { Whole asked.entry.capacity asked.entry.body.now out.old at result out.new }
{
    if asked.body.len() != WORD {
        return None;
    }
    Some(report::dates::put_date_of(out, at, word_at(asked.body, 0)))
}

// Kind `C`: whether a sheet is sound, which is all of the body.
fn check_answer(out: &mut [u8], at: usize, asked: Record, words: &mut [u32]) -> Option<usize>
    requires { at + most_answer ≤ length out.old }
    ensures { Whole asked.entry.capacity asked.entry.body.now out.old at result out.new }
{
    let sheet = take_sheet(asked.body, words)?;
    Some(report::sheets::put_check(
        out,
        at,
        sheet.text_length,
        &words[..sheet.words],
        sheet.count,
    ))
}

// Kind `V`: a token's view. The index, the count, how many words, the words, and the text to the body's end.
fn view_answer(out: &mut [u8], at: usize, asked: Record, words: &mut [u32]) -> Option<usize>
    requires { (at + most_answer ≤ length out.old) × (length asked.body.now ≤ most_input) }
    ensures { Whole asked.entry.capacity asked.entry.body.now out.old at result out.new }
{
    let body = asked.body;
    let text = words_end(body, VIEW_HEAD)?;
    let index = word_at(body, 0) as usize;
    let count = word_at(body, WORD) as usize;
    let n = take_words(&body[VIEW_HEAD..text], words);
    Some(report::sheets::put_view(out, at, &body[text..], &words[..n], count, index))
}

// Kind `W`: the text of a sheet, with room for so many bytes. The scratch's words, the count, how many words, the words, and the text to
// the body's end.
fn write_answer(out: &mut [u8], at: usize, asked: Record, words: &mut [u32]) -> Option<usize>
    requires { at + most_answer ≤ length out.old }
    ensures { Whole asked.entry.capacity asked.entry.body.now out.old at result out.new }
{
    let body = asked.body;
    let text = words_end(body, WRITE_HEAD)?;
    let lent = pair(body[0], body[1]).min(MOST_SCRATCH);
    let count = word_at(body, PAIR) as usize;
    let n = take_words(&body[WRITE_HEAD..text], words);
    let room = asked.capacity.min(MOST_BUFFER);
    let mut buffer = [0u8; MOST_BUFFER];
    let mut scratch = [0u32; MOST_SCRATCH];
    Some(report::sheets::put_written(
        out,
        at,
        &body[text..],
        &words[..n],
        count,
        &mut buffer[..room],
        &mut scratch[..lent],
    ))
}

// Kind `F`: the file of a sheet, which is all of the body, with room for so many bytes.
fn file_answer(out: &mut [u8], at: usize, asked: Record, words: &mut [u32]) -> Option<usize>
    requires { at + most_answer ≤ length out.old }
    ensures { Whole asked.entry.capacity asked.entry.body.now out.old at result out.new }
{
    let sheet = take_sheet(asked.body, words)?;
    let room = asked.capacity.min(MOST_BUFFER);
    let mut buffer = [0u8; MOST_BUFFER];
    Some(file_lines::put_filed(
        out,
        at,
        sheet.text_length,
        &words[..sheet.words],
        sheet.count,
        &mut buffer[..room],
    ))
}

// Kind `R`: the sheet that the body is a file of, with room for so many words.
fn sheet_answer(out: &mut [u8], at: usize, asked: Record) -> Option<usize>
    requires { (at + most_answer ≤ length out.old) × (length asked.body.now ≤ most_input) }
    ensures { Whole asked.entry.capacity asked.entry.body.now out.old at result out.new }
{
    let room = asked.capacity.min(MOST_SCRATCH);
    let mut lent = [0u32; MOST_SCRATCH];
    Some(file_lines::put_found(out, at, asked.body, &mut lent[..room]))
}

// Answers a record by its kind: it is bad, or all of its answer is put.
fn answer_record(out: &mut [u8], at: usize, asked: Record, words: &mut [u32]) -> Option<usize>
    requires { (at + most_answer ≤ length out.old) × (words_for most_tokens ≤ length words.old) × (length asked.body.now ≤ most_input) }
    ensures { Whole asked.entry.capacity asked.entry.body.now out.old at result out.new }
{
    match asked.kind {
        b'T' => tokens_answer(out, at, asked, words),
        b'S' => readings_answer(out, at, asked),
        b'N' => leading_answer(out, at, asked),
        b'D' => date_answer(out, at, asked),
        b'Y' => day_answer(out, at, asked),
        b'C' => check_answer(out, at, asked, words),
        b'V' => view_answer(out, at, asked, words),
        b'W' => write_answer(out, at, asked, words),
        b'F' => file_answer(out, at, asked, words),
        b'R' => sheet_answer(out, at, asked),
        _ => None,
    }
}

// Puts the line for a bad record, and writes all lines.
fn stop(rt: &impl Print, out: &mut [u8], at: usize) -> io::Result<()>
    requires { at + stop_bytes ≤ length out.old }
{
    let n = put::put_bytes(out, at, b"bad record\n");
    rt.write_all(front(out, n))
}

// The place for the next answer. Where more than half of the buffer is taken, what stands there is written first: an error is that write's,
// and nothing else changes.
fn place_for_next(rt: &impl Print, out: &[u8], to: usize) -> io::Result<usize>
    requires { block_bytes ≤ length out.now }
    ensures { IfOk result (λ place. place + most_answer + stop_bytes ≤ length out.now) }
{
    if out.len() / 2 < to {
        rt.write_all(front(out, to))?;
        return Ok(0);
    }
    Ok(to)
}

// Answers the records that are all there, and says how many bytes are left of one that is not, or none where a bad one was met.
fn answer_block(
    rt: &impl Print,
    input: &[u8],
    words: &mut [u32],
    out: &mut [u8],
) -> io::Result<Option<usize>>
    requires { (block_bytes ≤ length out.old) × (words_for most_tokens ≤ length words.old) }
    ensures { IfOk result (λ answered. IfSome answered (λ left. left ≤ length input.now)) }
{
    let mut to = 0;
    let mut left = input;
    while let Some((&[kind, more, less, long, short], behind)) = left.split_first_chunk::<HEAD>() {
        let size = pair(long, short);
        if MOST_INPUT < size {
            stop(rt, out, to)?;
            return Ok(None);
        }
        let Some((body, next)) = behind.split_at_checked(size) else {
            break;
        };
        let capacity = pair(more, less);
        let record = Record {
            kind,
            capacity,
            body,
        };
        let place = place_for_next(rt, out, to)?;
        let Some(end) = answer_record(out, place, record, words) else {
            stop(rt, out, place)?;
            return Ok(None);
        };
        to = end;
        left = next;
    }
    rt.write_all(front(out, to))?;
    Ok(Some(left.len()))
}

// Block by block, until the input ends or a record is bad. A record that a block cuts waits at the front for the rest of it. The turns are
// counted so that the loop is seen to end, and no input is that long.
fn run(
    rt: &impl Print,
    from: &mut impl Read,
    input: &mut [u8],
    words: &mut [u32],
    out: &mut [u8],
) -> io::Result<()>
    requires { (block_bytes ≤ length out.old) × (words_for most_tokens ≤ length words.old) }
{
    let mut kept = 0;
    for _ in 0..u64::MAX {
        let n = kept + read_full(from, &mut input[kept..])?;
        let Some(left) = answer_block(rt, &input[..n], words, out)? else {
            return Ok(());
        };
        if n < input.len() {
            if 0 < left {
                stop(rt, out, 0)?;
            }
            return Ok(());
        }
        input.copy_within(n - left..n, 0);
        kept = left;
    }
    Ok(())
}

// All of the input, with what the program lends: the buffer has room for any answer when one is put.
fn answer_input(
    rt: &impl Print,
    from: &mut impl Read,
    input: &mut [u8; BLOCK],
    words: &mut [u32; TAPE_WORDS],
    out: &mut [u8; ANSWER_BYTES],
) -> io::Result<()> {
    run(rt, from, input, words, out)
}

// Records in, answers out, with arrays of the limits' lengths.
fn main(rt: HostRuntime) -> io::Result<()> {
    let mut input = [0u8; BLOCK];
    let mut words = [0u32; TAPE_WORDS];
    let mut out = [0u8; ANSWER_BYTES];
    answer_input(&rt, &mut rt.stdin(), &mut input, &mut words, &mut out)
}
