// Runs the calls of `sheet` over a list of cases on standard input, a line to a case, and writes a line for each.
//   check LENGTH COUNT WORD ..           sound, or unsound
//   view LENGTH COUNT INDEX WORD ..      the view's offset, length and part of the text, or refused 12
//   token COUNT INDEX WORD ..            the token's code and link
// The text of a view is the first LENGTH letters of the alphabet. Any other line is a remark, written as it stands.
#![tactic(auto)]

ghost use Rattle.std.specs.Prelude.{◌≡◌, length, min};

use input::read_full;
use sheet::views;
use sheet::views::Viewed;
use std::io;

// The numbers of a line.
mod line;

use crate::line::{Kind, Line};

// How many bytes of the input count.
const MOST_BYTES: usize = 65536;

// Writes a word and a blank.
fn print_number(rt: &impl Print, n: usize) -> io::Result<()> {
    print!(rt; "{n} ")
}

// check LENGTH COUNT WORD ..
fn run_check(rt: &impl Print, line: &Line) -> io::Result<()> {
    let mut room = [0u32; line::MOST];
    let text_length = line.numbers[0] as usize;
    let count = line.numbers[1] as usize;
    if sheet::check(text_length, line.words(2, &mut room), count) {
        println!(rt; "sound")
    } else {
        println!(rt; "unsound")
    }
}

// The first bytes of the alphabet, or all of it.
fn letters(count: usize) -> &'static [u8]
    ensures { length result.now ≡ min count 26 }
{
    let alphabet: &[u8] = b"abcdefghijklmnopqrstuvwxyz";
    alphabet.get(..count).unwrap_or(alphabet)
}

// view LENGTH COUNT INDEX WORD ..
fn run_view(rt: &impl Print, line: &Line) -> io::Result<()> {
    let mut room = [0u32; line::MOST];
    let text = letters(line.numbers[0] as usize);
    let count = line.numbers[1] as usize;
    let index = line.numbers[2] as usize;
    print_view(rt, text, line.words(3, &mut room), count, index)
}

// Writes what the two calls for a view answer.
fn print_view(
    rt: &impl Print,
    text: &[u8],
    words: &[u32],
    count: usize,
    index: usize,
) -> io::Result<()> {
    let answer = views::view_of(text, words, count, index);
    match answer {
        Some(Viewed { offset, length }) => {
            print_number(rt, offset)?;
            print_number(rt, length)?;
        }
        None => {
            print!(rt; "refused ")?;
            print_number(rt, views::refusal(answer) as usize)?;
        }
    }
    print!(rt; "[")?;
    rt.write_all(views::view(text, words, count, index))?;
    println!(rt; "]")
}

// token COUNT INDEX WORD ..
fn run_token(rt: &impl Print, line: &Line) -> io::Result<()> {
    let mut room = [0u32; line::MOST];
    let count = line.numbers[0] as usize;
    let index = line.numbers[1] as usize;
    print_token(rt, line.words(2, &mut room), count, index)
}

// Writes what the two calls for a token answer.
fn print_token(rt: &impl Print, words: &[u32], count: usize, index: usize) -> io::Result<()> {
    print_number(rt, views::code(words, count, index) as usize)?;
    print_number(rt, views::link(words, count, index) as usize)?;
    println!(rt)
}

// Runs a line that is whole.
fn run(rt: &impl Print, line: &Line) -> io::Result<()> {
    match line.kind {
        Some(Kind::Check) => run_check(rt, line),
        Some(Kind::View) => run_view(rt, line),
        Some(Kind::Token) => run_token(rt, line),
        Some(Kind::Remark) | None => println!(rt),
    }
}

// One byte of the input: the end of a line runs it, a byte of a remark is written.
fn step(rt: &impl Print, line: &mut Line, byte: u8) -> io::Result<()> {
    if byte == b'\n' {
        line.put_away();
        run(rt, line)?;
        line.restart();
        return Ok(());
    }
    line.read(byte);
    if !line.is_case() {
        rt.write_all(&[byte])?;
    }
    Ok(())
}

// Runs every line that ends. One that the input cuts off is not run.
fn run_all(rt: &impl Print, input: &[u8]) -> io::Result<()> {
    let mut line = Line::new();
    for &byte in input {
        step(rt, &mut line, byte)?;
    }
    Ok(())
}

// Cases in, a line for each out.
fn main(rt: HostRuntime) -> io::Result<()> {
    let mut input = [0u8; MOST_BYTES];
    let n = read_full(&mut rt.stdin(), &mut input)?;
    run_all(&rt, &input[..n])
}
