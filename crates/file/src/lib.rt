// Sheet files: a sheet written into a lent buffer, and any bytes read as a sheet onto lent words.
#![tactic(auto)]

ghost use Rattle.std.specs.Prelude.{◌≡◌, false, ◌≤◌, length};
ghost use Rattle.std.proofs.lemmas.List.Edits.{sets};
ghost use Rattle.tape.specs.Words.{tokens_in};
ghost use Rattle.sheet.specs.Decided.{Decided};
ghost use Rattle.sheet.specs.Sound.{Sheet, Sound};
ghost use Rattle.file.specs.declared.layout.Version.TheVariants.{V1};
ghost use Rattle.file.specs.Layout.{head_size, file_size, head_of, file_of};
ghost use Rattle.file.specs.Open.{other_length, tokens_of, open_as, open_file};
ghost use Rattle.file.specs.Refusals.{number};
ghost use Rattle.file.specs.Files.{left, too_large, refuse_write, accept_write, write_of, refuse_read, read_of, Reads};

use crate::layout::{Head, Version};
use packed::numbers::Width;
use packed::tokens::BYTES_PER_TOKEN;
use packed::{numbers, tokens};
use tape::words;

// What a file's bytes are.
pub mod layout;

// Why a sheet is not written or a file not read, by the refusals' numbers.
#[derive(Clone, Copy, PartialEq, Eq)]
pub enum Refusal {
    FileLength = 31,
    UnknownVersion = 32,
    NotSound = 33,
    NoRoom = 34,
    TooLarge = 35,
    OtherCount = 36,
}

// The sheet read: the length of its text and the count of its tokens.
#[derive(Clone, Copy, PartialEq, Eq)]
pub struct Found {
    pub text_length: u32,
    pub count: u32,
}

impl Refusal {
    // The refusal's number.
    pub fn number(self) -> u32
        ensures { result ≡ number self }
    {
        self as u32
    }
}

// ---- writing
// Whether a text's length or a file's is too large for its field. The tokens are counted against what the field leaves, so that no
// product is taken of a count that is too large.
fn is_too_large(v: Version, text_length: usize, count: usize) -> bool
    ensures { result ≡ too_large v text_length count }
{
    if (layout::text_width(v).greatest() as usize) < text_length {
        return true;
    }
    let most = Width::Four.greatest() as usize;
    (most - layout::head_size(v)) / BYTES_PER_TOKEN < count
}

// Refuses, and leaves the buffer zero.
fn refuse_write(out: &mut [u8], r: Refusal) -> Result<usize, Refusal>
    ensures { left result out.new ≡ refuse_write (length out.old) r }
{
    put::clear_from(out, 0);
    Err(r)
}

// Puts the fields before the tokens.
fn put_head(head: Head, out: &mut [u8])
    requires { (too_large head.version head.text_length head.count ≡ false)
        × (head_size head.version ≤ length out.old) }
    ensures { out.new ≡ sets out.old 0 (head_of head.version head.text_length head.count) }
{
    let size = layout::file_size(head.version, head.count) as u32;
    let number = layout::version_number(head.version);
    let width = layout::text_width(head.version);
    let place = layout::count_at(head.version);
    numbers::put_number(out, 0, Width::Four, size);
    numbers::put_number(out, layout::VERSION_AT, Width::One, number);
    numbers::put_number(out, layout::TEXT_AT, width, head.text_length);
    numbers::put_number(out, place, Width::Four, head.count);
}

// Puts a file, and zeros behind it.
fn put_file(head: Head, words: &[u32], out: &mut [u8]) -> Result<usize, Refusal>
    requires { (length (tokens_in words.now head.count) ≡ head.count)
        × (too_large head.version head.text_length head.count ≡ false)
        × (file_size head.version head.count ≤ length out.old) }
    ensures { left result out.new ≡ accept_write (length out.old)
        (file_of head.version head.text_length (tokens_in words.now head.count)) }
{
    let size = layout::file_size(head.version, head.count);
    let from = layout::head_size(head.version);
    put_head(head, out);
    tokens::pack(words, head.count as usize, out, from);
    put::clear_from(out, size);
    Ok(size)
}

// Writes a sheet for a text of a length as a file of a version.
fn write_as(
    v: Version,
    text_length: usize,
    words: &[u32],
    count: usize,
    out: &mut [u8],
) -> Result<usize, Refusal>
    ensures { Decided (Sound text_length words.now count)
        (write_of v text_length (tokens_in words.now count) (length out.old)) (left result out.new) }
{
    if !sheet::check(text_length, words, count) {
        return refuse_write(out, Refusal::NotSound);
    }
    if is_too_large(v, text_length, count) {
        return refuse_write(out, Refusal::TooLarge);
    }
    let tokens = count as u32;
    if out.len() < layout::file_size(v, tokens) {
        return refuse_write(out, Refusal::NoRoom);
    }
    let head = Head {
        version: v,
        text_length: text_length as u32,
        count: tokens,
    };
    put_file(head, words, out)
}

// Writes the first count tokens of the words, a sheet for a text of a length, as a file into a lent buffer. After success the buffer
// holds the file and zeros behind it, after a refusal it is all zero.
pub fn write(
    text_length: usize,
    words: &[u32],
    count: usize,
    out: &mut [u8],
) -> Result<usize, Refusal>
    ensures { Decided (Sound text_length words.now count)
        (write_of V1 text_length (tokens_in words.now count) (length out.old)) (left result out.new) }
{
    write_as(Version::V1, text_length, words, count, out)
}

// ---- reading
// Whether a file is too short, or its first word not its length.
fn has_other_length(bytes: &[u8]) -> bool
    ensures { result ≡ other_length bytes.now }
{
    if bytes.len() < layout::LEAST_SIZE {
        return true;
    }
    (numbers::number_at(bytes, 0, Width::Four) as usize) != bytes.len()
}

// What a file of a version says before its tokens.
#[tactic(auto, unfolding(crate::specs::Open::open_as))]
fn open_as(v: Version, bytes: &[u8]) -> Result<Head, Refusal>
    ensures { result ≡ open_as v bytes.now }
{
    let count = numbers::number_at(bytes, layout::count_at(v), Width::Four);
    if bytes.len() != layout::file_size(v, count) {
        return Err(Refusal::OtherCount);
    }
    Ok(Head {
        version: v,
        text_length: numbers::number_at(bytes, layout::TEXT_AT, layout::text_width(v)),
        count,
    })
}

// What a file says before its tokens.
#[tactic(auto, unfolding(crate::specs::Open::open_file, crate::specs::Open::version_named))]
fn open(bytes: &[u8]) -> Result<Head, Refusal>
    ensures { result ≡ open_file bytes.now }
{
    if has_other_length(bytes) {
        return Err(Refusal::FileLength);
    }
    let number = numbers::number_at(bytes, layout::VERSION_AT, Width::One);
    let v = layout::version_named(number).ok_or(Refusal::UnknownVersion)?;
    open_as(v, bytes)
}

// Refuses, and leaves the words zero.
fn refuse_read(words: &mut [u32], r: Refusal) -> Result<Found, Refusal>
    ensures { left result words.new ≡ refuse_read (length words.old) r }
{
    words::clear_from(words, 0);
    Err(r)
}

// Reads the tokens of a file whose length is known to agree with its count. They are checked where they stand, since a sheet that finds
// no room is refused for that only if it is sound, and where they are not laid down the words are left zero.
fn read_tokens(head: Head, bytes: &[u8], words: &mut [u32]) -> Result<Found, Refusal>
    requires { length bytes.now ≡ file_size head.version head.count }
    ensures { Decided (Sheet head.text_length (tokens_of head.version bytes.now))
        (read_of head.text_length (tokens_of head.version bytes.now) (length words.old)) (left result words.new) }
{
    let from = layout::head_size(head.version);
    let body = &bytes[from..];
    let count = head.count as usize;
    let room = words::holds(words, count);
    if !sheet::check_onto(head.text_length as usize, body, count, words) {
        return Err(Refusal::NotSound);
    }
    if !room {
        return Err(Refusal::NoRoom);
    }
    Ok(Found {
        text_length: head.text_length,
        count: head.count,
    })
}

// Reads any bytes as a sheet file onto lent words. After success the words hold the sheet's tokens and zeros behind them, after a
// refusal they are all zero. What is read is sound.
#[tactic(auto, using(crate::proofs::Fields::opened_sized))]
pub fn read(bytes: &[u8], words: &mut [u32]) -> Result<Found, Refusal>
    ensures { Reads bytes.now (length words.old) (left result words.new) }
{
    match open(bytes) {
        Ok(head) => read_tokens(head, bytes, words),
        Err(r) => refuse_read(words, r),
    }
}
