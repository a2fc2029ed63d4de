// The calls for C: parse, check, views, tokens, the way back, sheet files, readings and dates under plain names, on slices (a pointer and a
// length), pointers to single numbers, and numbers. Each answers a refusal's number, 0 for none, and writes through
// every pointer that it is given, whatever it answers. Crate `capi_c` exports them under these names.
#![tactic(auto)]

ghost use Rattle.std.specs.Prelude.{◌≡◌, Bool, true, ◌↔◌, length};
ghost use Rattle.parse.specs.Parse.{parse_of};
ghost use Rattle.parse.specs.Told.{bit, parse_told, tell_parse};
ghost use Rattle.scalar.specs.Truth.{bool_read};
ghost use Rattle.scalar.specs.Whole.{u64_read, i64_read, i64_number, i64_rest};
ghost use Rattle.scalar.specs.Float.{f64_read};
ghost use Rattle.scalar.specs.Kind.{kind_of};
ghost use Rattle.scalar.specs.Numbers.{kind_number_of};
ghost use Rattle.date.specs.Calendar.{date, days_of, date_at};
ghost use Rattle.date.specs.Reading.{date_read};
ghost use Rattle.sheet.specs.Sound.{Sound};
ghost use Rattle.sheet.specs.Views.{viewed};
ghost use Rattle.sheet.specs.Decided.{Decided};
ghost use Rattle.tape.specs.Words.{token_in, tokens_in};
ghost use Rattle.writer.specs.Write.{write_of};
ghost use Rattle.file.specs.Files as file;
ghost use Rattle.file.specs.Files.{ReadsAs};
ghost use Rattle.file.specs.declared.layout.Version.TheVariants.{V1};
ghost use Rattle.capi.specs.Told.{view_told, tell_view, token_told, tell_token, write_told, tell_write};
ghost use Rattle.capi.specs.Told.{file_told, tell_file, sheet_told, tell_sheet};
ghost use Rattle.capi.specs.Told.{read_told, tell_bool, tell_u64, tell_i64, tell_f64, tell_date, tell_days, part_told, tell_part};

use date::Date;
use sheet::views;
use sheet::views::Viewed;
use tape::words;

// 1 for yes and 0 for no.
fn bit_of(yes: bool) -> u32
    ensures { result ≡ bit yes }
{
    if yes { 1 } else { 0 }
}

// A number of a byte's width at a word's.
fn wide(n: u8) -> u32
    ensures { result ≡ n }
{
    n as u32
}

// Parses a text onto a lent tape.
pub fn tackacorn_parse(
    text: &[u8],
    tape: &mut [u32],
    count: &mut u32,
    bom: &mut u32,
    place: &mut usize,
) -> u32
    ensures { parse_told result count.new bom.new place.new tape.new
        ≡ tell_parse (parse_of text.now (length tape.old)) }
{
    match parse::parse(text, tape) {
        Ok(parsed) => {
            *count = parsed.count;
            *bom = bit_of(parsed.bom);
            *place = 0;
            0
        }
        Err(refusal) => {
            *count = 0;
            *bom = 0;
            *place = refusal.place();
            refusal.number()
        }
    }
}

// Whether the first count tokens of the words are a sound sheet for a text of a length.
pub fn tackacorn_check(text_length: usize, words: &[u32], count: usize) -> bool
    ensures { (result ≡ true) ↔ Sound text_length words.now count }
{
    sheet::check(text_length, words, count)
}

// Where in the text the view of token `index` lies.
pub fn tackacorn_view(
    text: &[u8],
    words: &[u32],
    count: usize,
    index: usize,
    offset: &mut usize,
    size: &mut usize,
) -> u32
    ensures { view_told result offset.new size.new
        ≡ tell_view (viewed (length text.now) words.now count index) }
{
    let found = views::view_of(text, words, count, index);
    let view = found.unwrap_or(Viewed {
        offset: 0,
        length: 0,
    });
    *offset = view.offset;
    *size = view.length;
    views::refusal(found)
}

// The words of token `index`.
pub fn tackacorn_token(
    words: &[u32],
    count: usize,
    index: usize,
    code: &mut u32,
    a: &mut u32,
    b: &mut u32,
)
    ensures { token_told code.new a.new b.new ≡ tell_token (token_in words.now count index) }
{
    let token = words::token_of(words, count, index);
    *code = token.code;
    *a = token.a;
    *b = token.b;
}

// Writes a sheet back as save text into a lent buffer.
pub fn tackacorn_write(
    text: &[u8],
    words: &[u32],
    count: usize,
    out: &mut [u8],
    scratch: &mut [u32],
    written: &mut usize,
) -> u32
    ensures { Decided (Sound (length text.now) words.now count)
        (λ (sound : Bool). tell_write (write_of text.now (tokens_in words.now count)
        (length out.old) (length scratch.old) sound))
        (write_told result written.new out.new scratch.new) }
{
    match writer::write(text, words, count, out, scratch) {
        Ok(size) => {
            *written = size;
            0
        }
        Err(refusal) => {
            *written = 0;
            refusal.number()
        }
    }
}

// Writes a sheet as a sheet file into a lent buffer.
pub fn tackacorn_sheet_write(
    text_length: usize,
    words: &[u32],
    count: usize,
    out: &mut [u8],
    written: &mut usize,
) -> u32
    ensures { Decided (Sound text_length words.now count)
        (λ (sound : Bool). tell_file (file.write_of V1 text_length (tokens_in words.now count) (length out.old) sound))
        (file_told result written.new out.new) }
{
    match file::write(text_length, words, count, out) {
        Ok(size) => {
            *written = size;
            0
        }
        Err(refusal) => {
            *written = 0;
            refusal.number()
        }
    }
}

// Reads any bytes as a sheet file onto lent words.
pub fn tackacorn_sheet_read(
    bytes: &[u8],
    words: &mut [u32],
    text_length: &mut usize,
    count: &mut u32,
) -> u32
    ensures { ReadsAs tell_sheet bytes.now (length words.old)
        (sheet_told result text_length.new count.new words.new) }
{
    match file::read(bytes, words) {
        Ok(found) => {
            *text_length = found.text_length as usize;
            *count = found.count;
            0
        }
        Err(refusal) => {
            *text_length = 0;
            *count = 0;
            refusal.number()
        }
    }
}

// Reads yes or no.
pub fn tackacorn_to_bool(scalar: &[u8], value: &mut u32) -> u32
    ensures { read_told result value.new ≡ tell_bool (bool_read scalar.now) }
{
    let read = scalar::to_bool(scalar);
    *value = bit_of(read.unwrap_or(false));
    wide(scalar::refusal(read))
}

// Reads a number without a minus.
pub fn tackacorn_to_u64(scalar: &[u8], value: &mut u64) -> u32
    ensures { read_told result value.new ≡ tell_u64 (u64_read scalar.now) }
{
    let read = scalar::to_u64(scalar);
    *value = read.unwrap_or(0);
    wide(scalar::refusal(read))
}

// Reads a number with a sign.
pub fn tackacorn_to_i64(scalar: &[u8], value: &mut i64) -> u32
    ensures { read_told result value.new ≡ tell_i64 (i64_read scalar.now) }
{
    let read = scalar::to_i64(scalar);
    *value = read.unwrap_or(0);
    wide(scalar::refusal(read))
}

// Reads the number with a sign that a scalar begins with, and says how many bytes are left over after it.
pub fn tackacorn_to_i64_part(scalar: &[u8], value: &mut i64, left: &mut usize) -> u32
    ensures { part_told result value.new left.new
        ≡ tell_part (i64_number scalar.now) (i64_rest scalar.now) }
{
    // The rest comes first: a number that has to be kept beside it cost 4 in a hundred.
    *left = scalar::to_i64_rest(scalar).len();
    let read = scalar::to_i64_t(scalar);
    *value = read.unwrap_or(0);
    wide(scalar::refusal(read))
}

// Reads a decimal.
pub fn tackacorn_to_f64(scalar: &[u8], value: &mut f64) -> u32
    ensures { read_told result value.new ≡ tell_f64 (f64_read scalar.now) }
{
    let read = scalar::to_f64(scalar);
    *value = scalar::f64_value(read);
    wide(scalar::refusal(read))
}

// The kind of an unquoted scalar.
pub fn tackacorn_kind(scalar: &[u8]) -> u32
    ensures { result ≡ kind_number_of (kind_of scalar.now) }
{
    wide(scalar::kind_number(scalar::kind(scalar)))
}

// Reads a date.
pub fn tackacorn_to_date(
    scalar: &[u8],
    year: &mut u32,
    month: &mut u32,
    day: &mut u32,
    hour: &mut u32,
) -> u32
    ensures { read_told result (date year.new month.new day.new hour.new)
        ≡ tell_date (date_read scalar.now) }
{
    let read = date::to_date(scalar);
    let date = read.unwrap_or(date::NO_DATE);
    *year = date.year;
    *month = date.month;
    *day = date.day;
    *hour = date.hour;
    wide(scalar::refusal(read))
}

// The day count of a date.
pub fn tackacorn_to_days(year: u32, month: u32, day: u32, days: &mut u32) -> u32
    ensures { read_told result days.new ≡ tell_days (days_of (date year month day 0)) }
{
    let read = date::to_days(Date {
        year,
        month,
        day,
        hour: 0,
    });
    *days = read.unwrap_or(0);
    wide(scalar::refusal(read))
}

// The date of a day count.
pub fn tackacorn_from_days(days: u32, year: &mut u32, month: &mut u32, day: &mut u32) -> u32
    ensures { read_told result (date year.new month.new day.new 0) ≡ tell_date (date_at days) }
{
    let read = date::from_days(days);
    let date = read.unwrap_or(date::NO_DATE);
    *year = date.year;
    *month = date.month;
    *day = date.day;
    wide(scalar::refusal(read))
}
