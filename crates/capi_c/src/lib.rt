// The calls for C, each that of crate `capi` under its name and with its clauses. A crate is a library or a static library, so what is
// proved of the calls stands there, and this is what is linked.
#![tactic(auto)]

ghost use Rattle.std.specs.Prelude.{◌≡◌, Bool, true, ◌↔◌, length};
ghost use Rattle.parse.specs.Parse.{parse_of};
ghost use Rattle.parse.specs.Told.{parse_told, tell_parse};
ghost use Rattle.scalar.specs.Truth.{bool_read};
ghost use Rattle.scalar.specs.Whole.{u64_read, i64_read, i64_number, i64_rest};
ghost use Rattle.scalar.specs.Float.{f64_read};
ghost use Rattle.scalar.specs.Kind.{kind_of};
ghost use Rattle.scalar.specs.Numbers.{kind_number_of};
ghost use Rattle.date.specs.Calendar.{date, days_of, date_at};
ghost use Rattle.date.specs.Reading.{date_read};
ghost use Rattle.sheet.specs.Sound.{Sound};
ghost use Rattle.sheet.specs.Views.{viewed};
ghost use Rattle.sheet.specs.Decided.{Decided};
ghost use Rattle.tape.specs.Words.{token_in, tokens_in};
ghost use Rattle.writer.specs.Write.{write_of};
ghost use Rattle.file.specs.Files as file;
ghost use Rattle.file.specs.Files.{ReadsAs};
ghost use Rattle.file.specs.declared.layout.Version.TheVariants.{V1};
ghost use Rattle.capi.specs.Told.{view_told, tell_view, token_told, tell_token, write_told, tell_write};
ghost use Rattle.capi.specs.Told.{file_told, tell_file, sheet_told, tell_sheet};
ghost use Rattle.capi.specs.Told.{read_told, tell_bool, tell_u64, tell_i64, tell_f64, tell_date, tell_days, part_told, tell_part};

// Parses a text onto a lent tape.
#[unsafe(no_mangle)]
pub extern "C" fn tackacorn_parse(
    text: &[u8],
    tape: &mut [u32],
    count: &mut u32,
    bom: &mut u32,
    place: &mut usize,
) -> u32
    ensures { parse_told result count.new bom.new place.new tape.new
        ≡ tell_parse (parse_of text.now (length tape.old)) }
{
    capi::tackacorn_parse(text, tape, count, bom, place)
}

// Whether the first count tokens of the words are a sound sheet for a text of a length.
#[unsafe(no_mangle)]
pub extern "C" fn tackacorn_check(text_length: usize, words: &[u32], count: usize) -> bool
    ensures { (result ≡ true) ↔ Sound text_length words.now count }
{
    capi::tackacorn_check(text_length, words, count)
}

// Where in the text the view of token `index` lies.
#[unsafe(no_mangle)]
pub extern "C" fn tackacorn_view(
    text: &[u8],
    words: &[u32],
    count: usize,
    index: usize,
    offset: &mut usize,
    size: &mut usize,
) -> u32
    ensures { view_told result offset.new size.new
        ≡ tell_view (viewed (length text.now) words.now count index) }
{
    capi::tackacorn_view(text, words, count, index, offset, size)
}

// The words of token `index`.
#[unsafe(no_mangle)]
pub extern "C" fn tackacorn_token(
    words: &[u32],
    count: usize,
    index: usize,
    code: &mut u32,
    a: &mut u32,
    b: &mut u32,
)
    ensures { token_told code.new a.new b.new ≡ tell_token (token_in words.now count index) }
{
    capi::tackacorn_token(words, count, index, code, a, b);
}

// Writes a sheet back as save text into a lent buffer.
#[unsafe(no_mangle)]
pub extern "C" fn tackacorn_write(
    text: &[u8],
    words: &[u32],
    count: usize,
    out: &mut [u8],
    scratch: &mut [u32],
    written: &mut usize,
) -> u32
    ensures { Decided (Sound (length text.now) words.now count)
        (λ (sound : Bool). tell_write (write_of text.now (tokens_in words.now count)
        (length out.old) (length scratch.old) sound))
        (write_told result written.new out.new scratch.new) }
{
    capi::tackacorn_write(text, words, count, out, scratch, written)
}

// Writes a sheet as a sheet file into a lent buffer.
#[unsafe(no_mangle)]
pub extern "C" fn tackacorn_sheet_write(
    text_length: usize,
    words: &[u32],
    count: usize,
    out: &mut [u8],
    written: &mut usize,
) -> u32
    ensures { Decided (Sound text_length words.now count)
        (λ (sound : Bool). tell_file (file.write_of V1 text_length (tokens_in words.now count) (length out.old) sound))
        (file_told result written.new out.new) }
{
    capi::tackacorn_sheet_write(text_length, words, count, out, written)
}

// Reads any bytes as a sheet file onto lent words.
#[unsafe(no_mangle)]
pub extern "C" fn tackacorn_sheet_read(
    bytes: &[u8],
    words: &mut [u32],
    text_length: &mut usize,
    count: &mut u32,
) -> u32
    ensures { ReadsAs tell_sheet bytes.now (length words.old)
        (sheet_told result text_length.new count.new words.new) }
{
    capi::tackacorn_sheet_read(bytes, words, text_length, count)
}

// Reads yes or no.
#[unsafe(no_mangle)]
pub extern "C" fn tackacorn_to_bool(scalar: &[u8], value: &mut u32) -> u32
    ensures { read_told result value.new ≡ tell_bool (bool_read scalar.now) }
{
    capi::tackacorn_to_bool(scalar, value)
}

// Reads a number without a minus.
#[unsafe(no_mangle)]
pub extern "C" fn tackacorn_to_u64(scalar: &[u8], value: &mut u64) -> u32
    ensures { read_told result value.new ≡ tell_u64 (u64_read scalar.now) }
{
    capi::tackacorn_to_u64(scalar, value)
}

// Reads a number with a sign.
#[unsafe(no_mangle)]
pub extern "C" fn tackacorn_to_i64(scalar: &[u8], value: &mut i64) -> u32
    ensures { read_told result value.new ≡ tell_i64 (i64_read scalar.now) }
{
    capi::tackacorn_to_i64(scalar, value)
}

// Reads the number with a sign that a scalar begins with, and says how many bytes are left over after it.
#[unsafe(no_mangle)]
pub extern "C" fn tackacorn_to_i64_part(scalar: &[u8], value: &mut i64, left: &mut usize) -> u32
    ensures { part_told result value.new left.new
        ≡ tell_part (i64_number scalar.now) (i64_rest scalar.now) }
{
    capi::tackacorn_to_i64_part(scalar, value, left)
}

// Reads a decimal.
#[unsafe(no_mangle)]
pub extern "C" fn tackacorn_to_f64(scalar: &[u8], value: &mut f64) -> u32
    ensures { read_told result value.new ≡ tell_f64 (f64_read scalar.now) }
{
    capi::tackacorn_to_f64(scalar, value)
}

// The kind of an unquoted scalar.
#[unsafe(no_mangle)]
pub extern "C" fn tackacorn_kind(scalar: &[u8]) -> u32
    ensures { result ≡ kind_number_of (kind_of scalar.now) }
{
    capi::tackacorn_kind(scalar)
}

// Reads a date.
#[unsafe(no_mangle)]
pub extern "C" fn tackacorn_to_date(
    scalar: &[u8],
    year: &mut u32,
    month: &mut u32,
    day: &mut u32,
    hour: &mut u32,
) -> u32
    ensures { read_told result (date year.new month.new day.new hour.new)
        ≡ tell_date (date_read scalar.now) }
{
    capi::tackacorn_to_date(scalar, year, month, day, hour)
}

// The day count of a date.
#[unsafe(no_mangle)]
pub extern "C" fn tackacorn_to_days(year: u32, month: u32, day: u32, days: &mut u32) -> u32
    ensures { read_told result days.new ≡ tell_days (days_of (date year month day 0)) }
{
    capi::tackacorn_to_days(year, month, day, days)
}

// The date of a day count.
#[unsafe(no_mangle)]
pub extern "C" fn tackacorn_from_days(
    days: u32,
    year: &mut u32,
    month: &mut u32,
    day: &mut u32,
) -> u32
    ensures { read_told result (date year.new month.new day.new 0) ≡ tell_date (date_at days) }
{
    capi::tackacorn_from_days(days, year, month, day)
}
