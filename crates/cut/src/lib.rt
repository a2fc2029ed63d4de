// Where bytes are cut: blanks, unquoted runs, quoted runs, and the scalar at a place of a text.
// A place counts from the text's first byte. The plain pair of cuts looks at a byte at a time; the table of classes of its unquoted cut is
// lent by whoever loops over the text. `strides` has a pair that answers the same by eight bytes at a time, and by its strides
// scalars are cut.
#![tactic(auto)]

ghost use Rattle.std.specs.Prelude.{◌≡◌, ◌+◌, ◌≤◌, ◌<◌, length, drop};
ghost use Rattle.cut.specs.Blanks.{is_blank, skip_ws};
ghost use Rattle.cut.specs.Quotes.{quoted_run};
ghost use Rattle.cut.specs.Runs.{run_by, run_end};
ghost use Rattle.cut.specs.Scalars.{quoted, bracket_run, opens_variable, variable_cut, scalar_cut};

pub mod strides;

// A quoted run that is closed.
#[derive(Clone, Copy)]
pub struct QuotedRun {
    // How many bytes stand before the closing quote.
    pub length: usize,
    // Whether a backslash is among them.
    pub escaped: bool,
}

// A scalar: its view from start to end, and the place where the text goes on.
#[derive(Clone, Copy)]
pub enum Cut {
    Unquoted {
        start: usize,
        end: usize,
        rest: usize,
    },
    // Whether a backslash took part in it is said too.
    Quoted {
        start: usize,
        end: usize,
        rest: usize,
        escaped: bool,
    },
}

// Whether a byte is a blank by itself. All five tests are made at once, with no branch between them.
fn is_blank(b: u8) -> bool
    ensures { result ≡ is_blank b }
{
    (b == b' ') | (b == b'\t') | (b == b'\n') | (b == b'\r') | (b == b';')
}

// The place of the next byte that is no blank, from a place on, or none. A comment is left at its LF; where the text ends first, so do the
// blanks.
pub fn skip_ws_t(text: &[u8], at: usize) -> Option<usize>
    ensures { result ≡ skip_ws text.now at }
{
    let mut i = at;
    // A `for` is no plainer: the comment's loop goes on with the same index.
    'blanks: while i < text.len() {
        let b = text[i];
        if is_blank(b) {
            i += 1;
            continue 'blanks;
        }
        if b != b'#' {
            return Some(i);
        }
        i += 1;
        'comment: loop {
            if i == text.len() {
                break 'blanks;
            }
            let c = text[i];
            i += 1;
            if c == b'\n' {
                continue 'blanks;
            }
        }
    }
    None
}

// How long the unquoted run at the head of a part is. A boundary byte at the head is a run of its own, as in `==bar`, so that every cut
// moves on.
pub fn split_at_scalar(d: &[u8], classes: &[u8; data::BYTE_COUNT]) -> usize
    ensures { result ≡ run_by classes.now d.now }
{
    for (i, &b) in d.iter().enumerate() {
        if classes[b as usize] != 0 {
            return i.max(1);
        }
    }
    d.len()
}

// The quoted run after an opening quote, or none where no quote closes it.
pub fn parse_quote_scalar(d: &[u8]) -> Option<QuotedRun>
    ensures { result ≡ quoted_run d.now }
{
    let mut i = 0;
    let mut escaped = false;
    // No `for`: a backslash steps over two bytes.
    while i < d.len() {
        let b = d[i];
        if b == b'"' {
            return Some(QuotedRun { length: i, escaped });
        }
        if b == b'\\' {
            escaped = true;
            i += 2;
        } else {
            i += 1;
        }
    }
    None
}

// How many bytes of an interpolated variable stand before its `]`: all that is left where there is none.
pub fn parse_variable(d: &[u8]) -> usize
    ensures { result ≡ bracket_run d.now }
{
    d.iter().position(|&b| b == b']').unwrap_or(d.len())
}

// The place after the unquoted run that starts at a place.
pub fn run_end(text: &[u8], at: usize) -> usize
    ensures { result ≡ run_end text.now at }
{
    if at < text.len() {
        at + strides::split_unguessed(&text[at..])
    } else {
        at
    }
}

// The quoted run whose first byte after the opening quote is at a place, or none where the text ends first.
fn quoted_at(text: &[u8], start: usize) -> Option<Cut>
    requires { start ≤ length text.now }
    ensures { result ≡ quoted start (quoted_run (drop start text.now)) }
{
    let run = strides::quote_unguessed(&text[start..])?;
    let end = start + run.length;
    let rest = end + 1;
    Some(Cut::Quoted {
        start,
        end,
        rest,
        escaped: run.escaped,
    })
}

// Whether an interpolated variable, `@[`, starts at a place.
fn opens_variable(text: &[u8], at: usize) -> bool
    requires { at < length text.now }
    ensures { result ≡ opens_variable text.now at }
{
    if text[at] != b'@' {
        return false;
    }
    let next = at + 1;
    next < text.len() && text[next] == b'['
}

// The interpolated variable at a place, or none where the text ends first. Its `]` stays in the view, and any byte may stand before it.
fn variable_at(text: &[u8], at: usize) -> Option<Cut>
    requires { at + 2 ≤ length text.now }
    ensures { result ≡ variable_cut text.now at }
{
    let inner = at + 2;
    let last = inner + parse_variable(&text[inner..]);
    if last < text.len() {
        let end = last + 1;
        Some(Cut::Unquoted {
            start: at,
            end,
            rest: end,
        })
    } else {
        None
    }
}

// The scalar that starts at a place, or none where the text ends first: its first byte says which kind of run it is.
pub fn scalar_at(text: &[u8], at: usize) -> Option<Cut>
    ensures { result ≡ scalar_cut text.now at }
{
    if at >= text.len() {
        return None;
    }
    if text[at] == b'"' {
        return quoted_at(text, at + 1);
    }
    if opens_variable(text, at) {
        return variable_at(text, at);
    }
    let end = run_end(text, at);
    Some(Cut::Unquoted {
        start: at,
        end,
        rest: end,
    })
}
