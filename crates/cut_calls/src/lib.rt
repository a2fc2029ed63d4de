// The four cuts under names for C, so that bench/ can time each alone. No part of the library that users link.
#![tactic(auto)]

ghost use Rattle.std.specs.Prelude.{◌≡◌, length};
ghost use Rattle.cut.specs.Quotes.{quoted_run};
ghost use Rattle.cut.specs.Runs.{run_by, unquoted_run};
ghost use Rattle.cut_calls.specs.Lengths.{quote_length};

use cut::{QuotedRun, strides};

// How many of so many bytes stand before the closing quote; all where none closes.
fn quote_length(all: usize, found: Option<QuotedRun>) -> usize
    ensures { result ≡ quote_length all found }
{
    match found {
        Some(run) => run.length,
        None => all,
    }
}

// The plain cut of an unquoted run, by a table of classes that is lent.
#[unsafe(no_mangle)]
pub extern "C" fn cuts_plain_run(d: &[u8], classes: &[u8; data::BYTE_COUNT]) -> usize
    ensures { result ≡ run_by classes.now d.now }
{
    cut::split_at_scalar(d, classes)
}

// The fast cut of an unquoted run.
#[unsafe(no_mangle)]
pub extern "C" fn cuts_fast_run(d: &[u8]) -> usize
    ensures { result ≡ unquoted_run d.now }
{
    strides::split_at_scalar(d)
}

// The plain cut of a quoted run, told by its length.
#[unsafe(no_mangle)]
pub extern "C" fn cuts_plain_quote(d: &[u8]) -> usize
    ensures { result ≡ quote_length (length d.now) (quoted_run d.now) }
{
    quote_length(d.len(), cut::parse_quote_scalar(d))
}

// The fast cut of a quoted run, told by its length.
#[unsafe(no_mangle)]
pub extern "C" fn cuts_fast_quote(d: &[u8]) -> usize
    ensures { result ≡ quote_length (length d.now) (quoted_run d.now) }
{
    quote_length(d.len(), strides::parse_quote_scalar(d))
}
