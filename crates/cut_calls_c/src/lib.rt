// The four cuts for `bench/`, each that of crate `cut_calls` under its name and with its clauses. No part of the library that users link.
#![tactic(auto)]

ghost use Rattle.std.specs.Prelude.{◌≡◌, length};
ghost use Rattle.cut.specs.Quotes.{quoted_run};
ghost use Rattle.cut.specs.Runs.{run_by, unquoted_run};
ghost use Rattle.cut_calls.specs.Lengths.{quote_length};

// The plain cut of an unquoted run, by a table of classes that is lent.
#[unsafe(no_mangle)]
pub extern "C" fn cuts_plain_run(d: &[u8], classes: &[u8; data::BYTE_COUNT]) -> usize
    ensures { result ≡ run_by classes.now d.now }
{
    cut_calls::cuts_plain_run(d, classes)
}

// The fast cut of an unquoted run.
#[unsafe(no_mangle)]
pub extern "C" fn cuts_fast_run(d: &[u8]) -> usize
    ensures { result ≡ unquoted_run d.now }
{
    cut_calls::cuts_fast_run(d)
}

// The plain cut of a quoted run, told by its length.
#[unsafe(no_mangle)]
pub extern "C" fn cuts_plain_quote(d: &[u8]) -> usize
    ensures { result ≡ quote_length (length d.now) (quoted_run d.now) }
{
    cut_calls::cuts_plain_quote(d)
}

// The fast cut of a quoted run, told by its length.
#[unsafe(no_mangle)]
pub extern "C" fn cuts_fast_quote(d: &[u8]) -> usize
    ensures { result ≡ quote_length (length d.now) (quoted_run d.now) }
{
    cut_calls::cuts_fast_quote(d)
}
