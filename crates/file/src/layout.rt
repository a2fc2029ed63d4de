// The layout of a sheet file, by its version: the fields before the tokens, their widths and places.
ghost use Rattle.std.specs.Prelude.{◌≡◌};
ghost use Rattle.file.specs.Layout.{version_number, text_field, count_at, head_size, file_size};
ghost use Rattle.file.specs.Open.{version_named};

use packed::numbers::Width;
use packed::tokens;

// The versions that are read and written, by their numbers.
#[derive(Clone, Copy, PartialEq, Eq)]
pub enum Version {
    V1 = 1,
}

// What a file says before its tokens.
#[derive(Clone, Copy, PartialEq, Eq)]
pub struct Head {
    pub version: Version,
    pub text_length: u32,
    pub count: u32,
}

// The least bytes of a file.
pub(crate) const LEAST_SIZE: usize = 12;

// Where the version and the text's length stand.
pub(crate) const VERSION_AT: usize = 4;

pub(crate) const TEXT_AT: usize = 5;

// The width of the text's length.
#[tactic(auto, using(crate::proofs::Fields::text_told))]
pub(crate) fn text_width(v: Version) -> Width
    ensures { result ≡ text_field v }
{
    match v {
        Version::V1 => Width::Three,
    }
}

// Where the count stands.
#[tactic(auto, using(crate::proofs::Fields::count_told))]
pub(crate) fn count_at(v: Version) -> usize
    ensures { result ≡ count_at v }
{
    match v {
        Version::V1 => 8,
    }
}

// Where the tokens begin.
#[tactic(auto, using(crate::proofs::Fields::head_told))]
pub fn head_size(v: Version) -> usize
    ensures { result ≡ head_size v }
{
    match v {
        Version::V1 => 12,
    }
}

// How many bytes the file of so many tokens has.
#[tactic(auto, using(crate::proofs::Fields::head_told))]
pub fn file_size(v: Version, count: u32) -> usize
    ensures { result ≡ file_size v count }
{
    head_size(v) + tokens::bytes_for(count)
}

// The number of a version.
#[tactic(auto, using(crate::proofs::Fields::number_told))]
pub(crate) fn version_number(v: Version) -> u32
    ensures { result ≡ version_number v }
{
    v as u32
}

// The version that a number names, or none.
#[tactic(auto, unfolding(crate::specs::Open::version_named))]
pub(crate) fn version_named(number: u32) -> Option<Version>
    ensures { result ≡ version_named number }
{
    (number == version_number(Version::V1)).then_some(Version::V1)
}
