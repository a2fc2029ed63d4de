// Numbers as bytes, the larger bytes first.
ghost use Rattle.std.specs.Prelude.{◌≡◌, ◌+◌, ◌≤◌, leb, length, get_or};
ghost use Rattle.std.proofs.lemmas.List.Edits.{sets};
ghost use Rattle.packed.specs.Numbers.{width_of, greatest, spelled, spelt, field, store};

// How many bytes a word has, and so the widest number.
pub(crate) const WORD_BYTES: usize = 4;

// How many bytes a number is given.
#[derive(Clone, Copy)]
pub enum Width {
    One = 1,
    Three = 3,
    Four = 4,
}

impl Width {
    // So many bytes.
    pub fn bytes(self) -> usize
        ensures { result ≡ width_of self }
    {
        self as usize
    }

    // The greatest number that they spell.
    pub fn greatest(self) -> u32
        ensures { result ≡ greatest (width_of self) }
    {
        match self {
            Width::One => 0xff,
            Width::Three => 0xff_ffff,
            Width::Four => u32::MAX,
        }
    }
}

// The number that so many bytes spell.
pub(crate) fn spelt_at(bytes: &[u8], at: usize, width: Width) -> u32
    requires { at + width_of width ≤ length bytes.now }
    ensures { result ≡ spelt bytes.now at (width_of width) }
{
    let size = width.bytes();
    let mut word = [0; WORD_BYTES];
    word[WORD_BYTES - size..].copy_from_slice(&bytes[at..at + size]);
    u32::from_be_bytes(word)
}

// Whether so many bytes from a place on are within a length.
pub fn fits(size: usize, at: usize, width: usize) -> bool
    ensures { result ≡ leb (at + width) size }
{
    width <= size && at <= size - width
}

// The number that stands at a place, 0 where its bytes are not all there.
#[tactic(auto, unfolding(crate::specs::Numbers::field))]
pub fn number_at(bytes: &[u8], at: usize, width: Width) -> u32
    ensures { result ≡ field bytes.now at (width_of width) }
{
    if !fits(bytes.len(), at, width.bytes()) {
        return 0;
    }
    spelt_at(bytes, at, width)
}

// Puts the last bytes of a number at a place.
pub(crate) fn spell_at(out: &mut [u8], at: usize, width: Width, n: u32)
    requires { at + width_of width ≤ length out.old }
    ensures { out.new ≡ sets out.old at (spelled (width_of width) n) }
{
    let size = width.bytes();
    out[at..at + size].copy_from_slice(&n.to_be_bytes()[WORD_BYTES - size..]);
}

// Puts the last bytes of a number at a place, where they all find room.
pub fn put_number(out: &mut [u8], at: usize, width: Width, n: u32)
    ensures { out.new ≡ store out.old at (spelled (width_of width) n) }
{
    if fits(out.len(), at, width.bytes()) {
        spell_at(out, at, width, n);
    }
}
