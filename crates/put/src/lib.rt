// Bytes put into a lent buffer one after another, as far as it has room: every such call answers the place after what it put. And parts
// of some bytes.
#![tactic(auto)]

ghost use Rattle.std.specs.Prelude.{◌≡◌, [], ◌∷◌, ◌+◌, ◌-◌, ◌≤◌, length, take, drop};
ghost use Rattle.put.specs.Append.{wrote, append, zeroed};
ghost use Rattle.put.specs.Parts.{view_of, part_place};

// Two runs of bytes held against each other.
pub mod equal;

// Puts one byte.
pub fn put_byte(out: &mut [u8], at: usize, b: u8) -> usize
    ensures { wrote result out.new ≡ append out.old at (b ∷ []) }
{
    if at < out.len() {
        out[at] = b;
        return at + 1;
    }
    at
}

// How many bytes are copied at a time.
const STRIDE: usize = 4;

// Copies some bytes over as many others: four at a time, the last four whole over those of them that stand already. The library's copy is
// slower on runs of 3 to 10 bytes, which are the usual ones, 11.7 ns a run for 9.2; asked for longer runs alone, it makes the short ones 10.4.
fn copy_over(out: &mut [u8], bytes: &[u8])
    requires { length out.old ≡ length bytes.now }
    ensures { out.new ≡ bytes.now }
{
    if bytes.len() < STRIDE {
        for i in 0..bytes.len() {
            out[i] = bytes[i];
        }
        return;
    }
    for turn in 0..(bytes.len() - 1) / STRIDE {
        let i = turn * STRIDE;
        out[i..i + STRIDE].copy_from_slice(&bytes[i..i + STRIDE]);
    }
    let last = bytes.len() - STRIDE;
    out[last..last + STRIDE].copy_from_slice(&bytes[last..last + STRIDE]);
}

// Puts some bytes, as many of them as find room.
pub fn put_bytes(out: &mut [u8], at: usize, bytes: &[u8]) -> usize
    ensures { wrote result out.new ≡ append out.old at bytes.now }
{
    if out.len() <= at {
        return at;
    }
    let n = bytes.len().min(out.len() - at);
    copy_over(&mut out[at..at + n], &bytes[..n]);
    at + n
}

// The first n bytes of a buffer, or all where there are fewer: what was put, to be written in one piece. They stand where the buffer does.
pub fn front(buffer: &[u8], n: usize) -> &[u8]
    ensures bytes { result.now ≡ take n buffer.now }
    ensures place { result.ref_ptr ≡ buffer.entry.ref_ptr }
{
    &buffer[..n.min(buffer.len())]
}

// The part of some bytes that starts at an offset and has a length, or as much of it as there is.
pub fn part(bytes: &[u8], offset: usize, size: usize) -> &[u8]
    ensures bytes { result.now ≡ view_of bytes.now offset size }
    ensures place { result.ref_ptr ≡ part_place bytes.entry.ref_ptr (length bytes.now) offset }
{
    // Past the last byte `get(offset..)` would answer the place behind it, and `place` promises the start.
    if bytes.len() <= offset {
        return &bytes[..0];
    }
    front(&bytes[offset..], size)
}

// Zeroes every byte from a place on.
pub fn clear_from(out: &mut [u8], at: usize)
    ensures { out.new ≡ zeroed out.old at }
{
    if at < out.len() {
        out[at..].fill(0);
    }
}
