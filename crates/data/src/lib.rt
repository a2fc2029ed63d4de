// The boundary bytes of the save format, as a table of 256 classes, and as a test of a byte.
#![tactic(auto)]

ghost use Rattle.std.specs.Prelude.{◌≡◌};
ghost use Rattle.data.specs.Classes.{classes, is_boundary, may_be_sign};

// How many bytes there are, each with its class.
pub const BYTE_COUNT: usize = 256;

// The class of each byte: 1 where it ends an unquoted run, 0 elsewhere. Bytes and no truth values, since C lends such tables to the cuts.
const CHARACTER_CLASS: [u8; BYTE_COUNT] = [
    0, 0, 0, 0, 0, 0, 0, 0, 0, 1, // tab
    1, // LF
    0, 0, 1, // CR
    0, 0, 0, 0, 0, 0, 0, 0, 0, 0, 0, 0, 0, 0, 0, 0, 0, 0, 1, // space
    0, 0, 1, // #
    0, 0, 0, 0, 0, 0, 0, 0, 0, 0, 0, 0, 0, 0, 0, 0, 0, 0, 0, 0, 0, 0, 0, 1, // ;
    1, // <
    1, // =
    1, // >
    0, 0, 0, 0, 0, 0, 0, 0, 0, 0, 0, 0, 0, 0, 0, 0, 0, 0, 0, 0, 0, 0, 0, 0, 0, 0, 0, 0, 1, // [
    0, 1, // ]
    0, 0, 0, 0, 0, 0, 0, 0, 0, 0, 0, 0, 0, 0, 0, 0, 0, 0, 0, 0, 0, 0, 0, 0, 0, 0, 0, 0, 0, 1, // {
    0, 1, // }
    0, 0, 0, 0, 0, 0, 0, 0, 0, 0, 0, 0, 0, 0, 0, 0, 0, 0, 0, 0, 0, 0, 0, 0, 0, 0, 0, 0, 0, 0, 0, 0,
    0, 0, 0, 0, 0, 0, 0, 0, 0, 0, 0, 0, 0, 0, 0, 0, 0, 0, 0, 0, 0, 0, 0, 0, 0, 0, 0, 0, 0, 0, 0, 0,
    0, 0, 0, 0, 0, 0, 0, 0, 0, 0, 0, 0, 0, 0, 0, 0, 0, 0, 0, 0, 0, 0, 0, 0, 0, 0, 0, 0, 0, 0, 0, 0,
    0, 0, 0, 0, 0, 0, 0, 0, 0, 0, 0, 0, 0, 0, 0, 0, 0, 0, 0, 0, 0, 0, 0, 0, 0, 0, 0, 0, 0, 0, 0, 0,
    0, 0,
];

// The table by value: taken once by whoever loops over bytes, and lent from there.
pub fn character_class() -> [u8; BYTE_COUNT]
    ensures { result ≡ classes }
{
    CHARACTER_CLASS
}

// The boundary bytes before `@`, a bit for each.
const LOW_BOUNDARIES: u64 = 0x7800_0009_0000_2600;

// Whether a byte ends an unquoted run: the table's rule, for whoever looks at a byte here and there and would pay for a table. All but
// brackets and braces stand before `@`, so that of a byte that ends a run, which is what is mostly asked, the first test is guessed right.
pub fn is_boundary(b: u8) -> bool
    ensures { result ≡ is_boundary b }
{
    if b < b'@' {
        return (LOW_BOUNDARIES >> b) & 1 == 1;
    }
    (b == b'[') | (b == b']') | (b == b'{') | (b == b'}')
}

// Whether a byte has such low five bits as `;` `<` `=` `>` `[` `]` `{` `}` have, and with them `\` `^` `|` `~`: four values, which no letter,
// no digit and no `_` has. Asked before such signs are told apart, it is answered alike of whatever a scalar is made of, and so guessed right.
pub fn may_be_sign(b: u8) -> bool
    ensures { result ≡ may_be_sign b }
{
    0x1c <= (((b & 0x1f) + 1) & 0x1f)
}
