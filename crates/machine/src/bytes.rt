// What a byte is in the states that tell bytes apart. What is no sign at all is told first, by a test that letters and digits answer alike: which
// of the two a scalar begins with cannot be guessed.
ghost use Rattle.std.specs.Prelude.{◌≡◌};
ghost use Rattle.machine.specs.Bytes.{key_byte, open_byte, follows_key, value_byte};

// What a byte is in Key.
#[derive(Clone, Copy)]
pub enum KeyByte {
    Closer,
    Brace,
    Bracket,
    Other,
}

// Tells the bytes of Key apart.
#[tactic(auto, unfolding(crate::specs::Bytes::key_byte, data::specs::Classes::may_be_sign))]
pub fn key_byte(b: u8) -> KeyByte
    ensures { result ≡ key_byte b }
{
    if !data::may_be_sign(b) {
        return KeyByte::Other;
    }
    match b {
        b'}' | b']' => KeyByte::Closer,
        b'{' => KeyByte::Brace,
        b'[' => KeyByte::Bracket,
        _ => KeyByte::Other,
    }
}

// What a byte is in ParseOpen.
#[derive(Clone, Copy)]
pub enum OpenByte {
    Closer,
    Bracket,
    Brace,
    Other,
}

// Tells the bytes of ParseOpen apart.
#[tactic(auto, unfolding(crate::specs::Bytes::open_byte, data::specs::Classes::may_be_sign))]
pub fn open_byte(b: u8) -> OpenByte
    ensures { result ≡ open_byte b }
{
    if !data::may_be_sign(b) {
        return OpenByte::Other;
    }
    match b {
        b'}' => OpenByte::Closer,
        b'[' => OpenByte::Bracket,
        b'{' => OpenByte::Brace,
        _ => OpenByte::Other,
    }
}

// Whether a byte says that what stood before it is a key.
#[tactic(auto, unfolding(crate::specs::Bytes::follows_key))]
pub fn follows_key(b: u8) -> bool
    ensures { result ≡ follows_key b }
{
    matches!(b, b'=' | b'>' | b'<' | b'?' | b'!')
}

// What a byte is in ArrayValue.
#[derive(Clone, Copy)]
pub enum ValueByte {
    Brace,
    Closer,
    Sign,
    Other,
}

// Tells the bytes of ArrayValue apart.
#[tactic(auto, unfolding(crate::specs::Bytes::value_byte, crate::specs::Bytes::begins_operator, data::specs::Classes::may_be_sign))]
pub fn value_byte(b: u8) -> ValueByte
    ensures { result ≡ value_byte b }
{
    if !data::may_be_sign(b) & (b != b'!') {
        return ValueByte::Other;
    }
    match b {
        b'{' => ValueByte::Brace,
        b'}' => ValueByte::Closer,
        b'<' | b'>' | b'!' | b'=' => ValueByte::Sign,
        _ => ValueByte::Other,
    }
}
