// The numbers of a line, gathered byte by byte.
ghost use Rattle.std.specs.Prelude.{◌≤◌, ◌-◌, length};

// A line has at most so many numbers; what comes after them is left out.
pub const MOST: usize = 256;

// What a line's first byte says that it is.
#[derive(Clone, Copy)]
pub enum Kind {
    Check,
    View,
    Token,
    Remark,
}

// What a line has given so far: its kind, the number that is being read, and the numbers that have been put away, of which the first
// `count` are its own and those behind them are left from the lines before.
#[derive(Clone, Copy)]
pub struct Line {
    pub kind: Option<Kind>,
    reading: Option<u64>,
    pub numbers: [u64; MOST],
    count: usize,
}

// The kind of the lines that a byte begins. A NUL begins none.
fn kind_of(byte: u8) -> Option<Kind> {
    match byte {
        0 => None,
        b'c' => Some(Kind::Check),
        b'v' => Some(Kind::View),
        b't' => Some(Kind::Token),
        _ => Some(Kind::Remark),
    }
}

// A number with one digit more, or as it is where it would no longer fit.
fn longer(value: u64, digit: u8) -> u64 {
    let tens = value.checked_mul(10);
    tens.and_then(|t| t.checked_add(u64::from(digit)))
        .unwrap_or(value)
}

// A number as a word, the largest where it does not fit.
fn word(value: u64) -> u32 {
    u32::try_from(value).unwrap_or(u32::MAX)
}

impl Line {
    // A line of which nothing has been read, and before which none was.
    pub(crate) fn new() -> Line {
        Line {
            kind: None,
            reading: None,
            numbers: [0; MOST],
            count: 0,
        }
    }

    // The next line begins.
    pub(crate) fn restart(&mut self) {
        self.kind = None;
        self.reading = None;
        self.count = 0;
    }

    // Whether the line is a case, and no remark.
    pub(crate) fn is_case(&self) -> bool {
        match self.kind {
            Some(Kind::Check | Kind::View | Kind::Token) => true,
            Some(Kind::Remark) | None => false,
        }
    }

    // Puts the number that is being read away, if any.
    pub(crate) fn put_away(&mut self) {
        let Some(value) = self.reading.take() else {
            return;
        };
        if let Some(slot) = self.numbers.get_mut(self.count) {
            *slot = value;
            self.count += 1;
        }
    }

    // Takes one byte more.
    pub(crate) fn read(&mut self, byte: u8) {
        if self.kind.is_none() {
            self.kind = kind_of(byte);
            return;
        }
        match byte {
            b'0'..=b'9' => self.reading = Some(longer(self.reading.unwrap_or(0), byte - b'0')),
            _ => self.put_away(),
        }
    }

    // The words of the line when its first numbers are something else, laid down in the room.
    pub(crate) fn words<'a>(&self, first: usize, room: &'a mut [u32; MOST]) -> &'a [u32]
        ensures { length result.now ≤ self.now.count - first }
    {
        let numbers = self.numbers.get(first..self.count).unwrap_or(&[]);
        for (slot, &number) in room.iter_mut().zip(numbers) {
            *slot = word(number);
        }
        let words: &[u32] = room;
        words.get(..numbers.len()).unwrap_or(words)
    }
}
