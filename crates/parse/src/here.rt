// A place in the text.
ghost use Rattle.std.specs.Prelude.{◌≡◌, ◌<◌, length};
ghost use Rattle.machine.specs.Machine.{byte_at};

use crate::text::Text;
use machine::Machine;

// A machine that stands at a byte of a text.
#[derive(Clone, Copy)]
pub(crate) struct Here<'a> {
    pub text: Text<'a>,
    pub m: Machine,
    ghost stands: { m.at < length text.bytes.now },
}

impl<'a> Here<'a> {
    // The byte at which the machine stands.
    pub(crate) fn byte(self) -> u8
        ensures { result ≡ byte_at self.entry.text.bytes.now self.entry.m.at }
    {
        self.text.bytes[self.m.at]
    }
}
