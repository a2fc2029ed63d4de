// The BOM, and the machine at the text's start.
ghost use Rattle.std.specs.Prelude.{◌≡◌};
ghost use Rattle.machine.specs.Start.{has_bom, start};

use crate::{Machine, State};

// How many bytes a BOM has, and the bytes.
const BOM_LENGTH: usize = 3;

const BOM: [u8; BOM_LENGTH] = [0xef, 0xbb, 0xbf];

// Whether the text begins with ef bb bf.
#[tactic(auto, unfolding(crate::specs::Start::has_bom))]
pub fn has_bom(text: &[u8]) -> bool
    ensures { result ≡ has_bom text.now }
{
    text.starts_with(&BOM)
}

// The machine at the text's start, past a BOM.
#[tactic(auto, unfolding(crate::specs::Start::start))]
pub fn start(bom: bool) -> Machine
    ensures { result ≡ start bom }
{
    Machine {
        at: if bom { BOM_LENGTH } else { 0 },
        state: State::Key,
        parent: 0,
        mixed: false,
        count: 0,
    }
}
