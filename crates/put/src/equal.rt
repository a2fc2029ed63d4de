// Two runs of bytes held against each other.
ghost use Rattle.std.specs.Prelude.{◌≡◌};
ghost use Rattle.put.specs.Equal.{equal_bytes};

// Whether two runs of bytes are the same.
#[tactic(auto, using(crate::proofs::Equality::compared))]
pub fn equal_bytes(a: &[u8], b: &[u8]) -> bool
    ensures { result ≡ equal_bytes a.now b.now }
{
    a == b
}
