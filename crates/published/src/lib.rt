// The published table: the kind number of every frame, for host tools.
#![tactic(auto)]

mod kinds;

ghost use Rattle.std.specs.Prelude.{◌≡◌};
ghost use Rattle.frame.specs.Decoding.{decoded};

// The entry of the published table at a frame: the decoder's kind there, and 0 for a number over 2,047.
pub fn kind(frame: u64) -> u8
    ensures { result ≡ (decoded frame).kind }
{
    kinds::KINDS.get(frame as usize).copied().unwrap_or(0)
}
