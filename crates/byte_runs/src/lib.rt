// Runs of bytes: one run copied to the start of another, and the place of a byte in a run.
#![tactic(auto)]

ghost use Rattle.std.specs.Prelude.{◌≡◌, ◌+◌, ◌≤◌, ◌++◌, take, drop, length};
ghost use Rattle.byte_runs.specs.Bytes.{index_of, slice};

// Copies a run to the start of another, which is as long at least; the answer is how many bytes it has.
pub fn copy(from: &[u8], to: &mut [u8]) -> usize
    requires { length from.now ≤ length to.old }
    ensures { (result ≡ length from.now) ×
        (to.new ≡ take (length from.now) from.now ++ drop (length from.now) to.old) }
{
    let n = from.len();
    to[..n].copy_from_slice(from);
    n
}

// The place of the first such byte between two places, or the second where there is none.
pub fn find(s: &[u8], from: usize, to: usize, byte: u8) -> usize
    requires { (from ≤ to) × (to ≤ length s.now) }
    ensures { (result ≡ from + index_of byte (slice from to s.now)) × (result ≤ to) }
{
    match s[from..to].iter().position(|b| *b == byte) {
        Some(ahead) => from + ahead,
        None => to,
    }
}
