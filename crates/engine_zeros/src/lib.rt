// Whether a stretch of bytes is zero past a length: ID and data of a record, and a header past none.
#![tactic(auto)]

ghost use Rattle.std.specs.Prelude.{◌≡◌, ◌+◌, ◌≤◌, length, drop};
ghost use Rattle.device.specs.PowerOn.{bytes_from};
ghost use Rattle.record.specs.Record.{zeros};

// Every byte of the stretch is looked at, those within the length too, so that many go at a time.
pub fn zero_past(bytes: &[u8], from: usize, width: u8, past: u8) -> bool
    requires { from + width ≤ length bytes.now }
    ensures { result ≡ zeros (drop past (bytes_from from width bytes.now)) }
{
    let mut zero = true;
    for i in 0..width {
        zero = zero & ((i < past) | (bytes[from + i as usize] == 0));
    }
    zero
}
