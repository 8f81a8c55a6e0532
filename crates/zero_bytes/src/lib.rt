// The bytes of a record that are zero: ID and data past their length.
#![tactic(auto)]

ghost use Rattle.std.specs.Prelude.{◌≡◌, drop};
ghost use Rattle.record.specs.Record.{device_of, zeros};
ghost use Rattle.record.specs.Sound.{zero_past};

use record::{ID, ID_LENGTH, LOAD, LOAD_LENGTH, SIZE};

// All bytes from a place on are zero. The fold has no early end, so that many bytes are tested at a time.
fn zeros_from(s: &[u8], from: usize) -> bool
    ensures { result ≡ zeros (drop from s.now) }
{
    s[from.min(s.len())..]
        .iter()
        .fold(true, |zero, byte| zero & (*byte == 0))
}

// The same past a length. Most devices have no ID and no data, and then the number of turns is known beforehand.
pub fn zero_past_length(s: &[u8], length: u8) -> bool
    ensures { result ≡ zeros (drop length s.now) }
{
    if length == 0 {
        return zeros_from(s, 0);
    }
    zeros_from(s, length as usize)
}

fn id_zero_past(rec: &[u8; SIZE]) -> bool
    ensures { result ≡ zeros (drop (device_of rec.now).idlength (device_of rec.now).id) }
{
    zero_past_length(&rec[ID..LOAD], rec[ID_LENGTH])
}

fn load_zero_past(rec: &[u8; SIZE]) -> bool
    ensures { result ≡ zeros (drop (device_of rec.now).loadlength (device_of rec.now).load) }
{
    zero_past_length(&rec[LOAD..SIZE], rec[LOAD_LENGTH])
}

pub fn zero_past(rec: &[u8; SIZE]) -> bool
    ensures { result ≡ zero_past (device_of rec.now) }
{
    if id_zero_past(rec) {
        return load_zero_past(rec);
    }
    false
}
