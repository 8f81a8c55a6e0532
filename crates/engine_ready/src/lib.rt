// Ready frames at a record (01, What a device does with a frame): the record after each, and the frame that goes out.
#![tactic(auto)]

ghost use Rattle.std.specs.Prelude.{◌≡◌, ◌<◌};
ghost use Rattle.device.specs.Ready.{requested, polls, sst, nrd, aad};
ghost use Rattle.device.specs.Reply.{sends};
ghost use Rattle.record.specs.Record.{device_of};

use engine_bytes::{place, store, talk};
use engine_reply::continues;
use engine_table::{
    ABILITIES, ADDRESSED, ASKING, AUTO_ADDRESS, CONFIGURED, NRD_SEEN, POLLED, RECORD, SENDS_STATUS,
    SERVICE, STATUS, TALKER,
};

// SDA, SDI, SAI: the first byte of the reply, in the talker state that it has.
pub fn requested(rec: &mut [u8; RECORD], frame: u16, ability: u8, talker: u8) -> u16
    ensures { sends (device_of rec.new) result ≡
        requested (device_of rec.old) frame ability talker }
{
    if rec[TALKER] != ADDRESSED {
        return frame;
    }
    if rec[ABILITIES] & ability == 0 {
        return frame;
    }
    talk(rec, talker);
    continues(rec)
}

// Service 1 becomes 2.
fn polls(rec: &mut [u8; RECORD])
    ensures { device_of rec.new ≡ polls (device_of rec.old) }
{
    if rec[SERVICE] != ASKING {
        return;
    }
    store(rec, SERVICE, POLLED);
}

// The poll comes first, so that the status goes out without C1 of this device's.
pub fn sst(rec: &mut [u8; RECORD], frame: u16) -> u16
    ensures { sends (device_of rec.new) result ≡ sst (device_of rec.old) frame }
{
    if rec[TALKER] != ADDRESSED {
        return frame;
    }
    if rec[ABILITIES] & STATUS == 0 {
        return frame;
    }
    polls(rec);
    talk(rec, SENDS_STATUS);
    continues(rec)
}

pub fn nrd(rec: &mut [u8; RECORD])
    ensures { device_of rec.new ≡ nrd (device_of rec.old) }
{
    if rec[TALKER] <= ADDRESSED {
        return;
    }
    store(rec, NRD_SEEN, 1);
}

// A configured device leaves AAD alone: else two devices would have one address.
pub fn aad(rec: &mut [u8; RECORD], frame: u16, address: u8) -> u16
    requires { frame < 65535 }
    ensures { sends (device_of rec.new) result ≡ aad (device_of rec.old) frame address }
{
    if rec[CONFIGURED] != 0 {
        return frame;
    }
    if rec[ABILITIES] & AUTO_ADDRESS == 0 {
        return frame;
    }
    place(rec, address, 1);
    frame + 1
}
