// Extended addresses in a record (02, i): the record of an extended device after the frames that it has rules of its
// own for, and after another command has cleared its flags.
#![tactic(auto)]

ghost use Rattle.std.specs.Prelude.{◌≡◌, ◌<◌};
ghost use Rattle.device.specs.Device.{received};
ghost use Rattle.device.specs.Reply.{sends};
ghost use Rattle.device.specs.Extended.{heeding, extended_lad, extended_tad, sad_listens, sad_talks, sad, extended_aau};
ghost use Rattle.device.specs.Extended.{aes, aep};
ghost use Rattle.record.specs.Record.{device_of};

use engine_bytes::{flag, place, store, take_second, talk, talks};
use engine_reading::{DDT, NUL};
use engine_remote::to_remote;
use engine_table::{
    ABILITIES, ADDRESS_NOW, ADDRESSED, CONFIGURED, FIXED_ADDRESS, FIXED_SECOND, HALF_ASSIGNED,
    IDLE, LISTEN, LISTENER, NO_ADDRESS, RECEIVED, RECORD, SECOND_NOW, UNADDRESS,
};

// A primary is received; listener and talker wait for the second address.
pub fn lad(rec: &mut [u8; RECORD], address: u8)
    ensures { device_of rec.new ≡ extended_lad (device_of rec.old) address }
{
    if address != rec[ADDRESS_NOW] {
        flag(rec, 0, 0);
        return;
    }
    if rec[ABILITIES] & LISTEN == 0 {
        flag(rec, 0, 0);
        return;
    }
    to_remote(rec);
    flag(rec, RECEIVED, 0);
}

pub fn tad(rec: &mut [u8; RECORD], address: u8)
    ensures { device_of rec.new ≡ extended_tad (device_of rec.old) address }
{
    if address != rec[ADDRESS_NOW] {
        flag(rec, 0, 0);
        talk(rec, IDLE);
        return;
    }
    if talks(rec) {
        flag(rec, 0, RECEIVED);
        return;
    }
    flag(rec, 0, 0);
    talk(rec, IDLE);
}

// Own SAD after the listen primary.
fn sad_listens(rec: &mut [u8; RECORD])
    ensures { device_of rec.new ≡ sad_listens (device_of rec.old) }
{
    let able = rec[ABILITIES];
    if rec[FIXED_SECOND] < RECEIVED {
        return;
    }
    if able & LISTEN == 0 {
        return;
    }
    store(rec, LISTENER, 1);
    if able & UNADDRESS != 0 {
        talk(rec, IDLE);
    }
}

// Own SAD after the talk primary.
fn sad_talks(rec: &mut [u8; RECORD])
    ensures { device_of rec.new ≡ sad_talks (device_of rec.old) }
{
    let able = rec[ABILITIES];
    if rec[SECOND_NOW] < RECEIVED {
        return;
    }
    if talks(rec) {
        if able & UNADDRESS != 0 {
            store(rec, LISTENER, 0);
            talk(rec, ADDRESSED);
            return;
        }
        talk(rec, ADDRESSED);
    }
}

pub fn sad(rec: &mut [u8; RECORD], address: u8)
    ensures { device_of rec.new ≡ sad (device_of rec.old) address }
{
    let second = rec[SECOND_NOW];
    if address == second % RECEIVED {
        sad_listens(rec);
        sad_talks(rec);
        return;
    }
    flag(rec, 0, 0);
    if RECEIVED <= second {
        talk(rec, IDLE);
    }
}

pub fn aau(rec: &mut [u8; RECORD])
    ensures { device_of rec.new ≡ extended_aau (device_of rec.old) }
{
    let fixed = rec[FIXED_ADDRESS];
    let second = rec[FIXED_SECOND] % RECEIVED;
    flag(rec, 0, 0);
    take_second(rec, second);
    place(rec, fixed, 0);
}

// A device that is configured or half assigned leaves AES alone.
pub fn aes(rec: &mut [u8; RECORD], frame: u16, address: u8) -> u16
    requires { (frame < 65535) × (address < received) }
    ensures { sends (device_of rec.new) result ≡ aes (device_of rec.old) frame address }
{
    let primary = rec[ADDRESS_NOW];
    if rec[CONFIGURED] != 0 {
        return frame;
    }
    take_second(rec, address);
    place(rec, primary, HALF_ASSIGNED);
    frame + 1
}

pub fn aep(rec: &mut [u8; RECORD], address: u8)
    ensures { device_of rec.new ≡ aep (device_of rec.old) address }
{
    if rec[CONFIGURED] != HALF_ASSIGNED {
        return;
    }
    if NO_ADDRESS <= rec[SECOND_NOW] % RECEIVED {
        return;
    }
    place(rec, address, 1);
}

// A command that is none of these clears both flags.
pub fn heed(rec: &mut [u8; RECORD], kind: u8)
    ensures { device_of rec.new ≡ heeding (device_of rec.old) kind }
{
    if (NUL <= kind) & (kind <= DDT) {
        flag(rec, 0, 0);
    }
}
