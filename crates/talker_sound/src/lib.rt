// What a talker's state asks for: its ability, what of a reply is sent, and nothing under way outside states 2-5.
#![tactic(auto)]

ghost use Rattle.std.specs.Prelude.{◌≡◌, ◌&&◌, eqb};
ghost use Rattle.record.specs.Record.{device_of};
ghost use Rattle.record.specs.Sound.{talker_right};
ghost use Rattle.talker_sound.specs.Talker.{data_right, state_right};

use device::Device;
use record::read::{has, talks};
use record::{ID_LENGTH, LAST, LOAD_LENGTH, NOTED, REPLIED, SENT, SIZE, TALKER, word_at};

// Nothing of a reply is under way.
fn quiet(rec: &[u8; SIZE]) -> bool
    ensures { result ≡ (eqb (device_of rec.now).replied 0 &&
        (eqb (device_of rec.now).noted 0 && eqb (device_of rec.now).last 0)) }
{
    (rec[REPLIED] == 0) & ((rec[NOTED] == 0) & (word_at(rec, LAST) == 0))
}

fn state_right(rec: &[u8; SIZE]) -> bool
    ensures { result ≡ state_right (device_of rec.now) }
{
    let talker = rec[TALKER];
    match talker {
        Device::IDLE => quiet(rec),
        Device::ADDRESSED => talks(rec) & quiet(rec),
        Device::SENDING_DATA => {
            has(rec, Device::SEND_DATA) & ((1 <= rec[SENT]) & (rec[REPLIED] == 0))
        }
        Device::SENDING_STATUS => has(rec, Device::STATUS) & (rec[REPLIED] == 1),
        Device::SENDING_DEVICE_ID => {
            has(rec, Device::DEVICE_ID) & ((1 <= rec[REPLIED]) & (rec[REPLIED] <= rec[ID_LENGTH]))
        }
        Device::SENDING_ACCESSORY_ID => has(rec, Device::ACCESSORY_ID) & (rec[REPLIED] == 1),
        _ => true,
    }
}

// Data only with its ability, of which no more is sent than there is; the last frame sent is below 1,024.
fn data_right(rec: &[u8; SIZE]) -> bool
    ensures { result ≡ data_right (device_of rec.now) }
{
    (!(0 < rec[LOAD_LENGTH]) | has(rec, Device::SEND_DATA))
        & ((rec[SENT] <= rec[LOAD_LENGTH]) & (word_at(rec, LAST) < Device::PAST_LAST))
}

pub fn talker_right(rec: &[u8; SIZE]) -> bool
    ensures { result ≡ talker_right (device_of rec.now) }
{
    if data_right(rec) {
        return state_right(rec);
    }
    false
}
