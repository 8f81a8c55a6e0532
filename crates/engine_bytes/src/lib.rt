// What the plain engine does to a record: each change is made in place, on the bytes of the values that it speaks of.
#![tactic(auto)]

ghost use Rattle.std.specs.Prelude.{◌≡◌, true, [], ◌∷◌, ◌≤◌, ◌<◌};
ghost use Rattle.device.specs.Device.{received, talks};
ghost use Rattle.device.specs.Change.{◌becomes◌, changed, talking, placed, counting, flagging, seconding};
ghost use Rattle.record.specs.Record.{device_of};
ghost use Rattle.engine_bytes.specs.Single.{is_single};

use engine_table::{
    ABILITIES, ACCESSORY_ID, ADDRESS_NOW, CONFIGURED, DATA_SENT, DEVICE_ID, FIXED_SECOND,
    LAST_HIGH, LAST_LOW, NRD_SEEN, RECEIVED, RECORD, REPLY_SENT, SECOND_NOW, SEND_DATA, STATUS,
    TALKER,
};

// The abilities that make a talker, as one mask.
const TALKS: u8 = SEND_DATA + STATUS + DEVICE_ID + ACCESSORY_ID;

// Whether the device of a record has some of them.
pub fn talks(rec: &[u8; RECORD]) -> bool
    ensures { result ≡ talks (device_of rec.now) }
{
    rec[ABILITIES] & TALKS != 0
}

// One value that is one byte.
pub fn store(rec: &mut [u8; RECORD], place: usize, value: u8)
    requires { is_single place ≡ true }
    ensures { device_of rec.new ≡ changed (device_of rec.old) (place becomes value ∷ []) }
{
    rec[place] = value;
}

// A talker state: what was kept of a reply under way goes to zero with it.
pub fn talk(rec: &mut [u8; RECORD], talker: u8)
    ensures { device_of rec.new ≡ talking (device_of rec.old) talker }
{
    rec[TALKER] = talker;
    rec[NRD_SEEN] = 0;
    rec[LAST_LOW] = 0;
    rec[LAST_HIGH] = 0;
    rec[REPLY_SENT] = 0;
}

// An address, and how it was come by.
pub fn place(rec: &mut [u8; RECORD], address: u8, configured: u8)
    ensures { device_of rec.new ≡ placed (device_of rec.old) address configured }
{
    rec[ADDRESS_NOW] = address;
    rec[CONFIGURED] = configured;
}

// The last frame sent, and how many bytes of the data and of another reply were.
pub fn count(rec: &mut [u8; RECORD], frame: u16, sent: u8, replied: u8)
    ensures { device_of rec.new ≡ counting (device_of rec.old) frame sent replied }
{
    rec[LAST_LOW] = (frame % 256) as u8;
    rec[LAST_HIGH] = (frame / 256) as u8;
    rec[DATA_SENT] = sent;
    rec[REPLY_SENT] = replied;
}

// The flags in front of both second addresses: RECEIVED stands for the primary that came, 0 for none.
pub fn flag(rec: &mut [u8; RECORD], listen: u8, talk: u8)
    requires { (listen ≤ received) × (talk ≤ received) }
    ensures { device_of rec.new ≡ flagging (device_of rec.old) listen talk }
{
    let fixed = rec[FIXED_SECOND] % RECEIVED;
    let present = rec[SECOND_NOW] % RECEIVED;
    rec[FIXED_SECOND] = fixed + listen;
    rec[SECOND_NOW] = present + talk;
}

// A present second address behind the flag that is there.
pub fn take_second(rec: &mut [u8; RECORD], address: u8)
    requires { address < received }
    ensures { device_of rec.new ≡ seconding (device_of rec.old) address }
{
    rec[SECOND_NOW] = rec[SECOND_NOW] / RECEIVED * RECEIVED + address;
}
