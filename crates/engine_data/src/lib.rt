// Data or end, and identify, at a record (01, What a device does with a frame; 02, b, f and g): the record after each,
// the frame that goes out and the byte handed over.
#![tactic(auto)]

ghost use Rattle.std.specs.Prelude.{◌≡◌, true, ◌<◌};
ghost use Rattle.frame.specs.Decoding.{has_c1, decoded};
ghost use Rattle.device.specs.Data.{agrees, end_bit, returned, heard, data_or_end, idy};
ghost use Rattle.device.specs.Reply.{sends};
ghost use Rattle.record.specs.Record.{device_of};
ghost use Rattle.engine_data.specs.Passed.{sent};

use device::Handed;
use engine_poll::answer;
use engine_reading::{END, read};
use engine_reply::{ETE, ETO, continues, marked, marked_on, stops};
use engine_table::{ADDRESSED, LAST_HIGH, LAST_LOW, LISTENER, NRD_SEEN, RECORD, TALKER};
use frame::Message;

// What goes out of a device, and what it handed over.
#[derive(Clone, Copy)]
pub struct Passed {
    pub frame: u16,
    pub handed: Handed,
}

// The last frame sent, read as the one come back was: kind, which has C2, and data bits count, and C1 does not.
fn agrees(rec: &[u8; RECORD], message: Message) -> bool
    ensures { result ≡ agrees message (decoded (device_of rec.now).last) }
{
    let last = read(rec[LAST_LOW] as u16 + 256 * rec[LAST_HIGH] as u16);
    (message.kind == last.kind) & (message.offset == last.offset)
}

// Its own frame come back.
fn returned(rec: &mut [u8; RECORD], message: Message) -> u16
    ensures { sends (device_of rec.new) result ≡ returned (device_of rec.old) message }
{
    if agrees(rec, message) {
        if rec[NRD_SEEN] == 1 {
            return stops(rec, ETO);
        }
        return continues(rec);
    }
    stops(rec, ETE)
}

fn end_bit(message: Message) -> u8
    ensures { result ≡ end_bit message }
{
    if message.kind != END {
        return 0;
    }
    1
}

// A listener is handed the byte, and the frame goes on.
fn heard(rec: &[u8; RECORD], message: Message, frame: u16) -> Passed
    requires { (message ≡ decoded frame) × (has_c1 message.kind ≡ true) }
    ensures { sent rec.now result ≡ heard (device_of rec.now) message }
{
    let out = marked_on(rec, message, frame);
    if rec[LISTENER] != 1 {
        return Passed {
            frame: out,
            handed: Handed::Nothing,
        };
    }
    Passed {
        frame: out,
        handed: Handed::Byte(message.offset, end_bit(message)),
    }
}

pub fn data_or_end(rec: &mut [u8; RECORD], message: Message, frame: u16) -> Passed
    requires { (message ≡ decoded frame) × (has_c1 message.kind ≡ true) }
    ensures { sent rec.new result ≡ data_or_end (device_of rec.old) message }
{
    if rec[TALKER] <= ADDRESSED {
        return heard(rec, message, frame);
    }
    let out = returned(rec, message);
    Passed {
        frame: out,
        handed: Handed::Nothing,
    }
}

// IDY goes on with the device's answer to the poll among its bits.
pub fn identify(rec: &[u8; RECORD], message: Message) -> u16
    requires { (has_c1 message.kind ≡ true) × (message.c1 < 2) }
    ensures { sends (device_of rec.now) result ≡ idy (device_of rec.now) message }
{
    let bits = answer(rec);
    marked(
        rec,
        Message {
            kind: message.kind,
            offset: message.offset | bits,
            c1: message.c1,
        },
    )
}
