// The replies of a talker (01, What a device does with a frame, from "Reply bytes are DAB"; 02, h), sent from its
// record and counted there.
#![tactic(auto)]

ghost use Rattle.std.specs.Prelude.{◌≡◌, true, ◌<◌, get_or};
ghost use Rattle.frame.specs.Decoding.{has_c1, decoded};
ghost use Rattle.frame.specs.declared.Message.{Message};
ghost use Rattle.device.specs.Change.{loadlength, sent, replied};
ghost use Rattle.device.specs.Reply.{sends, marked, stops, data_frame, other_byte, other_length, sends_data, sends_other};
ghost use Rattle.device.specs.Reply.{continues};
ghost use Rattle.record.specs.Record.{device_of};

use engine_bytes::{count, talk};
use engine_reading::{DAB, END, write};
use engine_table::{
    ACCESSORY_BYTE, ADDRESSED, ASKING, CHOICE, DATA, DATA_LENGTH, DATA_SENT, ID, ID_LENGTH,
    MOST_DATA, MOST_ID, RECORD, REPLY_SENT, SENDS_DATA, SENDS_DEVICE_ID, SENDS_STATUS, SERVICE,
    STATUS_BYTE, TALKER,
};
use frame::Message;

// The frames that end a reply: all of it came back, or not.
pub const ETO: u16 = 0x540;

pub const ETE: u16 = 0x541;

// The frame of a DAB, END or IDY as it goes out: C1 is set where service is asked for, and never cleared.
pub fn marked(rec: &[u8; RECORD], message: Message) -> u16
    requires { (has_c1 message.kind ≡ true) × (message.c1 < 2) }
    ensures { result ≡ marked (device_of rec.now) message }
{
    if rec[SERVICE] == ASKING {
        return write(Message {
            kind: message.kind,
            offset: message.offset,
            c1: 1,
        });
    }
    write(message)
}

// The same of a frame that was read: without service asked for it goes on as it came.
pub fn marked_on(rec: &[u8; RECORD], message: Message, frame: u16) -> u16
    requires { (message ≡ decoded frame) × (has_c1 message.kind ≡ true) }
    ensures { result ≡ marked (device_of rec.now) message }
{
    if rec[SERVICE] != ASKING {
        return frame;
    }
    write(Message {
        kind: message.kind,
        offset: message.offset,
        c1: 1,
    })
}

// The byte of the data, and of the ID, that comes next; 0 past their places.
fn data_next(rec: &[u8; RECORD]) -> u8
    ensures { result ≡ get_or (device_of rec.now).load (device_of rec.now).sent 0 }
{
    let at = rec[DATA_SENT];
    if at < MOST_DATA {
        return rec[DATA + at as usize];
    }
    0
}

fn id_next(rec: &[u8; RECORD]) -> u8
    ensures { result ≡ get_or (device_of rec.now).id (device_of rec.now).replied 0 }
{
    let at = rec[REPLY_SENT];
    if at < MOST_ID {
        return rec[ID + at as usize];
    }
    0
}

// END where the byte is the last and END was chosen.
fn data_frame(rec: &[u8; RECORD]) -> u16
    requires { get_or rec.now sent 0 < get_or rec.now loadlength 0 }
    ensures { result ≡ data_frame (device_of rec.now) }
{
    let offset = data_next(rec);
    if (rec[DATA_SENT] + 1 == rec[DATA_LENGTH]) & (rec[CHOICE] == 1) {
        return marked(
            rec,
            Message {
                kind: END,
                offset,
                c1: 0,
            },
        );
    }
    marked(
        rec,
        Message {
            kind: DAB,
            offset,
            c1: 0,
        },
    )
}

// The next byte of another reply, and how many bytes it has.
fn other_byte(rec: &[u8; RECORD]) -> u8
    ensures { result ≡ other_byte (device_of rec.now) }
{
    if rec[TALKER] == SENDS_STATUS {
        return rec[STATUS_BYTE];
    }
    if rec[TALKER] == SENDS_DEVICE_ID {
        return id_next(rec);
    }
    rec[ACCESSORY_BYTE]
}

fn other_length(rec: &[u8; RECORD]) -> u8
    ensures { result ≡ other_length (device_of rec.now) }
{
    if rec[TALKER] == SENDS_DEVICE_ID {
        return rec[ID_LENGTH];
    }
    1
}

// To state 1 with the answer, ETO or ETE.
pub fn stops(rec: &mut [u8; RECORD], answer: u16) -> u16
    ensures { sends (device_of rec.new) result ≡ stops (device_of rec.old) answer }
{
    talk(rec, ADDRESSED);
    answer
}

fn sends_data(rec: &mut [u8; RECORD]) -> u16
    requires { get_or rec.old sent 0 < get_or rec.old loadlength 0 }
    ensures { sends (device_of rec.new) result ≡ sends_data (device_of rec.old) }
{
    let frame = data_frame(rec);
    let sent = rec[DATA_SENT];
    let replied = rec[REPLY_SENT];
    count(rec, frame, sent + 1, replied);
    frame
}

fn sends_other(rec: &mut [u8; RECORD]) -> u16
    requires { get_or rec.old replied 0 < 255 }
    ensures { sends (device_of rec.new) result ≡ sends_other (device_of rec.old) }
{
    let offset = other_byte(rec);
    let frame = marked(
        rec,
        Message {
            kind: DAB,
            offset,
            c1: 0,
        },
    );
    let sent = rec[DATA_SENT];
    let replied = rec[REPLY_SENT];
    count(rec, frame, sent, replied + 1);
    frame
}

// The next byte of the reply goes out; ETO if nothing is left.
pub fn continues(rec: &mut [u8; RECORD]) -> u16
    ensures { sends (device_of rec.new) result ≡ continues (device_of rec.old) }
{
    if rec[TALKER] == SENDS_DATA {
        if rec[DATA_SENT] < rec[DATA_LENGTH] {
            return sends_data(rec);
        }
        return stops(rec, ETO);
    }
    if rec[REPLY_SENT] < other_length(rec) {
        return sends_other(rec);
    }
    stops(rec, ETO)
}
