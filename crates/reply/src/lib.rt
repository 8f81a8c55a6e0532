// The replies of a talker (01, What a device does with a frame, from "Reply bytes are DAB"; 02, h).
#![tactic(auto)]

ghost use Rattle.std.specs.Prelude.{◌≡◌, ◌*◌, ◌≤◌, ◌<◌};
ghost use Rattle.frame.specs.Messages.{frames};
ghost use Rattle.frame.specs.Decoding.{c1_adds, frame_of};
ghost use Rattle.frame.specs.declared.Message.{Message};
ghost use Rattle.device.specs.Reply.{marked, stops, data_frame, other_byte, other_length, sends_data, sends_other};
ghost use Rattle.device.specs.Reply.{continues};
ghost use Rattle.device.specs.declared.Device.{Device};
ghost use Rattle.state.specs.State.{with, in_record, sent_with, sent_from};

use device::Device;
use frame::{C1, C2};
use record::read::{id_at, load_at};
use record::{ACCESSORY, CHOICE, ID_LENGTH, LOAD_LENGTH, SIZE, STATUS};
use state::{Passed, State, sends};

pub const ETO: u16 = 0x540;

pub const ETE: u16 = 0x541;

// The frame of a message, with the message's C1 beside it, as it goes out: C1 is set where service is asked for, and
// never cleared.
pub fn marked(state: State, frame: u16, c1: u8) -> u16
    requires { (frame < frames) × (c1 < 2) × (c1_adds * c1 ≤ frame) }
    ensures { (d : Device) (m : Message) → frame ≡ frame_of m → c1 ≡ m.c1 → result ≡ marked (with d state) m }
{
    if state.service == Device::ASKING {
        if c1 == 1 {
            return frame;
        }
        return frame + C1;
    }
    frame
}

// To state 1 with the answer, ETO or ETE.
pub fn stops(state: State, answer: u16) -> Passed
    ensures { (d : Device) → sent_with d result ≡ stops (with d state) answer }
{
    sends(state.talking(Device::ADDRESSED), answer)
}

fn data_frame(state: State, rec: &[u8; SIZE]) -> u16
    requires { state.sent < 255 }
    ensures { result ≡ data_frame (in_record rec.now state) }
{
    let byte = load_at(rec, state.sent) as u16;
    if (state.sent + 1 == rec[LOAD_LENGTH]) & (rec[CHOICE] == Device::END_LAST) {
        return marked(state, C2 + byte, 0);
    }
    marked(state, byte, 0)
}

fn other_byte(state: State, rec: &[u8; SIZE]) -> u8
    ensures { result ≡ other_byte (in_record rec.now state) }
{
    if state.talker == Device::SENDING_STATUS {
        return rec[STATUS];
    }
    if state.talker == Device::SENDING_DEVICE_ID {
        return id_at(rec, state.replied);
    }
    rec[ACCESSORY]
}

fn other_length(state: State, rec: &[u8; SIZE]) -> u8
    ensures { result ≡ other_length (in_record rec.now state) }
{
    if state.talker == Device::SENDING_DEVICE_ID {
        return rec[ID_LENGTH];
    }
    1
}

fn send_data(state: State, rec: &[u8; SIZE]) -> Passed
    requires { state.sent < 255 }
    ensures { sent_from rec.now result ≡ sends_data (in_record rec.now state) }
{
    let frame = data_frame(state, rec);
    sends(state.counting(frame, state.sent + 1, state.replied), frame)
}

fn send_other(state: State, rec: &[u8; SIZE]) -> Passed
    requires { state.replied < 255 }
    ensures { sent_from rec.now result ≡ sends_other (in_record rec.now state) }
{
    let byte = other_byte(state, rec) as u16;
    let frame = marked(state, byte, 0);
    sends(state.counting(frame, state.sent, state.replied + 1), frame)
}

// The next byte of the reply, or ETO if nothing is left.
pub fn continues(state: State, rec: &[u8; SIZE]) -> Passed
    ensures { sent_from rec.now result ≡ continues (in_record rec.now state) }
{
    if state.talker == Device::SENDING_DATA {
        if state.sent < rec[LOAD_LENGTH] {
            return send_data(state, rec);
        }
        return stops(state, ETO);
    }
    if state.replied < other_length(state, rec) {
        return send_other(state, rec);
    }
    stops(state, ETO)
}
