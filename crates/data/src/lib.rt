// Data or end, and identify (01, What a device does with a frame; 02, b, f and g).
#![tactic(auto)]

ghost use Rattle.std.specs.Prelude.{◌≡◌};
ghost use Rattle.frame.specs.Classes.{IsData, IsIdentify};
ghost use Rattle.frame.specs.Decoding.{decoded};
ghost use Rattle.device.specs.Data.{end_bit, agrees, returned, heard};
ghost use Rattle.device.specs.Take.{takes};
ghost use Rattle.device.specs.declared.Device.{Device};
ghost use Rattle.state.specs.State.{with, in_record, sent_with, sent_from};

use device::{Device, Handed};
use frame::{END, IDY, Message, data_of, idy_of, with_c1};
use poll::answer;
use record::SIZE;
use reply::{ETE, ETO, continues, marked, stops};
use state::{Passed, State, sends};

// END, which is to say C2, counts; C1 does not, since any device may set it.
fn agrees(frame: u16, last: u16) -> bool
    requires { IsData frame × IsData last }
    ensures { result ≡ agrees (decoded frame) (decoded last) }
{
    let came = data_of(frame);
    let sent = data_of(last);
    if came.kind != sent.kind {
        return false;
    }
    if came.offset != sent.offset {
        return false;
    }
    true
}

fn returned(state: State, rec: &[u8; SIZE], frame: u16) -> Passed
    requires { IsData frame × IsData state.last }
    ensures { sent_from rec.now result ≡ returned (in_record rec.now state) (decoded frame) }
{
    if agrees(frame, state.last) {
        if state.noted == 1 {
            return stops(state, ETO);
        }
        return continues(state, rec);
    }
    stops(state, ETE)
}

fn end_bit(message: Message) -> u8
    ensures { result ≡ end_bit message }
{
    if message.kind == END {
        return 1;
    }
    0
}

fn heard(state: State, frame: u16) -> Passed
    requires { IsData frame }
    ensures { (d : Device) → sent_with d result ≡ heard (with d state) (decoded frame) }
{
    let came = data_of(frame);
    let out = marked(state, frame, came.c1);
    if state.listener == 1 {
        return Passed {
            state,
            frame: out,
            handed: Handed::Byte(came.offset, end_bit(came)),
        };
    }
    sends(state, out)
}

// What a device does with a data byte or an end byte.
pub fn data_or_end(state: State, rec: &[u8; SIZE], frame: u16) -> Passed
    requires { IsData frame × IsData state.last }
    ensures { sent_from rec.now result ≡ takes (in_record rec.now state) frame }
{
    if Device::ADDRESSED < state.talker {
        return returned(state, rec, frame);
    }
    heard(state, frame)
}

// IDY goes on in every state, with the device's answer to the poll.
pub fn identify(state: State, rec: &[u8; SIZE], frame: u16) -> Passed
    requires { IsIdentify frame }
    ensures { sent_from rec.now result ≡ takes (in_record rec.now state) frame }
{
    let came = with_c1(IDY, frame);
    let answered = idy_of(came.offset | answer(state, rec), came.c1);
    sends(state, marked(state, answered, came.c1))
}
