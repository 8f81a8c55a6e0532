// Ready frames (01, What a device does with a frame).
#![tactic(auto)]

ghost use Rattle.std.specs.Prelude.{◌≡◌, ◌<◌};
ghost use Rattle.device.specs.Ready.{requested, polls, sst, nrd, aad};
ghost use Rattle.device.specs.Take.{takes_simple};
ghost use Rattle.frame.specs.Classes.{IsReady};
ghost use Rattle.device.specs.declared.Device.{Device};
ghost use Rattle.state.specs.State.{with, in_record, sent_from};

use device::Device;
use frame::Kind;
use record::SIZE;
use record::read::has;
use reply::continues;
use state::{Passed, State, sends};

// SDA, SDI, SAI: the reply of a talker state, where the talker is addressed and has the ability.
fn requested(state: State, rec: &[u8; SIZE], frame: u16, ability: u8, talker: u8) -> Passed
    ensures { sent_from rec.now result ≡
        requested (in_record rec.now state) frame ability talker }
{
    if state.talker == Device::ADDRESSED {
        if has(rec, ability) {
            return continues(state.talking(talker), rec);
        }
        return sends(state, frame);
    }
    sends(state, frame)
}

fn polls(state: State) -> State
    ensures { (d : Device) → with d result ≡ polls (with d state) }
{
    if state.service == Device::ASKING {
        return state.serving(Device::POLLED);
    }
    state
}

// The poll comes before the reply, so that the status byte goes out with no C1 of this device's.
fn sst(state: State, rec: &[u8; SIZE], frame: u16) -> Passed
    ensures { sent_from rec.now result ≡ sst (in_record rec.now state) frame }
{
    if state.talker == Device::ADDRESSED {
        if has(rec, Device::STATUS) {
            return continues(polls(state).talking(Device::SENDING_STATUS), rec);
        }
        return sends(state, frame);
    }
    sends(state, frame)
}

fn nrd(state: State) -> State
    ensures { (d : Device) → with d result ≡ nrd (with d state) }
{
    if Device::ADDRESSED < state.talker {
        return state.noting();
    }
    state
}

// A configured device passes AAD on: taking it again would give two devices one address.
fn aad(state: State, rec: &[u8; SIZE], frame: u16, address: u8) -> Passed
    requires { frame < 65535 }
    ensures { sent_from rec.now result ≡ aad (in_record rec.now state) frame address }
{
    if state.configured == 0 {
        if has(rec, Device::AUTO_ADDRESS) {
            return sends(state.placed(address, 1), frame + 1);
        }
        return sends(state, frame);
    }
    sends(state, frame)
}

// What a simple device does with a ready frame.
pub fn ready(state: State, rec: &[u8; SIZE], frame: u16) -> Passed
    requires { IsReady frame }
    ensures { sent_from rec.now result ≡ takes_simple (in_record rec.now state) frame }
{
    match frame::kind_of(frame) {
        Kind::Sda => requested(state, rec, frame, Device::SEND_DATA, Device::SENDING_DATA),
        Kind::Sst => sst(state, rec, frame),
        Kind::Sdi => requested(
            state,
            rec,
            frame,
            Device::DEVICE_ID,
            Device::SENDING_DEVICE_ID,
        ),
        Kind::Sai => requested(
            state,
            rec,
            frame,
            Device::ACCESSORY_ID,
            Device::SENDING_ACCESSORY_ID,
        ),
        Kind::Nrd => sends(nrd(state), frame),
        Kind::Aad => aad(state, rec, frame, frame::offset_of(Kind::Aad, frame)),
        _ => sends(state, frame),
    }
}
