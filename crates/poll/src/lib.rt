// Parallel poll: the code of device's specs/Poll.antt, on the state that a frame can alter, with the status in the
// record lent beside it (02, f; 001, 2.12).
#![tactic(auto)]

ghost use Rattle.std.specs.Prelude.{◌≡◌, ◌<◌};
ghost use Rattle.device.specs.Choose.{choose};
ghost use Rattle.device.specs.Change.{assigning};
ghost use Rattle.device.specs.Poll.{unassigned, ppe, ppd, ppu, answer};
ghost use Rattle.device.specs.declared.Device.{Device};
ghost use Rattle.state.specs.State.{with, in_record};

use device::Device;
use record::read::has_further;
use record::{POLL_STATUS, SIZE};
use state::State;

pub fn ppe(state: State, rec: &[u8; SIZE], sbbb: u8) -> State
    requires { sbbb < 16 }
    ensures { in_record rec.now result ≡ ppe (in_record rec.now state) sbbb }
{
    if state.listener != 1 {
        return state;
    }
    if has_further(rec, Device::PARALLEL_POLL) {
        return state.assigning(Device::ASSIGNMENT + sbbb);
    }
    state
}

// Sense and bit are taken away, if the message acts here.
fn unassign(state: State, here: bool) -> State
    ensures { (d : Device) → with d result ≡ choose here (assigning (with d state) unassigned) (with d state) }
{
    if here {
        return state.assigning(Device::UNASSIGNED);
    }
    state
}

pub fn ppd(state: State) -> State
    ensures { (d : Device) → with d result ≡ ppd (with d state) }
{
    unassign(state, state.listener == 1)
}

pub fn ppu(state: State) -> State
    ensures { (d : Device) → with d result ≡ ppu (with d state) }
{
    unassign(state, true)
}

// What the device adds to the data bits of an IDY.
pub fn answer(state: State, rec: &[u8; SIZE]) -> u8
    ensures { result ≡ answer (in_record rec.now state) }
{
    if Device::UNASSIGNED < state.assigned {
        if rec[POLL_STATUS] == state.assigned / 8 % 2 {
            return 1 << (state.assigned % 8);
        }
        return 0;
    }
    0
}
