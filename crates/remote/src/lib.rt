// Remote and local: the code of device's specs/Remote.antt, on the state that a frame can alter (02, d; 001, 2.17).
#![tactic(auto)]

ghost use Rattle.std.specs.Prelude.{◌≡◌};
ghost use Rattle.device.specs.Remote.{ren, nre, moves, moved, to_remote, llo, gtl};
ghost use Rattle.device.specs.declared.Device.{Device};
ghost use Rattle.state.specs.State.{with};

use device::Device;
use state::State;

// The four states, named so that a move is a line.
const LOCS: u8 = Device::LOCS;

const REMS: u8 = Device::REMS;

const LWLS: u8 = Device::LWLS;

const RWLS: u8 = Device::RWLS;

pub fn ren(state: State) -> State
    ensures { (d : Device) → with d result ≡ ren (with d state) }
{
    state.enabling(1)
}

pub fn nre(state: State) -> State
    ensures { (d : Device) → with d result ≡ nre (with d state) }
{
    state.remoting(LOCS).enabling(0)
}

// State a becomes b, and c becomes e; any other stays.
fn moves(state: u8, a: u8, b: u8, c: u8, e: u8) -> u8
    ensures { result ≡ moves state a b c e }
{
    if state == a {
        return b;
    }
    if state == c {
        return e;
    }
    state
}

fn moved(state: State, a: u8, b: u8, c: u8, e: u8) -> State
    ensures { (d : Device) → with d result ≡ moved (with d state) a b c e }
{
    let next = moves(state.remote, a, b, c, e);
    state.remoting(next)
}

// What the device's own LAD does besides; that it is its own, and that it can listen, `lad` asks.
pub fn to_remote(state: State) -> State
    ensures { (d : Device) → with d result ≡ to_remote (with d state) }
{
    if state.enabled == 1 {
        return moved(state, LOCS, REMS, LWLS, RWLS);
    }
    state
}

pub fn llo(state: State) -> State
    ensures { (d : Device) → with d result ≡ llo (with d state) }
{
    if state.enabled != 1 {
        return state;
    }
    moved(state, LOCS, LWLS, REMS, RWLS)
}

// It works while not enabled too.
pub fn gtl(state: State) -> State
    ensures { (d : Device) → with d result ≡ gtl (with d state) }
{
    if state.listener == 1 {
        return moved(state, REMS, LOCS, RWLS, LWLS);
    }
    state
}
