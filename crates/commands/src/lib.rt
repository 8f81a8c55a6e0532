// Commands (01, What a device does with a frame; 02, d and f): each goes on unchanged, with the state after it and the
// clear or trigger that it is.
#![tactic(auto)]

ghost use Rattle.std.specs.Prelude.{◌≡◌};
ghost use Rattle.device.specs.Clear.{reports, to_listener};
ghost use Rattle.device.specs.Commands.{lad, tad, aau};
ghost use Rattle.device.specs.Take.{takes_simple};
ghost use Rattle.device.specs.declared.Device.{Device};
ghost use Rattle.frame.specs.Classes.{IsCommand};
ghost use Rattle.state.specs.State.{with, in_record, sent_with, sent_from};

use device::{Device, Handed};
use frame::Kind;
use poll::{ppd, ppe, ppu};
use record::read::{has, talks};
use record::{FIXED, SIZE};
use remote::{gtl, llo, nre, ren, to_remote};
use state::{Passed, State, sends};

fn lad(state: State, rec: &[u8; SIZE], address: u8) -> State
    ensures { in_record rec.now result ≡ lad (in_record rec.now state) address }
{
    if address == state.address {
        if has(rec, Device::LISTEN) {
            let moved = to_remote(state);
            if has(rec, Device::UNADDRESS) {
                return moved.roles(1, Device::IDLE);
            }
            return moved.listening(1);
        }
        return state;
    }
    state
}

fn tad(state: State, rec: &[u8; SIZE], address: u8) -> State
    ensures { in_record rec.now result ≡ tad (in_record rec.now state) address }
{
    if address == state.address {
        if talks(rec) {
            if has(rec, Device::UNADDRESS) {
                return state.roles(0, Device::ADDRESSED);
            }
            return state.talking(Device::ADDRESSED);
        }
        return state.talking(Device::IDLE);
    }
    state.talking(Device::IDLE)
}

fn aau(state: State, rec: &[u8; SIZE]) -> State
    ensures { in_record rec.now result ≡ aau (in_record rec.now state) }
{
    if has(rec, Device::AUTO_ADDRESS) {
        return state.placed(rec[FIXED], 0);
    }
    state
}

fn reports(state: State, frame: u16, event: Handed) -> Passed
    ensures { (d : Device) → sent_with d result ≡ reports (with d state) frame event }
{
    Passed {
        state,
        frame,
        handed: event,
    }
}

fn to_listener(state: State, frame: u16, event: Handed) -> Passed
    ensures { (d : Device) → sent_with d result ≡ to_listener (with d state) frame event }
{
    if state.listener == 1 {
        return reports(state, frame, event);
    }
    sends(state, frame)
}

// What a simple device does with a command.
pub fn command(state: State, rec: &[u8; SIZE], frame: u16) -> Passed
    requires { IsCommand frame }
    ensures { sent_from rec.now result ≡ takes_simple (in_record rec.now state) frame }
{
    match frame::kind_of(frame) {
        Kind::Lad => sends(lad(state, rec, frame::offset_of(Kind::Lad, frame)), frame),
        Kind::Unl => sends(state.listening(0), frame),
        Kind::Tad => sends(tad(state, rec, frame::offset_of(Kind::Tad, frame)), frame),
        Kind::Unt => sends(state.talking(Device::IDLE), frame),
        Kind::Ifc => sends(state.roles(0, Device::IDLE), frame),
        Kind::Aau => sends(aau(state, rec), frame),
        Kind::Dcl => reports(state, frame, Handed::Clear),
        Kind::Sdc => to_listener(state, frame, Handed::Clear),
        Kind::Get => to_listener(state, frame, Handed::Trigger),
        Kind::Ren => sends(ren(state), frame),
        Kind::Nre => sends(nre(state), frame),
        Kind::Llo => sends(llo(state), frame),
        Kind::Gtl => sends(gtl(state), frame),
        Kind::Ppe => sends(ppe(state, rec, frame::offset_of(Kind::Ppe, frame)), frame),
        Kind::Ppd => sends(ppd(state), frame),
        Kind::Ppu => sends(ppu(state), frame),
        _ => sends(state, frame),
    }
}
