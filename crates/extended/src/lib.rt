// Extended addresses (02, i): what an extended device does with the frames that it has rules of its own for, and where
// it begins with any other command. Bytes 20 and 21 are written where they lie, all else changes in the state.
#![tactic(auto)]

ghost use Rattle.std.specs.Prelude.{◌≡◌, true, ◌&&◌, ◌≤◌, ◌<◌};
ghost use Rattle.frame.specs.Messages.{kind_at};
ghost use Rattle.device.specs.Device.{extended, received, has_further};
ghost use Rattle.device.specs.Choose.{choose};
ghost use Rattle.device.specs.Change.{flagging, seconding};
ghost use Rattle.device.specs.Extended.{heeding, extended_lad, extended_tad, sad_listens, sad_talks, sad, extended_aau};
ghost use Rattle.device.specs.Extended.{aes, aep};
ghost use Rattle.device.specs.Take.{takes_extended};
ghost use Rattle.record.specs.Record.{device_of, record_of};
ghost use Rattle.state.specs.State.{in_record};
ghost use Rattle.extended.specs.Own.{is_own, Stands, Does};

use device::Device;
use frame::Kind;
use record::read::{has, has_further, talks};
use record::{FIXED, FIXED_SECOND, SECOND, SIZE};
use remote::to_remote;
use state::{Passed, State, sends};

// The first and the last kind of a command.
const NUL: u8 = 3;

const DDT: u8 = 24;

// Each flag is 0 or RECEIVED, in front of its second address.
fn flag(rec: &mut [u8; SIZE], listen: u8, talk: u8)
    requires { (listen ≤ received) × (talk ≤ received) }
    ensures { rec.new ≡ record_of (flagging (device_of rec.old) listen talk) }
{
    let fixed = rec[FIXED_SECOND] % Device::RECEIVED;
    let present = rec[SECOND] % Device::RECEIVED;
    rec[FIXED_SECOND] = fixed + listen;
    rec[SECOND] = present + talk;
}

// A present second address, the flag in front of it as it was.
fn take_second(rec: &mut [u8; SIZE], address: u8)
    requires { address < received }
    ensures { rec.new ≡ record_of (seconding (device_of rec.old) address) }
{
    rec[SECOND] = rec[SECOND] / Device::RECEIVED * Device::RECEIVED + address;
}

// A primary is received; listener and talker wait for the second address.
fn lad(state: State, rec: &mut [u8; SIZE], address: u8) -> State
    ensures { Stands (extended_lad (in_record rec.old state) address) result rec.new }
{
    if address == state.address {
        if has(rec, Device::LISTEN) {
            flag(rec, Device::RECEIVED, 0);
            return to_remote(state);
        }
        flag(rec, 0, 0);
        return state;
    }
    flag(rec, 0, 0);
    state
}

fn tad(state: State, rec: &mut [u8; SIZE], address: u8) -> State
    ensures { Stands (extended_tad (in_record rec.old state) address) result rec.new }
{
    if address == state.address {
        if talks(rec) {
            flag(rec, 0, Device::RECEIVED);
            return state;
        }
        flag(rec, 0, 0);
        return state.talking(Device::IDLE);
    }
    flag(rec, 0, 0);
    state.talking(Device::IDLE)
}

fn sad_listens(state: State, rec: &[u8; SIZE]) -> State
    ensures { in_record rec.now result ≡ sad_listens (in_record rec.now state) }
{
    if Device::RECEIVED <= rec[FIXED_SECOND] {
        if has(rec, Device::LISTEN) {
            if has(rec, Device::UNADDRESS) {
                return state.roles(1, Device::IDLE);
            }
            return state.listening(1);
        }
        return state;
    }
    state
}

fn sad_talks(state: State, rec: &[u8; SIZE]) -> State
    ensures { in_record rec.now result ≡ sad_talks (in_record rec.now state) }
{
    if Device::RECEIVED <= rec[SECOND] {
        if talks(rec) {
            if has(rec, Device::UNADDRESS) {
                return state.roles(0, Device::ADDRESSED);
            }
            return state.talking(Device::ADDRESSED);
        }
        return state;
    }
    state
}

fn sad(state: State, rec: &mut [u8; SIZE], address: u8) -> State
    ensures { Stands (sad (in_record rec.old state) address) result rec.new }
{
    if address == rec[SECOND] % Device::RECEIVED {
        return sad_talks(sad_listens(state, rec), rec);
    }
    if Device::RECEIVED <= rec[SECOND] {
        flag(rec, 0, 0);
        return state.talking(Device::IDLE);
    }
    flag(rec, 0, 0);
    state
}

fn aau(state: State, rec: &mut [u8; SIZE]) -> State
    ensures { Stands (extended_aau (in_record rec.old state)) result rec.new }
{
    let fixed = rec[FIXED];
    let second = rec[FIXED_SECOND] % Device::RECEIVED;
    flag(rec, 0, 0);
    take_second(rec, second);
    state.placed(fixed, 0)
}

// A device that has a second address passes AES on: taking it again would give two devices one address.
fn aes(state: State, rec: &mut [u8; SIZE], frame: u16, address: u8) -> Passed
    requires { (frame < 65535) × (address < received) }
    ensures { Does (aes (in_record rec.old state) frame address) result rec.new }
{
    if state.configured == 0 {
        take_second(rec, address);
        let primary = state.address;
        return sends(state.placed(primary, Device::HALF_ASSIGNED), frame + 1);
    }
    sends(state, frame)
}

fn aep(state: State, rec: &[u8; SIZE], address: u8) -> State
    ensures { in_record rec.now result ≡ aep (in_record rec.now state) address }
{
    if state.configured == Device::HALF_ASSIGNED {
        if rec[SECOND] % Device::RECEIVED < Device::NO_ADDRESS {
            return state.placed(address, 1);
        }
        return state;
    }
    state
}

// Whether a frame is of one of those kinds.
fn is_own(frame: u16) -> bool
    requires { (0x400 ≤ frame) × (frame < 0x600) }
    ensures { result ≡ is_own (kind_at frame) }
{
    match frame::kind_of(frame) {
        Kind::Lad => true,
        Kind::Tad => true,
        Kind::Sad => true,
        Kind::Aau => true,
        Kind::Aad => true,
        Kind::Aes => true,
        Kind::Aep => true,
        _ => false,
    }
}

// Whether the device is extended and the frame is one that it has a rule of its own for.
pub fn owns(rec: &[u8; SIZE], frame: u16) -> bool
    requires { (0x400 ≤ frame) × (frame < 0x600) }
    ensures { result ≡ (has_further (device_of rec.now) extended && is_own (kind_at frame)) }
{
    if has_further(rec, Device::EXTENDED) {
        return is_own(frame);
    }
    false
}

// What it does with such a frame.
pub fn own(state: State, rec: &mut [u8; SIZE], frame: u16) -> Passed
    requires { (0x400 ≤ frame) × (frame < 0x600) × (is_own (kind_at frame) ≡ true) }
    ensures { Does (takes_extended (in_record rec.old state) frame) result rec.new }
{
    match frame::kind_of(frame) {
        Kind::Lad => sends(lad(state, rec, frame::offset_of(Kind::Lad, frame)), frame),
        Kind::Tad => sends(tad(state, rec, frame::offset_of(Kind::Tad, frame)), frame),
        Kind::Sad => sends(sad(state, rec, frame::offset_of(Kind::Sad, frame)), frame),
        Kind::Aau => sends(aau(state, rec), frame),
        Kind::Aad => sends(state, frame),
        Kind::Aes => aes(state, rec, frame, frame::offset_of(Kind::Aes, frame)),
        Kind::Aep => sends(aep(state, rec, frame::offset_of(Kind::Aep, frame)), frame),
        _ => sends(state, frame),
    }
}

// Where it begins with any other frame, and where a simple device does: a command, which is not its own, clears both
// flags of an extended one.
pub fn heed(rec: &mut [u8; SIZE], frame: u16)
    ensures { rec.new ≡ record_of (choose (has_further (device_of rec.old) extended)
        (heeding (device_of rec.old) (kind_at frame)) (device_of rec.old)) }
{
    if has_further(rec, Device::EXTENDED) {
        let kind = frame::number(frame::kind_of(frame));
        if (NUL <= kind) & (kind <= DDT) {
            flag(rec, 0, 0);
            return;
        }
        return;
    }
}
