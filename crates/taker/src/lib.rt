// A device takes a frame: by value, and in its record.
#![tactic(auto)]

ghost use Rattle.std.specs.Prelude.{◌≡◌, length};
ghost use Rattle.frame.specs.Classes.{IsData};
ghost use Rattle.device.specs.Take.{takes};
ghost use Rattle.record.specs.Record.{record_size, device_of};
ghost use Rattle.record.specs.Written.{written};
ghost use Rattle.state.specs.State.{values, in_record};
ghost use Rattle.taker.specs.InPlace.{InPlace};

use commands::command;
use data::{data_or_end, identify};
use extended::{heed, own, owns};
use ready::ready;
use record::SIZE;
use state::{Passed, State, sends};

// The device that takes a frame, by value: the state that the frame can alter.
#[derive(Clone, Copy)]
pub struct Taker(pub State);

// The first command, the first ready frame and the first IDY; what is below the first command is data or end.
const COMMANDS: u16 = 0x400;

const READY: u16 = 0x500;

const IDENTIFY: u16 = 0x600;

// What was passed on, once its state is in the record.
fn put_back(passed: Passed, rec: &mut [u8; SIZE]) -> Passed
    ensures { (result ≡ passed) × (rec.new ≡ written (values passed.state) rec.old) }
{
    let state = passed.state;
    state.write(rec);
    passed
}

impl Taker {
    // By the frame's class (001, control bits); an extended device's own rules come first (02, i). Each class puts its
    // state back by itself: the compiler then sees which values it cannot alter, and can leave some of them out.
    pub fn take(self, rec: &mut [u8; SIZE], frame: u16) -> Passed
        requires { IsData self.0.last }
        ensures { InPlace (takes (in_record rec.old self.0) frame) result rec.new }
    {
        let state = self.0;
        if frame < COMMANDS {
            return put_back(data_or_end(state, rec, frame), rec);
        }
        if frame < IDENTIFY {
            if owns(rec, frame) {
                return put_back(own(state, rec, frame), rec);
            }
            heed(rec, frame);
            if frame < READY {
                return put_back(command(state, rec, frame), rec);
            }
            return put_back(ready(state, rec, frame), rec);
        }
        if frame < frame::FRAMES as u16 {
            return put_back(identify(state, rec, frame), rec);
        }
        put_back(sends(state, frame), rec)
    }
}

// The device of a record, whose last frame sent is a data byte as in every sound one, takes a frame; only bytes that a
// frame can alter are written.
pub fn take_in(rec: &mut [u8], frame: u16) -> Passed
    requires { (length rec.old ≡ record_size) × IsData (device_of rec.old).last }
    ensures { InPlace (takes (device_of rec.old) frame) result rec.new }
{
    match rec.as_mut_array() {
        Some(rec) => Taker(State::read(rec)).take(rec, frame),
        None => unreachable!(),
    }
}
