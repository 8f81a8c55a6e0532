// Hop: a device takes its oldest frame and sends one into the next link.
#![tactic(auto)]

ghost use Rattle.std.specs.Prelude.{◌≡◌};
ghost use Rattle.area.specs.Loop.{loop_of, Holds, HasDevice};
ghost use Rattle.area.specs.Lookup.{set_device};
ghost use Rattle.calls.specs.Outcome.{Is, after_of};
ghost use Rattle.calls.specs.Calls.{no_hop, hop_answer, sent_by, passed, hop_in, hop_of};
ghost use Rattle.calls.specs.Inner.{Passes as CanPass};
ghost use Rattle.refusal.specs.Refusal.{number};
ghost use Rattle.taker.specs.InPlace.{Passes};

use area::change::{add_at, remove_at};
use area::lookup::{oldest_at, record_start, room_at};
use calls::{CLEAR, HopAnswer, NO_EVENT, TRIGGER};
use device::Handed;
use find::find;
use refusal::Refusal;
use state::Passed;
use taker::take_in;

fn no_hop(refusal: Refusal) -> HopAnswer
    ensures { result ≡ no_hop (number refusal) }
{
    HopAnswer {
        frame: 0,
        refusal: refusal.number(),
        handed: 0,
        byte: 0,
        end: 0,
        event: NO_EVENT,
    }
}

// What a hop that handed no byte answers.
fn no_byte(frame: u16, event: u8) -> HopAnswer
    ensures { result ≡ record { frame = frame; refusal = 0; handed = 0; byte = 0; end = 0; event = event } }
{
    HopAnswer {
        frame,
        refusal: 0,
        handed: 0,
        byte: 0,
        end: 0,
        event,
    }
}

// What a hop sent, and the byte handed or the event reported, if any.
fn hop_answer(passed: Passed) -> HopAnswer
    ensures { result ≡ hop_answer passed.frame passed.handed }
{
    let frame = passed.frame;
    let handed = passed.handed;
    match handed {
        Handed::Byte(byte, end) => HopAnswer {
            frame,
            refusal: 0,
            handed: 1,
            byte,
            end,
            event: NO_EVENT,
        },
        Handed::Clear => no_byte(frame, CLEAR),
        Handed::Trigger => no_byte(frame, TRIGGER),
        Handed::Nothing => no_byte(frame, NO_EVENT),
    }
}

// Device i takes a frame in its record.
fn take_at(area: &mut [u8], i: usize, frame: u16) -> Passed
    requires { HasDevice area.old i }
    ensures passes { Passes (sent_by i frame (loop_of area.old)) result }
    ensures holds { Holds area.new
        (set_device i (sent_by i frame (loop_of area.old)).device (loop_of area.old)) }
{
    let at = record_start(area, i);
    take_in(&mut area[at..at + record::SIZE], frame)
}

// Device i takes a frame, its oldest, and sends one, for which there is room.
fn pass_on(area: &mut [u8], i: usize, frame: u16, behind: usize) -> Passed
    requires { CanPass area.old i frame behind }
    ensures passes { Passes (sent_by i frame (loop_of area.old)) result }
    ensures holds { Holds area.new (passed i frame (loop_of area.old)) }
{
    let passed = take_at(area, i, frame);
    remove_at(area, i);
    add_at(area, i + 1, behind, passed.frame);
    passed
}

// A hop of device i in an area without a refusal.
#[tactic(auto, using(area::proofs::Areas::few_devices, calls::proofs::Outcomes::ways))]
pub fn hop_at(area: &mut [u8], i: usize) -> HopAnswer
    requires { HasDevice area.old i }
    ensures { Is (after_of no_hop area.old (hop_in i (loop_of area.old))) result
        area.new }
{
    let Some(frame) = oldest_at(area, i) else {
        return no_hop(Refusal::Empty);
    };
    let Some(behind) = room_at(area, i + 1) else {
        return no_hop(Refusal::Full);
    };
    hop_answer(pass_on(area, i, frame, behind))
}

pub fn hop(area: &mut [u8], device: u64) -> HopAnswer
    ensures { Is (hop_of area.old device) result area.new }
{
    match find(area, device) {
        Ok(i) => hop_at(area, i),
        Err(refusal) => no_hop(refusal),
    }
}
