// A frame sent right round: put, a hop of each device, take, and the lines that tell of them.
#![tactic(auto)]

ghost use Rattle.std.specs.Prelude.{◌≡◌, ◌+◌, ◌≤◌, ◌<◌, length};
ghost use Rattle.area.specs.Loop.{judge_of};
ghost use Rattle.round.specs.Round.{handed, round_text, round_area, text_room, Hopped};
ghost use Rattle.text.specs.Out.{hand_size};
ghost use Rattle.text.specs.Write.{Wrote};

use area::lookup::devices_in;
use calls::HopAnswer;
use ends::put::put;
use ends::take::take;
use hop::hop_at;
use text::{frame_line, hand_line};

// The line of a byte handed to a device, if any was.
fn hand(out: &mut [u8], at: usize, device: usize, hop: HopAnswer) -> usize
    requires { (device < 100) × (at + hand_size ≤ length out.old) }
    ensures { Wrote (handed device hop) at out.old result out.new }
{
    if hop.handed == 1 {
        return hand_line(out, at, device, hop.byte, hop.end);
    }
    at
}

// Each device hops, in the loop's order.
fn hops(area: &mut [u8], out: &mut [u8]) -> usize
    requires { (judge_of area.old ≡ 0) × (text_room ≤ length out.old) }
    ensures { Hopped area.old out.old result area.new out.new }
{
    let n = devices_in(area);
    let mut at = 0;
    for i in 0..n {
        let hop = hop_at(area, i);
        at = hand(out, at, i, hop);
    }
    at
}

// The whole way of a frame.
pub fn round(area: &mut [u8], frame: u16, out: &mut [u8]) -> usize
    requires { (judge_of area.old ≡ 0) × (text_room ≤ length out.old) }
    ensures area_after { area.new ≡ round_area frame area.old }
    ensures wrote { Wrote (round_text frame area.old) 0 out.old result out.new }
{
    // From rest it is not refused (specs/Laws.antt, NeverRefused).
    let _ = put(area, frame as u64);
    let at = hops(area, out);
    let taken = take(area);
    frame_line(out, at, frame, taken.frame)
}
