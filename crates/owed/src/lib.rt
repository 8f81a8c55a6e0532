// How many hops the frames in the links still owe (02, k): each frame one for every device ahead of it.
#![tactic(auto)]

ghost use Rattle.std.specs.Prelude.{◌≡◌, length};
ghost use Rattle.area.specs.Loop.{judge_of, loop_of, link, HasLink};
ghost use Rattle.order.specs.Owed.{owed as owedBy};
ghost use Rattle.calls.specs.Owed.{owed_of};

use area::DEPTH;
use area::lookup::{devices_in, room_at};
use calls::OwedAnswer;
use judge::judge;

// How many frames link j holds: as many as one more goes behind, or else all that it can.
fn frames_at(area: &[u8], j: usize) -> usize
    requires { HasLink area.now j }
    ensures { result ≡ length (link (loop_of area.now) j) }
{
    room_at(area, j).unwrap_or(DEPTH)
}

// The hops owed in an area without a refusal: ahead of a link are as many devices as further links, of the tail none.
fn owed_in(area: &[u8]) -> u32
    requires { judge_of area.now ≡ 0 }
    ensures { result ≡ owedBy (loop_of area.now).links }
{
    let devices = devices_in(area);
    let mut hops: usize = 0;
    for j in 0..devices {
        let frames = frames_at(area, j);
        hops += frames * (devices - j);
    }
    hops as u32
}

pub fn owed(area: &[u8]) -> OwedAnswer
    ensures { result ≡ owed_of area.now }
{
    match judge(area) {
        Ok(()) => OwedAnswer {
            hops: owed_in(area),
            refusal: 0,
        },
        Err(refusal) => OwedAnswer {
            hops: 0,
            refusal: refusal.number(),
        },
    }
}
