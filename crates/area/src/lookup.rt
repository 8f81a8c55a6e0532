// What is looked up in an area without a refusal: its devices, their places, each link's oldest frame and room.
ghost use Rattle.std.specs.Prelude.{◌≡◌, ◌≤◌};
ghost use Rattle.record.specs.Record.{record_size};
ghost use Rattle.area.specs.Sizes.{link_size, most_devices, record_at, link_at, Starts};
ghost use Rattle.area.specs.Loop.{judge_of, loop_of, size, link, HasDevice, HasLink};
ghost use Rattle.area.specs.Lookup.{oldest_of, room_of, place_of};

use crate::link::{oldest_in, room_in};
use crate::{HEADER_SIZE, LINK_SIZE};

pub fn devices_in(area: &[u8]) -> usize
    requires { judge_of area.now ≡ 0 }
    ensures { (result ≡ size (loop_of area.now)) × (result ≤ most_devices) }
{
    area[0] as usize
}

pub fn place_of(area: &[u8], device: u64) -> Option<usize>
    requires { judge_of area.now ≡ 0 }
    ensures { result ≡ place_of (loop_of area.now) device }
{
    let i = device as usize;
    (i < devices_in(area)).then_some(i)
}

// Where record i starts.
pub fn record_start(area: &[u8], i: usize) -> usize
    requires { HasDevice area.now i }
    ensures { Starts result (record_at i) record_size area.now }
{
    HEADER_SIZE + record::SIZE * i
}

// Where link j starts.
pub fn link_start(area: &[u8], j: usize) -> usize
    requires { HasLink area.now j }
    ensures { Starts result (link_at (size (loop_of area.now)) j) link_size area.now }
{
    HEADER_SIZE + record::SIZE * devices_in(area) + LINK_SIZE * j
}

pub fn oldest_at(area: &[u8], j: usize) -> Option<u16>
    requires { HasLink area.now j }
    ensures { result ≡ oldest_of (link (loop_of area.now) j) }
{
    let at = link_start(area, j);
    oldest_in(&area[at..at + LINK_SIZE])
}

pub fn room_at(area: &[u8], j: usize) -> Option<usize>
    requires { HasLink area.now j }
    ensures { result ≡ room_of (link (loop_of area.now) j) }
{
    let at = link_start(area, j);
    room_in(&area[at..at + LINK_SIZE])
}
