// The changes made to an area without a refusal; each leaves the whole area that of the changed loop.
ghost use Rattle.std.specs.Prelude.{◌≡◌, ◌≤◌, ◌<◌, length, Some};
ghost use Rattle.frame.specs.Messages.{frames};
ghost use Rattle.record.specs.Fits.{Good};
ghost use Rattle.area.specs.Sizes.{most_devices, area_size};
ghost use Rattle.area.specs.Loop.{loop_of, link, Holds, HasDevice, HasLink};
ghost use Rattle.area.specs.Lookup.{room_of, add, remove, set_device, blank_of};

use crate::LINK_SIZE;
use crate::link::{append, drop_oldest};
use crate::lookup::{link_start, record_start};
use device::Device;

// Link j loses its oldest frame.
pub fn remove_at(area: &mut [u8], j: usize)
    requires { HasLink area.old j × (0 < length (link (loop_of area.old) j)) }
    ensures { Holds area.new (remove j (loop_of area.old)) }
{
    let at = link_start(area, j);
    drop_oldest(&mut area[at..at + LINK_SIZE]);
}

// Link j gets a frame, behind as many as `room_at` said.
pub fn add_at(area: &mut [u8], j: usize, behind: usize, frame: u16)
    requires { HasLink area.old j × (room_of (link (loop_of area.old) j) ≡ Some behind) ×
        (frame < frames) }
    ensures { Holds area.new (add j frame (loop_of area.old)) }
{
    let at = link_start(area, j);
    append(&mut area[at..at + LINK_SIZE], behind, frame);
}

// Device i becomes another.
pub fn set_device(area: &mut [u8], i: usize, d: Device)
    requires { HasDevice area.old i × Good d }
    ensures { Holds area.new (set_device i d (loop_of area.old)) }
{
    let at = record_start(area, i);
    let (_, rest) = area.split_at_mut(at);
    record_write::write(rest.first_chunk_mut().unwrap(), d);
}

// An area of n devices that are all zero, with empty links.
pub fn blank(area: &mut [u8], n: usize)
    requires { (1 ≤ n) × (n ≤ most_devices) × (length area.old ≡ area_size n) }
    ensures { Holds area.new (blank_of n) }
{
    record_write::clear(area);
    area[0] = n as u8;
}
