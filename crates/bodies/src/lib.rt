// The area that a save holds: judged in its place, body by body, and read.
#![tactic(auto)]

ghost use Rattle.std.specs.Prelude.{◌≡◌, map, ◌+◌, ◌*◌, ◌≤◌, length};
ghost use Rattle.record.specs.Record.{record_size};
ghost use Rattle.area.specs.Sizes.{header_size, area_size};
ghost use Rattle.area.specs.Parts.{parts, join, all};
ghost use Rattle.area.specs.Loop.{sound};
ghost use Rattle.saved.specs.Saved.{head_size, without_edition, saved_device_size, saved_link_size, body, contents};
ghost use Rattle.saved.specs.Inner.{sound_device_in, sound_link_in, SaveOf};

use area::runs::{all_parts, make_parts};
use area::{HEADER_SIZE, LINK_SIZE};
use judge::contents::{links_sound, records_sound, rest_zero};
use saved::{DEVICE_RECORD, HEAD_SIZE, HEADER_RECORD, LINK_RECORD, fill, links_at};

// Whether the body of a device's record is sound. It is judged as a row of one, by the pass over areas, so that the
// compiler keeps its tests there.
fn device_body_sound(record: &[u8]) -> bool
    requires { length record.now ≡ saved_device_size }
    ensures { result ≡ sound_device_in record.now }
{
    records_sound(&record[HEAD_SIZE..], 1)
}

// Whether that of a link's is.
fn link_body_sound(record: &[u8]) -> bool
    requires { length record.now ≡ saved_link_size }
    ensures { result ≡ sound_link_in record.now }
{
    links_sound(&record[HEAD_SIZE..], 1)
}

// Whether the area that a save of n devices holds is sound. Byte 1 of its header is the edition, which the form judges.
pub fn bodies_sound(save: &[u8], n: usize) -> bool
    requires { SaveOf n save.now }
    ensures { result ≡ sound (contents save.now) }
{
    let links = links_at(n);
    rest_zero(&save[HEAD_SIZE..])
        & (all_parts(&save[HEADER_RECORD..], DEVICE_RECORD, n, device_body_sound)
            & all_parts(&save[links..], LINK_RECORD, n + 1, link_body_sound))
}

// The bodies of so many records, each of one size.
fn read_run(records: &[u8], to: &mut [u8], size: usize, count: usize)
    requires { ((head_size + size) * count ≤ length records.now) × (length to.old ≡ size * count) ×
        (size ≤ record_size) }
    ensures { to.new ≡ join (map body (parts (head_size + size) count records.now)) }
{
    make_parts(records, HEAD_SIZE + size, to, size, count, |record, body| {
        fill(&record[HEAD_SIZE..], body)
    });
}

// A header's body, with the area's own byte 1.
fn read_header(body: &[u8], to: &mut [u8])
    requires { (length body.now ≡ header_size) × (length to.old ≡ header_size) }
    ensures { to.new ≡ without_edition body.now }
{
    fill(body, to);
    to[1] = 0;
}

// The area that a save of n devices holds: its header, the devices' records, the links.
pub fn read_bodies(save: &[u8], area: &mut [u8], n: usize)
    requires { SaveOf n save.now × (length area.old ≡ area_size n) }
    ensures { area.new ≡ contents save.now }
{
    let from = links_at(n);
    let links = HEADER_SIZE + record::SIZE * n;
    read_header(&save[HEAD_SIZE..HEADER_RECORD], &mut area[..HEADER_SIZE]);
    read_run(
        &save[HEADER_RECORD..],
        &mut area[HEADER_SIZE..links],
        record::SIZE,
        n,
    );
    read_run(&save[from..], &mut area[links..], LINK_SIZE, n + 1);
}
