// Whether an area's contents are sound, in one pass over its bytes: its header, its records, its links.
ghost use Rattle.std.specs.Prelude.{◌≡◌, ◌*◌, ◌≤◌, length, get_or};
ghost use Rattle.device.specs.PowerOn.{bytes_from};
ghost use Rattle.record.specs.Record.{record_size, zeros};
ghost use Rattle.record.specs.Sound.{sound_record};
ghost use Rattle.area.specs.Sizes.{header_size, link_size};
ghost use Rattle.area.specs.Parts.{parts, all};
ghost use Rattle.area.specs.Link.{sound_slot, sound_link};
ghost use Rattle.area.specs.Loop.{Shaped, sound};

use area::runs::all_parts;
use area::{DEPTH, HEADER_SIZE, LINK_SIZE};
use record::word_at;

pub fn records_sound(records: &[u8], n: usize) -> bool
    requires { record_size * n ≤ length records.now }
    ensures { result ≡ all sound_record (parts record_size n records.now) }
{
    all_parts(records, record::SIZE, n, |part| {
        part.as_array().is_some_and(sound::record_sound)
    })
}

// Whether the k-th number of a link that holds n frames is a frame, or else 0.
fn slot_sound(n: u8, k: u8, f: u16) -> bool
    ensures { result ≡ sound_slot n k f }
{
    (f < frame::FRAMES as u16) & ((k < n) | (f == 0))
}

fn all_zero(bytes: &[u8]) -> bool
    ensures { result ≡ zeros bytes.now }
{
    bytes.iter().all(|byte| *byte == 0)
}

// A link that holds no frame: most do.
fn empty_sound(link: &[u8]) -> bool
    requires { (length link.now ≡ link_size) × (get_or link.now 0 0 ≡ 0) }
    ensures { result ≡ sound_link link.now }
{
    all_zero(&link[1..])
}

fn frames_sound(link: &[u8]) -> bool
    requires { length link.now ≡ link_size }
    ensures { result ≡ sound_link link.now }
{
    let n = link[0];
    (n <= DEPTH as u8)
        & ((link[1] == 0)
            & (slot_sound(n, 0, word_at(link, 2))
                & (slot_sound(n, 1, word_at(link, 4))
                    & (slot_sound(n, 2, word_at(link, 6)) & slot_sound(n, 3, word_at(link, 8))))))
}

fn link_sound(link: &[u8]) -> bool
    requires { length link.now ≡ link_size }
    ensures { result ≡ sound_link link.now }
{
    if link[0] == 0 {
        return empty_sound(link);
    }
    frames_sound(link)
}

pub fn links_sound(links: &[u8], n: usize) -> bool
    requires { link_size * n ≤ length links.now }
    ensures { result ≡ all sound_link (parts link_size n links.now) }
{
    all_parts(links, LINK_SIZE, n, link_sound)
}

// Bytes 2 to 7 of a header are zero, in an area and in a save.
pub fn rest_zero(header: &[u8]) -> bool
    requires { header_size ≤ length header.now }
    ensures { result ≡ zeros (bytes_from 2 6 header.now) }
{
    all_zero(&header[2..HEADER_SIZE])
}

// Bytes 1 to 7 are zero.
fn header_sound(area: &[u8]) -> bool
    requires { header_size ≤ length area.now }
    ensures { result ≡ zeros (bytes_from 1 7 area.now) }
{
    (area[1] == 0) & rest_zero(area)
}

pub fn contents_sound(area: &[u8]) -> bool
    requires { Shaped area.now }
    ensures { result ≡ sound area.now }
{
    let n = area[0] as usize;
    let links = HEADER_SIZE + record::SIZE * n;
    header_sound(area)
        & (records_sound(&area[HEADER_SIZE..], n) & links_sound(&area[links..], n + 1))
}
