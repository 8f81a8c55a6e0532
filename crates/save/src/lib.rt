// Save: an area is put away as a row of records.
#![tactic(auto)]

ghost use Rattle.std.specs.Prelude.{◌≡◌, map, ◌+◌, ◌*◌, ◌≤◌, length};
ghost use Rattle.record.specs.Record.{record_size};
ghost use Rattle.area.specs.Parts.{parts, join};
ghost use Rattle.area.specs.Loop.{count_in, Shaped};
ghost use Rattle.calls.specs.Outcome.{Is};
ghost use Rattle.area.specs.Sizes.{header_size};
ghost use Rattle.saved.specs.Saved.{header_kind, head_size, recorded, with_edition, saved_size, saved};
ghost use Rattle.saved.specs.Calls.{save_of};
ghost use Rattle.refusal.specs.Refusal.{told};

use area::runs::make_parts;
use area::{HEADER_SIZE, LINK_SIZE};
use judge::contents::contents_sound;
use judge::shape_right;
use refusal::Refusal;
use saved::{
    DEVICE, EDITION_AT, EDITION_NOW, HEAD_SIZE, HEADER, HEADER_RECORD, LINK, fill, head_of,
    links_at, saved_size,
};

// One record: a head, and the body behind it.
fn write_record(to: &mut [u8], kind: u8, body: &[u8])
    requires { (length to.old ≡ head_size + length body.now) × (length body.now ≤ record_size) }
    ensures { to.new ≡ recorded kind body.now }
{
    let head = head_of(kind, body.len());
    byte_runs::copy(&head, to);
    fill(body, &mut to[HEAD_SIZE..]);
}

// The header's record, with the edition.
fn write_header(to: &mut [u8], header: &[u8])
    requires { (length to.old ≡ head_size + header_size) × (length header.now ≡ header_size) }
    ensures { to.new ≡ with_edition (recorded header_kind header.now) }
{
    write_record(to, HEADER, header);
    to[EDITION_AT] = EDITION_NOW;
}

// So many bodies of one size, a record each.
fn write_run(bodies: &[u8], to: &mut [u8], kind: u8, size: usize, count: usize)
    requires { (size ≤ record_size) × (size * count ≤ length bodies.now) ×
        (length to.old ≡ (head_size + size) * count) }
    ensures { to.new ≡ join (map (recorded kind) (parts size count bodies.now)) }
{
    make_parts(bodies, size, to, HEAD_SIZE + size, count, |body, record| {
        write_record(record, kind, body)
    });
}

// The records of an area of n devices: its header's, the devices', the links'.
fn write_records(area: &[u8], out: &mut [u8], n: usize)
    requires { Shaped area.now × (n ≡ count_in area.now) × (length out.old ≡ saved_size n) }
    ensures { out.new ≡ saved area.now }
{
    let links = HEADER_SIZE + record::SIZE * n;
    let at = links_at(n);
    write_header(&mut out[..HEADER_RECORD], &area[..HEADER_SIZE]);
    write_run(
        &area[HEADER_SIZE..],
        &mut out[HEADER_RECORD..at],
        DEVICE,
        record::SIZE,
        n,
    );
    write_run(&area[links..], &mut out[at..], LINK, LINK_SIZE, n + 1);
}

pub fn save(area: &[u8], out: &mut [u8]) -> Result<(), Refusal>
    ensures { Is (save_of area.now out.old) (told result) out.new }
{
    if !shape_right(area) {
        return Err(Refusal::Shape);
    }
    let n = area[0] as usize;
    if out.len() != saved_size(n) {
        return Err(Refusal::Shape);
    }
    if !contents_sound(area) {
        return Err(Refusal::Unsound);
    }
    write_records(area, out, n);
    Ok(())
}
