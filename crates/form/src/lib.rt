// Whether a save has the form: its count, its length, every record's length and kind, and its edition.
#![tactic(auto)]

ghost use Rattle.std.specs.Prelude.{◌≡◌, ◌*◌, ◌≤◌, ◌<◌, length};
ghost use Rattle.area.specs.Sizes.{most_devices};
ghost use Rattle.area.specs.Parts.{parts, all};
ghost use Rattle.saved.specs.Saved.{head_size, is_of, headed, formed};
ghost use Rattle.saved.specs.Inner.{SaveOf};

use area::is_count;
use area::runs::all_parts;
use saved::{
    DEVICE, DEVICE_RECORD, EDITION_AT, EDITION_NOW, HEAD_SIZE, HEADER, HEADER_RECORD, LINK,
    LINK_RECORD, head_of, links_at, saved_size,
};

// Whether a record starts with its body's length and this kind.
fn head_right(rec: &[u8], kind: u8) -> bool
    requires { (head_size ≤ length rec.now) × (length rec.now < 256) }
    ensures { result ≡ is_of kind rec.now }
{
    rec.starts_with(&head_of(kind, rec.len() - HEAD_SIZE))
}

// Whether each of so many records of one size does.
fn run_headed(records: &[u8], kind: u8, size: usize, count: usize) -> bool
    requires { (head_size ≤ size) × (size < 256) × (size * count ≤ length records.now) }
    ensures { result ≡ all (is_of kind) (parts size count records.now) }
{
    all_parts(records, size, count, |rec| head_right(rec, kind))
}

// Whether every record of a save of n devices does.
fn heads_right(save: &[u8], n: usize) -> bool
    requires { SaveOf n save.now }
    ensures { result ≡ headed save.now }
{
    let links = links_at(n);
    head_right(&save[..HEADER_RECORD], HEADER)
        & (run_headed(&save[HEADER_RECORD..], DEVICE, DEVICE_RECORD, n)
            & run_headed(&save[links..], LINK, LINK_RECORD, n + 1))
}

pub fn form_right(save: &[u8]) -> bool
    ensures { result ≡ formed most_devices save.now }
{
    let len = save.len();
    if len <= HEAD_SIZE {
        return false;
    }
    let n = save[HEAD_SIZE] as usize;
    if !is_count(n) {
        return false;
    }
    let end = saved_size(n);
    if len != end {
        return false;
    }
    heads_right(save, n) & (save[EDITION_AT] <= EDITION_NOW)
}
