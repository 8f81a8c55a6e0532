// Saved loops: the numbers of their form, what stands before a body, and how a body is copied. What save and open do is
// said in specs/.
#![tactic(auto)]

ghost use Rattle.std.specs.Prelude.{◌≡◌, ◌≤◌, ◌<◌, length};
ghost use Rattle.record.specs.Record.{record_size};
ghost use Rattle.saved.specs.Saved.{head_of, saved_links_at, saved_size};

use area::{HEADER_SIZE, LINK_SIZE};

// Bytes before a body.
pub const HEAD_SIZE: usize = 6;

// Bytes of the header's record, of a device's and of a link's.
pub const HEADER_RECORD: usize = HEAD_SIZE + HEADER_SIZE;

pub const DEVICE_RECORD: usize = HEAD_SIZE + record::SIZE;

pub const LINK_RECORD: usize = HEAD_SIZE + LINK_SIZE;

// The edition of a save, kind 1's byte 1: its place, before loads took a choice, and now.
pub const EDITION_AT: usize = HEAD_SIZE + 1;

pub const EDITION_OLD: u8 = 0;

pub const EDITION_NOW: u8 = 1;

// The kinds of record.
pub const HEADER: u8 = 1;

pub const DEVICE: u8 = 2;

pub const LINK: u8 = 3;

// Where the links' records start in a save of n devices.
pub fn links_at(n: usize) -> usize
    requires { n < 256 }
    ensures { result ≡ saved_links_at n }
{
    HEADER_RECORD + DEVICE_RECORD * n
}

// Bytes of a save of n devices.
pub fn saved_size(n: usize) -> usize
    requires { n < 256 }
    ensures { result ≡ saved_size n }
{
    links_at(n) + LINK_RECORD * (n + 1)
}

// What stands before a body of this size: its length and its kind.
pub fn head_of(kind: u8, size: usize) -> [u8; HEAD_SIZE]
    requires { size < 256 }
    ensures { result ≡ head_of kind size }
{
    [size as u8, 0, 0, 0, kind, 0]
}

// The bytes of one become those of the other, at most a record's. All are read before one is written, so that the
// compiler moves many at once.
pub fn fill(from: &[u8], to: &mut [u8])
    requires { (length to.old ≡ length from.now) × (length from.now ≤ record_size) }
    ensures { to.new ≡ from.now }
{
    let mut read = [0u8; record::SIZE];
    let n = byte_runs::copy(from, &mut read);
    byte_runs::copy(&read[..n], to);
}
