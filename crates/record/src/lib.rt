// A device's record of 64 bytes (01, The lent area): its places, and what is read from it where it lies. The crate
// record_write writes whole ones, and the crate sound judges when one is sound.
#![tactic(auto)]

pub mod read;

ghost use Rattle.std.specs.Prelude.{◌≡◌, ◌+◌, ◌<◌, length};
ghost use Rattle.record.specs.Record.{word};

// Bytes of a record.
pub const SIZE: usize = 64;

// Places of its bytes; the last frame sent is two bytes, ID and data are stretches.
pub const ABILITIES: usize = 0;

pub const FIXED: usize = 1;

pub const ADDRESS: usize = 2;

pub const CONFIGURED: usize = 3;

pub const LISTENER: usize = 4;

pub const TALKER: usize = 5;

pub const SERVICE: usize = 6;

pub const FURTHER: usize = 7;

pub const NOTED: usize = 8;

pub const STATUS: usize = 9;

pub const ACCESSORY: usize = 10;

pub const ID_LENGTH: usize = 11;

pub const LOAD_LENGTH: usize = 12;

pub const SENT: usize = 13;

pub const LAST: usize = 14;

pub const REPLIED: usize = 16;

pub const REMOTE: usize = 17;

pub const ENABLED: usize = 18;

pub const CHOICE: usize = 19;

pub const FIXED_SECOND: usize = 20;

pub const SECOND: usize = 21;

pub const ASSIGNED: usize = 22;

pub const POLL_STATUS: usize = 23;

pub const ID: usize = 24;

pub const LOAD: usize = 32;

// The little-endian number at a place.
pub fn word_at(s: &[u8], at: usize) -> u16
    requires { at + 1 < length s.now }
    ensures { result ≡ word at s.now }
{
    s[at] as u16 + 256 * (s[at + 1] as u16)
}
