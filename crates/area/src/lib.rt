// The lent area of a loop (01, The lent area): looked into and changed in the loop's terms.
#![tactic(auto)]

pub mod change;
mod link;
pub mod lookup;
pub mod runs;

ghost use Rattle.std.specs.Prelude.{◌≡◌, ◌<◌};
ghost use Rattle.area.specs.Sizes.{most_devices, is_count, area_size};

// Bytes before the first record, of a link, of a set-up item, of one with the further abilities behind, and with the
// fixed second address behind them.
pub const HEADER_SIZE: usize = 8;

pub const LINK_SIZE: usize = 10;

pub const ITEM_SIZE: usize = 12;

pub const POLL_ITEM_SIZE: usize = 13;

pub const LONG_ITEM_SIZE: usize = 14;

// The most frames of a link, and the most devices of a loop.
pub const DEPTH: usize = 4;

pub const MOST_DEVICES: usize = 31;

// Bytes of the largest area.
pub const LARGEST: usize = HEADER_SIZE
    + record::SIZE * MOST_DEVICES
    + LINK_SIZE * (MOST_DEVICES + 1);

// Whether a loop can have n devices.
pub fn is_count(n: usize) -> bool
    ensures { result ≡ is_count most_devices n }
{
    (1 <= n) & (n <= MOST_DEVICES)
}

// Bytes of an area of n devices.
pub fn area_size(n: usize) -> usize
    requires { n < 256 }
    ensures { result ≡ area_size n }
{
    HEADER_SIZE + record::SIZE * n + LINK_SIZE * (n + 1)
}
