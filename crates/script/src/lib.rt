// The lines of a script, read: digits, a frame line, and line 1 with its devices (01, the lister).
#![tactic(auto)]

ghost use Rattle.std.specs.Prelude.{◌≡◌, true, map, ◌*◌, ◌≤◌, length};
ghost use Rattle.area.specs.Sizes.{item_size};
ghost use Rattle.area.specs.Parts.{parts, join, all};
ghost use Rattle.text.specs.Words.{begins as Words·begins};
ghost use Rattle.text.specs.Digits.{digit_of};
ghost use Rattle.script.specs.Script.{group_size, group_right, item_of, loop_in, frame_in};
ghost use Rattle.text.specs.Write.{Wrote};

use area::runs::all_parts;
use area::{ITEM_SIZE, is_count};
use text::put;

// Bytes of line 1 before the devices, and of each device.
pub const WORD_SIZE: usize = 4;

pub const GROUP_SIZE: usize = 5;

// The digit of a character; 16 where it is none.
pub fn digit(b: u8) -> u8
    ensures { result ≡ digit_of b }
{
    if (b'0' <= b) & (b <= b'9') {
        return b - b'0';
    }
    if (b'a' <= b) & (b <= b'f') {
        return b - 87;
    }
    16
}

// The frame of a line, if it is one.
#[tactic(auto, unfolding(crate::specs::Script::frame_right))]
pub fn frame_in(line: &[u8]) -> Option<u16>
    ensures { result ≡ frame_in line.now }
{
    if line.len() != 3 {
        return None;
    }
    let a = digit(line[0]) as usize;
    let b = digit(line[1]) as usize;
    let c = digit(line[2]) as usize;
    let frame = 16 * (16 * a + b) + c;
    if (a < 16) & ((b < 16) & ((c < 16) & (frame < frame::FRAMES))) {
        Some(frame as u16)
    } else {
        None
    }
}

// A line begins with a word.
pub fn begins(line: &[u8], word: &[u8]) -> bool
    ensures { result ≡ Words·begins word.now line.now }
{
    line.starts_with(word)
}

// A device's bytes are a space and four digits.
pub fn group_right(g: &[u8]) -> bool
    requires { length g.now ≡ group_size }
    ensures { result ≡ group_right g.now }
{
    (g[0] == b' ')
        & ((digit(g[1]) < 16) & ((digit(g[2]) < 16) & ((digit(g[3]) < 16) & (digit(g[4]) < 16))))
}

fn groups_right(groups: &[u8], n: usize) -> bool
    requires { group_size * n ≤ length groups.now }
    ensures { result ≡ all group_right (parts group_size n groups.now) }
{
    all_parts(groups, GROUP_SIZE, n, group_right)
}

// How many devices line 1 gives, if it is one.
#[tactic(auto, using(crate::proofs::Scripts::has_word), unfolding(crate::specs::Script::loop_right))]
pub fn loop_in(line: &[u8]) -> Option<usize>
    ensures { result ≡ loop_in line.now }
{
    if !begins(line, b"loop") {
        return None;
    }
    let n = (line.len() - WORD_SIZE) / GROUP_SIZE;
    if line.len() != WORD_SIZE + GROUP_SIZE * n {
        return None;
    }
    if !groups_right(&line[WORD_SIZE..], n) {
        return None;
    }
    is_count(n).then_some(n)
}

// A device's set-up item.
fn item_of(g: &[u8]) -> [u8; ITEM_SIZE]
    requires { (length g.now ≡ group_size) × (group_right g.now ≡ true) }
    ensures { result ≡ item_of g.now }
{
    let abilities = 16 * digit(g[1]) + digit(g[2]);
    let fixed = 16 * digit(g[3]) + digit(g[4]);
    [abilities, fixed, 0, 0, 0, 0, 0, 0, 0, 0, 0, 0]
}

// The set-up items of n devices, at the front of a lent buffer.
pub fn items_in(groups: &[u8], n: usize, items: &mut [u8])
    requires { (group_size * n ≤ length groups.now) × (item_size * n ≤ length items.old)
        × (all group_right (parts group_size n groups.now) ≡ true) }
    ensures { Wrote (join (map item_of (parts group_size n groups.now)))
        0 items.old (item_size * n) items.new }
{
    let mut at = 0;
    for group in groups[..GROUP_SIZE * n].chunks_exact(GROUP_SIZE) {
        at = put(items, at, &item_of(group));
    }
}
