// The lister (01, the lister): a script of frames in, what the loop does with them out. `start` writes the first chunk
// of the listing, `step` each further one, over an area and a buffer that the caller lends.
#![tactic(auto)]

mod list;

ghost use Rattle.std.specs.Prelude.{◌≡◌};

use area::MOST_DEVICES;
pub use list::{start, step};
use text::{FRAME_SIZE, HAND_SIZE};

// The most bytes of an input.
pub const LONGEST: usize = 60000;

// Bytes of the longest chunk, a hand line for each device and a frame line, and of the largest area.
pub const TEXT_ROOM: usize = HAND_SIZE * MOST_DEVICES + FRAME_SIZE;

pub const AREA_ROOM: usize = area::LARGEST;

// Where the listing goes on: at a line's place, with its number, or nowhere. Refused: what was lent is too small or
// holds no loop, or the number is no line's, and nothing was done.
#[derive(Clone, Copy)]
pub enum Next {
    Line(usize, usize),
    End,
    Refused,
}

// The bytes that a call wrote at the front of the buffer, and how to go on.
#[derive(Clone, Copy)]
pub struct Chunk {
    pub written: usize,
    pub next: Next,
}

impl Chunk {
    fn last(written: usize) -> Chunk
        ensures { (result.written ≡ written) × (result.next ≡ Next.End) }
    {
        Chunk {
            written,
            next: Next::End,
        }
    }

    fn refused() -> Chunk
        ensures { (result.written ≡ 0) × (result.next ≡ Next.Refused) }
    {
        Chunk {
            written: 0,
            next: Next::Refused,
        }
    }
}
