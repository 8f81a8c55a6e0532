// The listing's chunks: `start` does line 1, and `step` a line a call.
ghost use Rattle.std.specs.Prelude.{◌≡◌, true, ◌+◌, ◌^◌, ◌≤◌, ◌<◌, length, Some};
ghost use Rattle.script.specs.Script.{loop_in};
ghost use Rattle.lister.specs.Chunks.{area_room, roomy, ready, Did, first_does, start_does, line_does, step_does};
ghost use Rattle.round.specs.Round.{text_room};
ghost use Rattle.lister.specs.Inner.{SetUp};
ghost use Rattle.refusal.specs.Refusal.{told};

use crate::{AREA_ROOM, Chunk, LONGEST, Next, TEXT_ROOM};
use area::{ITEM_SIZE, MOST_DEVICES, area_size, is_count};
use judge::judge;
use refusal::Refusal;
use round::round;
use script::{WORD_SIZE, frame_in, items_in, loop_in};
use text::{bad_line, put};

// Bytes of the items of as many devices as a loop can have.
const ITEMS_ROOM: usize = ITEM_SIZE * MOST_DEVICES;

// What is lent is large enough.
fn is_roomy(area: &[u8], out: &[u8]) -> bool
    ensures { result ≡ roomy area.now (length out.now) }
{
    (AREA_ROOM <= area.len()) & (TEXT_ROOM <= out.len())
}

// And the area holds a loop, and the number can be a line's.
fn is_ready(number: usize, area: &[u8], out: &[u8]) -> bool
    ensures { result ≡ ready number area.now (length out.now) }
{
    if !is_roomy(area, out) {
        return false;
    }
    let n = area[0] as usize;
    if !is_count(n) {
        return false;
    }
    let size = area_size(n);
    (number <= LONGEST) & judge(&area[..size]).is_ok()
}

// The set-up of line 1's devices, in the first bytes of the lent area.
fn set_up(line: &[u8], n: usize, area: &mut [u8]) -> Result<(), Refusal>
    requires { (loop_in line.now ≡ Some n) × (area_room ≤ length area.old) }
    ensures { SetUp line.now area.old (told result) area.new }
{
    let mut items = [0u8; ITEMS_ROOM];
    items_in(&line[WORD_SIZE..], n, &mut items);
    let size = area_size(n);
    set_up::set_up(&mut area[..size], &items[..ITEM_SIZE * n])
}

// Line 1.
fn first(line: &[u8], area: &mut [u8], out: &mut [u8]) -> Chunk
    requires { (area_room ≤ length area.old) × (text_room ≤ length out.old) }
    ensures { Did (first_does line.now area.old)
        out.old result area.new out.new }
{
    let Some(n) = loop_in(line) else {
        return Chunk::last(bad_line(out, 1));
    };
    if set_up(line, n, area).is_err() {
        return Chunk::last(bad_line(out, 1));
    }
    Chunk {
        written: 0,
        next: Next::Line(line.len() + 1, 2),
    }
}

// The first chunk.
pub fn start(input: &[u8], area: &mut [u8], out: &mut [u8]) -> Chunk
    ensures { Did (start_does input.now area.old (length out.old))
        out.old result area.new out.new }
{
    if !is_roomy(area, out) {
        return Chunk::refused();
    }
    if LONGEST < input.len() {
        return Chunk::last(put(out, 0, b"long\n"));
    }
    let end = byte_runs::find(input, 0, input.len(), b'\n');
    first(&input[..end], area, out)
}

// A frame line.
fn line(line: &[u8], at: usize, number: usize, area: &mut [u8], out: &mut [u8]) -> Chunk
    requires { (ready number area.old (length out.old) ≡ true) × (at + length line.now < 2 ^ 63) }
    ensures { Did (line_does line.now at number area.old)
        out.old result area.new out.new }
{
    let Some(frame) = frame_in(line) else {
        return Chunk::last(bad_line(out, number));
    };
    let size = area_size(area[0] as usize);
    let written = round(&mut area[..size], frame, out);
    Chunk {
        written,
        next: Next::Line(at + line.len() + 1, number + 1),
    }
}

// A further chunk: line `number`, which starts at a place.
pub fn step(input: &[u8], at: usize, number: usize, area: &mut [u8], out: &mut [u8]) -> Chunk
    ensures { Did (step_does input.now at number area.old (length out.old))
        out.old result area.new out.new }
{
    if !is_ready(number, area, out) {
        return Chunk::refused();
    }
    if input.len() <= at {
        return Chunk::last(0);
    }
    let end = byte_runs::find(input, at, input.len(), b'\n');
    line(&input[at..end], at, number, area, out)
}
