// A row of command bytes as lines of a script, in a lent buffer (02, m).
#![tactic(auto)]

ghost use Rattle.std.specs.Prelude.{◌*◌, ◌≤◌, length};
ghost use Rattle.text.specs.Out.{script_size};
ghost use Rattle.text.specs.Write.{Wrote};
ghost use Rattle.lister.specs.Listing.{longest};
ghost use Rattle.bus_script.specs.Listing.{text_room, script_of, row_listed, bus_listing};

use bus::NO_MATCH;
use bus::import::import;
use lister::LONGEST;
use text::{SCRIPT_SIZE, bad_line, put, script_line};

// The room for the frames of the longest row, and that for their lines.
const FRAMES_ROOM: usize = 2 * LONGEST;

pub const TEXT_ROOM: usize = SCRIPT_SIZE * FRAMES_ROOM;

// Each frame as a line.
fn lines(frames: &[u16], out: &mut [u8]) -> usize
    requires { script_size * length frames.now ≤ length out.old }
    ensures { Wrote (script_of frames.now) 0 out.old result out.new }
{
    let mut at = 0;
    for frame in frames {
        at = script_line(out, at, *frame);
    }
    at
}

// The lines of a row's frames, or the place of a byte without a command.
fn row_lines(row: &[u8], frames: &mut [u16], out: &mut [u8]) -> usize
    requires { (length row.now ≤ longest) × (2 * length row.now ≤ length frames.old) ×
        (text_room ≤ length out.old) }
    ensures { Wrote (row_listed row.now) 0 out.old result out.new }
{
    let found = import(row, frames);
    if found.refusal == NO_MATCH {
        return bad_line(out, found.place as usize);
    }
    let need = 2 * row.len();
    lines(&frames[..need], out)
}

// What is printed for a row.
pub fn list(row: &[u8], out: &mut [u8]) -> usize
    requires { text_room ≤ length out.old }
    ensures { Wrote (bus_listing row.now) 0 out.old result out.new }
{
    if LONGEST < row.len() {
        return put(out, 0, b"long\n");
    }
    let mut frames = [0u16; FRAMES_ROOM];
    row_lines(row, &mut frames, out)
}
