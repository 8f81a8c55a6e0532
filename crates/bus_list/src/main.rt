// Reads command bytes of the parallel bus from standard input, and writes their frames to standard output as lines of a
// script; what is wrong with a row it says on standard error.
#![tactic(auto)]

ghost use Rattle.std.specs.Prelude.{◌≤◌, length};
ghost use Rattle.bus_script.specs.Listing.{text_room};

use bus::import::byte_without;
use bus_script::TEXT_ROOM;
use lister::LONGEST;
use print::hex_byte;
use std::io;

// One byte past the longest row is enough to know that an input is too long.
const ROOM: usize = LONGEST + 1;

// Why a row has no frames.
fn explain(err: &impl Print, row: &[u8]) -> io::Result<()> {
    if LONGEST < row.len() {
        return println!(err; "the row is longer than {LONGEST} bytes");
    }
    let place = byte_without(row);
    match row.get(place) {
        Some(byte) => {
            let byte = hex_byte(*byte);
            println!(err; "byte {place} is {byte}, which has no command on the loop")
        }
        None => Ok(()),
    }
}

// The lines of a row go out.
fn print(rt: &impl Print, row: &[u8], out: &mut [u8]) -> io::Result<()>
    requires { text_room ≤ length out.old }
{
    let written = bus_script::list(row, out);
    rt.write_all(&out[..written])
}

fn main(rt: HostRuntime) -> io::Result<()> {
    let mut row = [0u8; ROOM];
    let n = input::fill(&mut rt.stdin(), &mut row)?;
    let mut out = [0u8; TEXT_ROOM];
    print(&rt, &row[..n], &mut out)?;
    explain(&rt.stderr(), &row[..n])
}
