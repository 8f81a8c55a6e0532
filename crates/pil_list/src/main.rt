// Reads a script of frames from standard input, and writes to standard output what the loop does with them.
#![tactic(auto)]

use lister::LONGEST;
use std::io;

// One byte past the longest script is enough to know that an input is too long.
const ROOM: usize = LONGEST + 1;

fn main(rt: HostRuntime) -> io::Result<()> {
    let mut input = [0u8; ROOM];
    let n = input::fill(&mut rt.stdin(), &mut input)?;
    list_out::print(&rt, &rt.stderr(), &input[..n])
}
