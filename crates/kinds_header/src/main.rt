// Prints the published table of kinds as a C header: the kind number of every frame.
#![tactic(auto)]

use frame::FRAMES;
use std::io;

fn main(rt: HostRuntime) -> io::Result<()> {
    println!(rt; "#ifndef PIL_KINDS_H\n#define PIL_KINDS_H\n\n#include <stdint.h>\n")?;
    println!(rt; "/* The kind number of every frame, 0 for a frame of no kind. */")?;
    println!(rt; "static const uint8_t pil_kinds[{FRAMES}] = {{")?;
    for frame in 0..FRAMES as u64 {
        entry(&rt, frame)?;
    }
    println!(rt; "}};\n\n#endif")
}

// An entry: sixteen stand in a line.
fn entry(rt: &impl Print, frame: u64) -> io::Result<()> {
    let before = if frame % 16 == 0 { "    " } else { "" };
    let after = if frame % 16 == 15 { "\n" } else { " " };
    print!(rt; "{before}{},{after}", published::kind(frame))
}
