// The listing of a script, written to standard output chunk by chunk, and behind a `bad` or `long` the words for it to
// standard error.
#![tactic(auto)]

ghost use Rattle.std.specs.Prelude.{◌≤◌, length};

use lister::{AREA_ROOM, Chunk, LONGEST, Next, TEXT_ROOM};
use std::io;

// The first bytes of the buffer go out.
fn write(rt: &impl Print, out: &[u8], written: usize) -> io::Result<()>
    requires { written ≤ length out.now }
{
    rt.write_all(&out[..written])
}

// A chunk of a later line that is the last and has a text says `bad`.
fn explain(
    err: &impl Print,
    input: &[u8],
    at: usize,
    number: usize,
    chunk: Chunk,
) -> io::Result<()> {
    match chunk.next {
        Next::End if chunk.written > 0 => wrong::later(err, input, at, number),
        _ => Ok(()),
    }
}

// The chunks behind the first: each goes on past the place where it began.
fn rest(
    rt: &impl Print,
    err: &impl Print,
    input: &[u8],
    first: Next,
    area: &mut [u8],
    out: &mut [u8],
) -> io::Result<()> {
    let mut next = first;
    while let Next::Line(at, number) = next {
        let chunk = lister::step(input, at, number, area, out);
        write(rt, out, chunk.written)?;
        explain(err, input, at, number, chunk)?;
        next = chunk.next;
    }
    Ok(())
}

// `rt` is standard output, and `err` standard error.
pub fn print(rt: &impl Print, err: &impl Print, input: &[u8]) -> io::Result<()> {
    let mut area = [0u8; AREA_ROOM];
    let mut out = [0u8; TEXT_ROOM];
    let chunk = lister::start(input, &mut area, &mut out);
    write(rt, &out, chunk.written)?;
    // The first chunk has no text but `bad` or `long`.
    if chunk.written > 0 {
        return wrong::first(err, input, LONGEST);
    }
    let next = chunk.next;
    rest(rt, err, input, next, &mut area, &mut out)
}
