// Lists each script that an argument names, under a line with its name.
#![tactic(auto)]

use std::rt::Files;
use std::{env, fs, io};

// More than the longest script, so that one that is too long is seen to be.
const ROOM: usize = 65536;

// A script's file, whole.
fn list<R: Files + Print + Eprint>(rt: &R, err: &impl Print, name: &str) -> io::Result<()> {
    let mut file = match fs::open(rt, name) {
        Ok(file) => file,
        Err(e) => return eprintln!(rt; "{name}: {e}"),
    };
    let mut script = [0u8; ROOM];
    let n = input::fill(&mut file, &mut script)?;
    list_out::print(rt, err, &script[..n])
}

// An argument and its script.
fn show<R: Files + Print + Eprint>(rt: &R, err: &impl Print, name: &str) -> io::Result<()> {
    println!(rt; "-- {name}")?;
    list(rt, err, name)
}

fn main(rt: HostRuntime) -> io::Result<()> {
    for name in env::args(&rt)?.skip(1) {
        show(&rt, &rt.stderr(), name.as_str())?;
    }
    Ok(())
}
