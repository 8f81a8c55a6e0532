// What is wrong with a line of a script, in words, on standard error. What makes a line wrong is decided by `script` and
// by the set-up; here the first fault of such a line is named.
#![tactic(auto)]

use area::MOST_DEVICES;
use device::Device;
use print::hex_byte;
use script::{GROUP_SIZE, digit, group_right};
use std::{fmt, io};

// The abilities of a talker.
const TALKS: u8 = Device::SEND_DATA | Device::STATUS | Device::DEVICE_ID | Device::ACCESSORY_ID;

// What is wrong with a device of line 1: its form, an address that is none, or abilities without what they need.
#[derive(Clone, Copy)]
enum Fault {
    Form,
    FixedAddress(u8),
    Abilities(u8, &'static str),
}

impl fmt::Display for Fault {
    fn fmt<W: fmt::Write>(&self, f: &mut fmt::Formatter<W>) -> fmt::Result {
        match *self {
            Fault::Form => write!(
                f,
                "a space and four lower-case hexadecimal digits, abilities and fixed address"
            ),
            Fault::FixedAddress(fixed) => {
                let highest = hex_byte(Device::NO_ADDRESS);
                write!(f, "fixed address {} is over {highest}", hex_byte(fixed))
            }
            Fault::Abilities(abilities, others) => {
                write!(f, "abilities {} need {others}", hex_byte(abilities))
            }
        }
    }
}

// A device whose item is not allowed.
fn item(abilities: u8, fixed: u8) -> Option<Fault> {
    let has = |any: u8| abilities & any != 0;
    if Device::NO_ADDRESS < fixed {
        return Some(Fault::FixedAddress(fixed));
    }
    if has(Device::SERVICE_REQUEST) && !has(Device::STATUS) {
        return Some(Fault::Abilities(abilities, "status"));
    }
    if has(Device::UNADDRESS) && !(has(Device::LISTEN) && has(TALKS)) {
        let others = "listen and one of data, status, device ID, accessory ID";
        return Some(Fault::Abilities(abilities, others));
    }
    None
}

// The byte of two digits; the remainders change no digit, and keep the sum a byte whatever is written there.
fn byte(high: u8, low: u8) -> u8 {
    16 * (digit(high) % 16) + digit(low) % 16
}

// A device whose form is wrong, as that of too few bytes, or whose item is not allowed.
fn group(g: &[u8]) -> Option<Fault> {
    match *g {
        [_, a, b, c, d] if group_right(g) => item(byte(a, b), byte(c, d)),
        _ => Some(Fault::Form),
    }
}

// The last byte of a line, if it is one that does not show.
fn unseen(line: &[u8]) -> Option<&'static str> {
    match line.last()? {
        b'\r' => Some("carriage return"),
        b' ' => Some("space"),
        b'\t' => Some("tab"),
        _ => None,
    }
}

fn at_end(err: &impl Print, what: &str, number: usize) -> io::Result<()> {
    println!(err; "{what} at the end of line {number}")
}

// Line 1 behind its word: the first device that is wrong, or else there are none, or too many.
fn devices(err: &impl Print, all: &[u8]) -> io::Result<()> {
    for (i, g) in all.chunks(GROUP_SIZE).enumerate() {
        if let Some(fault) = group(g) {
            return println!(err; "line 1: device {i}: {fault}");
        }
    }
    match all.len() / GROUP_SIZE {
        0 => println!(err; "line 1: no device: a loop has 1 to {MOST_DEVICES}"),
        n => println!(err; "line 1: {n} devices: a loop has 1 to {MOST_DEVICES}"),
    }
}

fn line_1(err: &impl Print, line: &[u8]) -> io::Result<()> {
    if let Some(what) = unseen(line) {
        return at_end(err, what, 1);
    }
    match line.strip_prefix(b"loop") {
        Some(all) => devices(err, all),
        None => println!(err;
            "line 1: the word loop comes first, then a space and four digits for each device"
        ),
    }
}

// The line that starts at a place, empty behind the end.
fn line_at(input: &[u8], at: usize) -> &[u8] {
    let rest = input.get(at..).unwrap_or(&[]);
    rest.split(|byte| *byte == b'\n').next().unwrap_or(rest)
}

// Words for a script of more than the longest's bytes, or whose line 1 is wrong.
pub fn first(err: &impl Print, input: &[u8], longest: usize) -> io::Result<()> {
    if longest < input.len() {
        return println!(err; "the script is longer than {longest} bytes");
    }
    if input.is_empty() {
        return println!(err; "line 1: the script is empty");
    }
    line_1(err, line_at(input, 0))
}

// Words for a wrong later line, which starts at a place.
pub fn later(err: &impl Print, input: &[u8], at: usize, number: usize) -> io::Result<()> {
    match unseen(line_at(input, at)) {
        Some(what) => at_end(err, what, number),
        None => println!(err;
            "line {number}: a frame is three lower-case hexadecimal digits, at most 7ff"
        ),
    }
}
