// Numbers in hexadecimal, as frames and bytes are written, for the programs that print them.
#![tactic(auto)]

ghost use Rattle.std.specs.Prelude.{◌≡◌, ◌-◌, ◌++◌, false, length, replicate, Some};
ghost use Rattle.std.specs.Fmt.{digits};

use std::fmt;

// A number's digits, with zeros before them up to the fewest.
#[derive(Clone, Copy)]
pub struct Digits {
    number: u64,
    fewest: usize,
}

impl fmt::Display for Digits {
    ghost output = { λ d. Some (replicate (d.fewest - length (digits 16 false d.number)) 48 ++ digits 16 false d.number) };

    fn fmt<W: fmt::Write>(&self, f: &mut fmt::Formatter<W>) -> fmt::Result {
        let Digits { number, fewest } = *self;
        write!(f, "{number:0fewest$x}")
    }
}

// Three digits at least, as frames are written.
pub fn hex(number: u64) -> Digits
    ensures number { result.number ≡ number }
    ensures fewest { result.fewest ≡ 3 }
{
    Digits { number, fewest: 3 }
}

// Two digits, as bytes are written.
pub fn hex_byte(byte: u8) -> Digits
    ensures number { result.number ≡ byte }
    ensures fewest { result.fewest ≡ 2 }
{
    Digits {
        number: byte as u64,
        fewest: 2,
    }
}
