// Command bytes of the parallel bus as frames of the loop, and back (02, m): what both calls answer, and the codes.
#![tactic(auto)]

ghost use Rattle.std.specs.Prelude.{◌≡◌};
ghost use Rattle.bus.specs.Codes.{has_command, has_byte};

use frame::{COMMANDS, READY, data_bits};

pub mod export;
pub mod import;

// A refusal, 0 for none, and with 11 the place of the first byte or frame without a match.
#[repr(C)]
#[derive(Clone, Copy)]
pub struct MatchAnswer {
    pub place: u64,
    pub refusal: u8,
}

// The refusals NoMatch and Full.
pub const NO_MATCH: u8 = 11;

pub const FULL: u8 = 6;

// The one code of RFC, which follows each command.
const RFC: u16 = 0x500;

// GTL 01, SDC 04, GET 08, LLO 11, DCL 14 and PPU 15, each as the bit of its place.
const BELOW_ADDRESSES: u32 = 0x0032_0112;

// The byte has a command: one of those six, or one of LAD, UNL, TAD, UNT and SAD, which stand in a row.
fn has_command(b: u8) -> bool
    ensures { result ≡ has_command b }
{
    if b < 0x20 {
        return (BELOW_ADDRESSES >> b) % 2 == 1;
    }
    b <= 0x7e
}

// The frame has a byte: it is a command, and its data bits are a byte that has one.
fn has_byte(f: u16) -> bool
    ensures { result ≡ has_byte f }
{
    ((COMMANDS <= f) & (f < READY)) & has_command(data_bits(f))
}
