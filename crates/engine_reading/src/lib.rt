// The plain engine's own reading of a frame: its kind by the groups of its bits, and the data bits that the kind leaves
// free; and the frame of a DAB, END or IDY, which it puts together again.
#![tactic(auto)]

ghost use Rattle.std.specs.Prelude.{◌≡◌, true, cond, ◌+◌, ◌≤◌, ◌<◌, eqb, ltb};
ghost use Rattle.frame.specs.Messages.{kinds, kind_at};
ghost use Rattle.frame.specs.Decoding.{has_c1, decoded, frame_of};
ghost use Rattle.frame.specs.declared.Message.{Message};
ghost use Rattle.engine_reading.specs.Reading.{free_bits};

use frame::Message;

// The kinds by their numbers.
pub const DAB: u8 = 1;

pub const END: u8 = 2;

pub const NUL: u8 = 3;

pub const GTL: u8 = 4;

pub const SDC: u8 = 5;

pub const PPD: u8 = 6;

pub const GET: u8 = 7;

pub const LLO: u8 = 8;

pub const DCL: u8 = 9;

pub const PPU: u8 = 10;

pub const EAR: u8 = 11;

pub const LAD: u8 = 12;

pub const UNL: u8 = 13;

pub const TAD: u8 = 14;

pub const UNT: u8 = 15;

pub const SAD: u8 = 16;

pub const PPE: u8 = 17;

pub const IFC: u8 = 18;

pub const REN: u8 = 19;

pub const NRE: u8 = 20;

pub const AAU: u8 = 21;

pub const LPD: u8 = 22;

pub const DDL: u8 = 23;

pub const DDT: u8 = 24;

pub const RFC: u8 = 25;

pub const ETO: u8 = 26;

pub const NRD: u8 = 28;

pub const SDA: u8 = 29;

pub const SST: u8 = 30;

pub const SDI: u8 = 31;

pub const SAI: u8 = 32;

pub const AAD: u8 = 34;

pub const IAA: u8 = 35;

pub const AEP: u8 = 36;

pub const IEP: u8 = 37;

pub const AES: u8 = 38;

pub const IES: u8 = 39;

pub const AMP: u8 = 40;

pub const IMP: u8 = 41;

pub const IDY: u8 = 42;

// A group of 32 codes that are one kind's addresses but for the last.
fn address(kind: u8, last: u8, low: u8) -> u8
    ensures { result ≡ cond (eqb low 31) last kind }
{
    if low == 31 {
        return last;
    }
    kind
}

// Some kinds in a row, a code each, from the first code of a group on.
fn row(kind: u8, count: u8, low: u8) -> u8
    requires { kind + count < kinds }
    ensures { result ≡ cond (ltb low count) (kind + low) 0 }
{
    if low < count {
        return kind + low;
    }
    0
}

// The commands from 0x400 on, a code each.
fn command(low: u8) -> u8
    requires { low < 32 }
    ensures { result ≡ kind_at (0x400 + low) }
{
    match low {
        0x00 => NUL,
        0x01 => GTL,
        0x04 => SDC,
        0x05 => PPD,
        0x08 => GET,
        0x11 => LLO,
        0x14 => DCL,
        0x15 => PPU,
        0x18 => EAR,
        _ => 0,
    }
}

// The commands from 0x480 on: PPE has the first half of the codes.
fn later_command(low: u8) -> u8
    requires { low < 32 }
    ensures { result ≡ kind_at (0x480 + low) }
{
    if low < 16 {
        return PPE;
    }
    match low {
        0x10 => IFC,
        0x12 => REN,
        0x13 => NRE,
        0x1a => AAU,
        0x1b => LPD,
        _ => 0,
    }
}

// Commands and ready frames, by groups of 32 codes.
fn grouped(frame: u16) -> u8
    requires { (0x400 ≤ frame) × (frame < 0x600) }
    ensures { result ≡ kind_at frame }
{
    let group = frame / 32;
    let low = (frame % 32) as u8;
    match group {
        0x20 => command(low),
        0x21 => address(LAD, UNL, low),
        0x22 => address(TAD, UNT, low),
        0x23 => address(SAD, 0, low),
        0x24 => later_command(low),
        0x25 => DDL,
        0x26 => DDT,
        0x28 => row(RFC, 1, low),
        0x2a => row(ETO, 3, low),
        0x2b => row(SDA, 5, low),
        0x2c => address(AAD, IAA, low),
        0x2d => address(AEP, IEP, low),
        0x2e => address(AES, IES, low),
        0x2f => address(AMP, IMP, low),
        _ => 0,
    }
}

// The kind by the frame's bits, as 001's table prints them: control bits, then the data bits' first three, then the
// rest.
fn kind(frame: u16) -> u8
    ensures { result ≡ kind_at frame }
{
    if frame < 0x200 {
        return DAB;
    }
    if frame < 0x400 {
        return END;
    }
    if frame < 0x600 {
        return grouped(frame);
    }
    if frame < 0x800 {
        return IDY;
    }
    0
}

// The data bits that a kind leaves free: those of a byte, an address, PPE's sense and bit, or none.
fn free(kind: u8) -> u8
    requires { kind < kinds }
    ensures { result ≡ free_bits kind }
{
    match kind {
        DAB => 0xff,
        END => 0xff,
        IDY => 0xff,
        LAD => 0x1f,
        TAD => 0x1f,
        SAD => 0x1f,
        DDL => 0x1f,
        DDT => 0x1f,
        AAD => 0x1f,
        AEP => 0x1f,
        AES => 0x1f,
        AMP => 0x1f,
        PPE => 0x0f,
        _ => 0,
    }
}

// C1 is free where all data bits are.
pub fn read(frame: u16) -> Message
    ensures { result ≡ decoded frame }
{
    let kind = kind(frame);
    let bits = free(kind);
    Message {
        kind,
        offset: (frame % 256) as u8 & bits,
        c1: (frame / 256 % 2) as u8 & (bits / 0xff),
    }
}

// The frame of a DAB, END or IDY.
pub fn write(message: Message) -> u16
    requires { (has_c1 message.kind ≡ true) × (message.c1 < 2) }
    ensures { result ≡ frame_of message }
{
    let bits = message.c1 as u16 * 256 + message.offset as u16;
    if message.kind == DAB {
        return bits;
    }
    if message.kind == END {
        return 0x200 + bits;
    }
    0x600 + bits
}
