// Runs the message table of document 001: each message's bits as the table prints them, its codes, and what decoder (as
// kind.offset.C1) and encoder make of these; then the kind of every frame, and the refusals.
#![tactic(auto)]

ghost use Rattle.std.specs.Prelude.{◌<◌};
ghost use Rattle.frame.specs.Messages.{frames};

use frame::FRAMES;
use print::hex;
use std::io;

fn main(rt: HostRuntime) -> io::Result<()> {
    println!(rt; "message: first and last code; decodings before, at and after them; frames")?;
    for row in ROWS {
        message(&rt, row)?;
    }
    println!(rt; "kind of every frame, by the decoder and by the table")?;
    frames(&rt)?;
    refusals(&rt)
}

fn refusals(rt: &impl Print) -> io::Result<()> {
    println!(rt; "decoder")?;
    for number in [0x543, 0x7ff, 0x800, 0x10000, u64::MAX] {
        print!(rt; "{}", hex(number))?;
        parts_at(rt, number)?;
        println!(rt)?;
    }
    println!(rt; "encoder")?;
    for (kind, offset, c1) in ENCODED {
        print!(rt; "{kind} {} {c1}", hex(offset))?;
        frame_at(rt, kind, offset, c1)?;
        println!(rt)?;
    }
    Ok(())
}

// Kinds, offsets and C1, within their bounds and past them.
const ENCODED: [(u64, u64, u64); 10] = [
    (0, 0, 0),
    (42, 0xff, 1),
    (42, 0xff, 2),
    (42, 0x100, 0),
    (12, 0x1e, 0),
    (12, 0x1e, 1),
    (43, 0, 0),
    (1, u64::MAX, 0),
    (1, 0, u64::MAX),
    (u64::MAX, 0, 0),
];

// The messages in the table's order: mnemonic, control bits, data bits, with letters for the free bits.
const ROWS: [&str; 42] = [
    "AAD 101 100AAAAA",
    "AAU 100 10011010",
    "AEP 101 101AAAAA",
    "AES 101 110AAAAA",
    "AMP 101 111AAAAA",
    "DAB 00X XXXXXXXX",
    "DCL 100 00010100",
    "DDL 100 101XXXXX",
    "DDT 100 110XXXXX",
    "EAR 100 00011000",
    "END 01X XXXXXXXX",
    "ETE 101 01000001",
    "ETO 101 01000000",
    "GET 100 00001000",
    "GTL 100 00000001",
    "IAA 101 10011111",
    "IDY 11X XXXXXXXX",
    "IEP 101 10111111",
    "IES 101 11011111",
    "IFC 100 10010000",
    "IMP 101 11111111",
    "LAD 100 001AAAAA",
    "LLO 100 00010001",
    "LPD 100 10011011",
    "NRD 101 01000010",
    "NRE 100 10010011",
    "NUL 100 00000000",
    "PPD 100 00000101",
    "PPE 100 1000SBBB",
    "PPU 100 00010101",
    "REN 100 10010010",
    "RFC 101 00000000",
    "SAD 100 011AAAAA",
    "SAI 101 01100011",
    "SDA 101 01100000",
    "SDC 100 00000100",
    "SDI 101 01100010",
    "SST 101 01100001",
    "TAD 100 010AAAAA",
    "TCT 101 01100100",
    "UNL 100 00111111",
    "UNT 100 01011111",
];

// A message's line.
fn message(rt: &impl Print, row: &str) -> io::Result<()> {
    let first = code(row, 0);
    let last = last_code(row);
    print!(rt; "{row}: {} {}", hex(first), hex(last))?;
    decodings(rt, first, last)?;
    frames_of(rt, last)
}

// The decodings before, at and after a message's codes.
fn decodings(rt: &impl Print, first: u64, last: u64) -> io::Result<()>
    requires { last < frames }
{
    print!(rt; ";")?;
    match first.checked_sub(1) {
        Some(before) => parts_at(rt, before)?,
        None => print!(rt; " none")?,
    }
    for number in [first, last, last + 1] {
        parts_at(rt, number)?;
    }
    Ok(())
}

// The frames at a kind's first and last offset and C1, at an offset too many and at a C1 too many.
fn frames_of(rt: &impl Print, last: u64) -> io::Result<()> {
    let answer = coding::decode(last);
    let kind = answer.kind as u64;
    let most = answer.offset as u64;
    let c1 = answer.c1 as u64;
    print!(rt; "; frames")?;
    for (offset, c1) in [(0, 0), (most, c1), (most + 1, c1), (0, c1 + 1)] {
        frame_at(rt, kind, offset, c1)?;
    }
    println!(rt)
}

// The highest code of a row. An address, in the letter A, is 0 to 30 (001, note 1 of the table).
fn last_code(row: &str) -> u64
    ensures { result < frames }
{
    let high = code(row, 1);
    if row.ends_with('A') {
        high.saturating_sub(1)
    } else {
        high
    }
}

// The code of a row's eleven bits, which stand after the mnemonic, with the free bits at `free`.
fn code(row: &str, free: u64) -> u64
    ensures { result < frames }
{
    let mut bits: u64 = 0;
    for digit in row.bytes().skip(3) {
        bits = and_digit(bits, digit, free);
    }
    bits
}

// The bits with one more: 0, 1, or the free bit for a letter; a space adds none.
fn and_digit(bits: u64, digit: u8, free: u64) -> u64
    requires { bits < frames }
    ensures { result < frames }
{
    match digit {
        b' ' => bits,
        b'0' => bits % 1024 * 2,
        b'1' => bits % 1024 * 2 + 1,
        _ => bits % 1024 * 2 + free % 2,
    }
}

fn frames(rt: &impl Print) -> io::Result<()> {
    let mut start: u64 = 0;
    for at in 0..FRAMES as u64 {
        start = run(rt, start, at)?;
    }
    Ok(())
}

// The line of a run of frames of one kind, where it ends at `at`; the answer is where the next frame's run starts.
fn run(rt: &impl Print, start: u64, at: u64) -> io::Result<u64>
    requires { at < frames }
{
    let here = coding::decode(start).kind;
    let next = coding::decode(at + 1).kind;
    if here == next {
        return Ok(start);
    }
    println!(rt;
        "{} {} {here} {}",
        hex(start),
        hex(at),
        published::kind(start)
    )?;
    Ok(at + 1)
}

// What the decoder answers: a kind, an offset and a C1, or a refusal.
fn parts_at(rt: &impl Print, number: u64) -> io::Result<()> {
    let answer = coding::decode(number);
    match answer.refusal {
        0 => print!(rt; " {}.{}.{}", answer.kind, answer.offset, answer.c1),
        refusal => print!(rt; " refusal {refusal}"),
    }
}

// What the encoder answers: a frame or a refusal.
fn frame_at(rt: &impl Print, kind: u64, offset: u64, c1: u64) -> io::Result<()> {
    let answer = coding::encode(kind, offset, c1);
    match answer.refusal {
        0 => print!(rt; " {}", hex(answer.frame as u64)),
        refusal => print!(rt; " refusal {refusal}"),
    }
}
