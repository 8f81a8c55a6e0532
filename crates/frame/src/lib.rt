// The codes of the loop: the one decoding of a frame (its kind, its offset in the kind, and C1), and the frame that
// these three make. The rules of other crates take a frame's parts from here.
#![tactic(auto)]

ghost use Rattle.std.specs.Prelude.{◌≡◌, ◌<◌};
ghost use Rattle.frame.specs.Messages.{kinds, kind_at, number_of, first_of};
ghost use Rattle.frame.specs.Classes.{IsData};
ghost use Rattle.frame.specs.Decoding.{message, data_in, idy, has_c1, decoded, offsets_of, c1s_of, frame_of};
ghost use Rattle.frame.specs.Decoding.{WithC1, Coded};
ghost use Rattle.frame.specs.Coding.{decode_of, encode_of};

// Frames are the numbers below this.
pub const FRAMES: usize = 2048;

// The first command, the first ready frame and the first IDY; what is below the first command is data or end.
pub const COMMANDS: u16 = 0x400;

pub const READY: u16 = 0x500;

pub const IDENTIFY: u16 = 0x600;

// The control bits C1 and C2, each as what it adds to a frame.
pub const C1: u16 = 0x100;

pub const C2: u16 = 0x200;

// The numbers of the kinds with C1.
pub const DAB: u8 = 1;

pub const END: u8 = 2;

pub const IDY: u8 = 42;

// The kinds of frame in the order of their numbers; `Unused` is kind 0, of every frame outside the list.
#[derive(Clone, Copy)]
pub enum Kind {
    Unused,
    Dab,
    End,
    Nul,
    Gtl,
    Sdc,
    Ppd,
    Get,
    Llo,
    Dcl,
    Ppu,
    Ear,
    Lad,
    Unl,
    Tad,
    Unt,
    Sad,
    Ppe,
    Ifc,
    Ren,
    Nre,
    Aau,
    Lpd,
    Ddl,
    Ddt,
    Rfc,
    Eto,
    Ete,
    Nrd,
    Sda,
    Sst,
    Sdi,
    Sai,
    Tct,
    Aad,
    Iaa,
    Aep,
    Iep,
    Aes,
    Ies,
    Amp,
    Imp,
    Idy,
}

// A frame decoded, its kind as a number; kind 0 is that of a frame that is no message.
#[derive(Clone, Copy)]
pub struct Message {
    pub kind: u8,
    pub offset: u8,
    pub c1: u8,
}

// The kind of a frame; a number over 2,047 is no frame and is of kind 0.
pub fn kind_of(frame: u16) -> Kind
    ensures { number_of result ≡ kind_at frame }
{
    match frame {
        0x000..=0x1ff => Kind::Dab,
        0x200..=0x3ff => Kind::End,
        0x400 => Kind::Nul,
        0x401 => Kind::Gtl,
        0x404 => Kind::Sdc,
        0x405 => Kind::Ppd,
        0x408 => Kind::Get,
        0x411 => Kind::Llo,
        0x414 => Kind::Dcl,
        0x415 => Kind::Ppu,
        0x418 => Kind::Ear,
        0x420..=0x43e => Kind::Lad,
        0x43f => Kind::Unl,
        0x440..=0x45e => Kind::Tad,
        0x45f => Kind::Unt,
        0x460..=0x47e => Kind::Sad,
        0x480..=0x48f => Kind::Ppe,
        0x490 => Kind::Ifc,
        0x492 => Kind::Ren,
        0x493 => Kind::Nre,
        0x49a => Kind::Aau,
        0x49b => Kind::Lpd,
        0x4a0..=0x4bf => Kind::Ddl,
        0x4c0..=0x4df => Kind::Ddt,
        0x500 => Kind::Rfc,
        0x540 => Kind::Eto,
        0x541 => Kind::Ete,
        0x542 => Kind::Nrd,
        0x560 => Kind::Sda,
        0x561 => Kind::Sst,
        0x562 => Kind::Sdi,
        0x563 => Kind::Sai,
        0x564 => Kind::Tct,
        0x580..=0x59e => Kind::Aad,
        0x59f => Kind::Iaa,
        0x5a0..=0x5be => Kind::Aep,
        0x5bf => Kind::Iep,
        0x5c0..=0x5de => Kind::Aes,
        0x5df => Kind::Ies,
        0x5e0..=0x5fe => Kind::Amp,
        0x5ff => Kind::Imp,
        0x600..=0x7ff => Kind::Idy,
        _ => Kind::Unused,
    }
}

// A kind's number in the list.
pub fn number(kind: Kind) -> u8
    ensures { result ≡ number_of kind }
{
    kind as u8
}

// Kinds are the numbers below this.
pub const KINDS: usize = 43;

// The first code of each kind, from kind 0 on.
const FIRST: [u16; KINDS] = [
    0, 0x000, // DAB
    0x200, // END
    0x400, // NUL
    0x401, // GTL
    0x404, // SDC
    0x405, // PPD
    0x408, // GET
    0x411, // LLO
    0x414, // DCL
    0x415, // PPU
    0x418, // EAR
    0x420, // LAD
    0x43f, // UNL
    0x440, // TAD
    0x45f, // UNT
    0x460, // SAD
    0x480, // PPE
    0x490, // IFC
    0x492, // REN
    0x493, // NRE
    0x49a, // AAU
    0x49b, // LPD
    0x4a0, // DDL
    0x4c0, // DDT
    0x500, // RFC
    0x540, // ETO
    0x541, // ETE
    0x542, // NRD
    0x560, // SDA
    0x561, // SST
    0x562, // SDI
    0x563, // SAI
    0x564, // TCT
    0x580, // AAD
    0x59f, // IAA
    0x5a0, // AEP
    0x5bf, // IEP
    0x5c0, // AES
    0x5df, // IES
    0x5e0, // AMP
    0x5ff, // IMP
    0x600, // IDY
];

// How many offsets each kind has; a kind with C1 has each of them twice.
const OFFSETS: [u16; KINDS] = [
    0, 256, // DAB
    256, // END
    1, // NUL
    1, // GTL
    1, // SDC
    1, // PPD
    1, // GET
    1, // LLO
    1, // DCL
    1, // PPU
    1, // EAR
    31, // LAD
    1, // UNL
    31, // TAD
    1, // UNT
    31, // SAD
    16, // PPE
    1, // IFC
    1, // REN
    1, // NRE
    1, // AAU
    1, // LPD
    32, // DDL
    32, // DDT
    1, // RFC
    1, // ETO
    1, // ETE
    1, // NRD
    1, // SDA
    1, // SST
    1, // SDI
    1, // SAI
    1, // TCT
    31, // AAD
    1, // IAA
    31, // AEP
    1, // IEP
    31, // AES
    1, // IES
    31, // AMP
    1, // IMP
    256, // IDY
];

fn first(kind: usize) -> u16
    requires { kind < kinds }
    ensures { result ≡ first_of kind }
{
    FIRST[kind]
}

fn offsets(kind: usize) -> u16
    requires { kind < kinds }
    ensures { result ≡ offsets_of kind }
{
    OFFSETS[kind]
}

fn has_c1(kind: u8) -> bool
    ensures { result ≡ has_c1 kind }
{
    (kind == DAB) | ((kind == END) | (kind == IDY))
}

// How many values a kind's C1 has.
fn c1s(kind: u8) -> u8
    ensures { result ≡ c1s_of kind }
{
    if has_c1(kind) {
        return 2;
    }
    1
}

// The eight data bits of a frame.
pub fn data_bits(frame: u16) -> u8
    ensures { result ≡ data_in frame }
{
    (frame % C1) as u8
}

// A frame of a kind with C1, decoded.
pub fn with_c1(kind: u8, frame: u16) -> Message
    requires { WithC1 kind frame }
    ensures { result ≡ decoded frame }
{
    Message {
        kind,
        offset: (frame % C1) as u8,
        c1: (frame / C1 % 2) as u8,
    }
}

// A data byte decoded: C2 tells an END from a DAB.
pub fn data_of(frame: u16) -> Message
    requires { IsData frame }
    ensures { result ≡ decoded frame }
{
    with_c1(DAB + (frame / C2) as u8, frame)
}

// The IDY of these data bits and C1.
pub fn idy_of(bits: u8, c1: u8) -> u16
    requires { c1 < 2 }
    ensures { result ≡ frame_of (message idy bits c1) }
{
    first(IDY as usize) + bits as u16 + C1 * c1 as u16
}

// The offset of a frame in its kind, a kind of the list without C1.
pub fn offset_of(kind: Kind, frame: u16) -> u8
    requires { Coded (number_of kind) frame }
    ensures { result ≡ (decoded frame).offset }
{
    (frame - first(number(kind) as usize)) as u8
}

// The decoder: the decoding, if the number is a frame.
#[tactic(auto, using(crate::proofs::Laws::nought, crate::proofs::Laws::same, crate::proofs::Laws::c1_coded), unfolding(crate::specs::Coding::decode_of))]
pub fn decode(frame: u64) -> Option<Message>
    ensures { result ≡ decode_of frame }
{
    if FRAMES as u64 <= frame {
        return None;
    }
    let f = frame as u16;
    let kind = kind_of(f);
    let k = number(kind);
    if has_c1(k) {
        return Some(with_c1(k, f));
    }
    if k == 0 {
        return Some(Message {
            kind: 0,
            offset: 0,
            c1: 0,
        });
    }
    Some(Message {
        kind: k,
        offset: offset_of(kind, f),
        c1: 0,
    })
}

// The encoder: the frame, if the list has these three.
#[tactic(auto, using(crate::proofs::Laws::no_offsets), unfolding(crate::specs::Coding::encode_of))]
pub fn encode(kind: u64, offset: u64, c1: u64) -> Option<u16>
    ensures { result ≡ encode_of (message kind offset c1) }
{
    if KINDS as u64 <= kind {
        return None;
    }
    let k = kind as usize;
    if offsets(k) as u64 <= offset {
        return None;
    }
    if c1s(kind as u8) as u64 <= c1 {
        return None;
    }
    Some(first(k) + offset as u16 + C1 * c1 as u16)
}
