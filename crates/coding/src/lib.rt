// The decoder and the encoder in the terms of a caller in C: any numbers in, a refusal or a code out.
#![tactic(auto)]

ghost use Rattle.std.specs.Prelude.{◌≡◌};
ghost use Rattle.coding.specs.Coding.{no_decoding, decode_answer, no_encoding, encode_answer};
ghost use Rattle.refusal.specs.Refusal.{number};

use refusal::Refusal;

// A frame's kind, its offset in the kind, and C1.
#[repr(C)]
#[derive(Clone, Copy)]
pub struct DecodeAnswer {
    pub offset: u16,
    pub refusal: u8,
    pub kind: u8,
    pub c1: u8,
}

// The frame of a kind, an offset and a C1.
#[repr(C)]
#[derive(Clone, Copy)]
pub struct EncodeAnswer {
    pub frame: u16,
    pub refusal: u8,
}

// A refusal carries its number and otherwise zeros.
fn no_decoding(refusal: Refusal) -> DecodeAnswer
    ensures { result ≡ no_decoding (number refusal) }
{
    DecodeAnswer {
        offset: 0,
        refusal: refusal.number(),
        kind: 0,
        c1: 0,
    }
}

fn no_encoding(refusal: Refusal) -> EncodeAnswer
    ensures { result ≡ no_encoding (number refusal) }
{
    EncodeAnswer {
        frame: 0,
        refusal: refusal.number(),
    }
}

pub fn decode(frame: u64) -> DecodeAnswer
    ensures { result ≡ decode_answer frame }
{
    match frame::decode(frame) {
        Some(message) => DecodeAnswer {
            offset: message.offset as u16,
            refusal: 0,
            kind: message.kind,
            c1: message.c1,
        },
        None => no_decoding(Refusal::BadFrame),
    }
}

pub fn encode(kind: u64, offset: u64, c1: u64) -> EncodeAnswer
    ensures { result ≡ encode_answer kind offset c1 }
{
    match frame::encode(kind, offset, c1) {
        Some(frame) => EncodeAnswer { frame, refusal: 0 },
        None => no_encoding(Refusal::BadFrame),
    }
}
