// The count over an IDY that came back from a poll (02, f), by the processor's own counts of a byte's bits.
#![tactic(auto)]

ghost use Rattle.std.specs.Prelude.{◌≡◌};
ghost use Rattle.poll_count.specs.Count.{no_count, counted, poll_count};
ghost use Rattle.refusal.specs.Refusal.{number};

use frame::IDY;
use refusal::Refusal;

// How many of an IDY's data bits are one, and the number of the lowest of them, 8 for none.
#[repr(C)]
#[derive(Clone, Copy)]
pub struct PollAnswer {
    pub refusal: u8,
    pub ones: u8,
    pub lowest: u8,
}

fn no_count(refusal: Refusal) -> PollAnswer
    ensures { result ≡ no_count (number refusal) }
{
    PollAnswer {
        refusal: refusal.number(),
        ones: 0,
        lowest: 0,
    }
}

fn counted(bits: u8) -> PollAnswer
    ensures { result ≡ counted bits }
{
    PollAnswer {
        refusal: 0,
        ones: u8::count_ones(bits) as u8,
        lowest: u8::trailing_zeros(bits) as u8,
    }
}

pub fn poll_count(frame: u64) -> PollAnswer
    ensures { result ≡ poll_count frame }
{
    match frame::decode(frame) {
        Some(message) if message.kind == IDY => counted(message.offset),
        _ => no_count(Refusal::BadFrame),
    }
}
