// What the calls answer to a caller in C; the crate refusal has why one is refused. What each call does is said in
// specs/, and done in the crates above.
#![tactic(auto)]

// The events that a hop reports: none, a clear, a trigger.
pub const NO_EVENT: u8 = 0;

pub const CLEAR: u8 = 1;

pub const TRIGGER: u8 = 2;

// The frame sent; where `handed` is 1, the byte handed with its end bit; and the event.
#[repr(C)]
#[derive(Clone, Copy)]
pub struct HopAnswer {
    pub frame: u16,
    pub refusal: u8,
    pub handed: u8,
    pub byte: u8,
    pub end: u8,
    pub event: u8,
}

// The frame taken.
#[repr(C)]
#[derive(Clone, Copy)]
pub struct TakeAnswer {
    pub frame: u16,
    pub refusal: u8,
}

// The hops made and why there are no more; for reason 2 the device, the byte handed to it and its end bit, for reason 3
// the device and, as the byte, the event.
#[repr(C)]
#[derive(Clone, Copy)]
pub struct DrainAnswer {
    pub hops: u32,
    pub refusal: u8,
    pub reason: u8,
    pub device: u8,
    pub byte: u8,
    pub end: u8,
}

// The hops that the frames in the links still owe.
#[repr(C)]
#[derive(Clone, Copy)]
pub struct OwedAnswer {
    pub hops: u32,
    pub refusal: u8,
}
