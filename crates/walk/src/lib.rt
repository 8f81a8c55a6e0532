// What a walk answers to a caller in C. What it does is said in specs/, and done by the plain engine: the crate engine,
// and those named engine_ that it is made of.
#![tactic(auto)]

// The frame that comes out.
#[repr(C)]
#[derive(Clone, Copy)]
pub struct WalkAnswer {
    pub frame: u16,
    pub refusal: u8,
}
