// The two ends of the loop (01, The calls): frames put into its head and taken from its tail.
#![tactic(auto)]

pub mod put;
pub mod take;
