// Names for people, each table by its number: the mnemonics of the kinds as the message table of 001 has them, and a few
// words for each refusal, stop reason, event and state.
#![tactic(auto)]

ghost use Rattle.std.specs.Prelude.{◌≡◌, ◌<◌, ◌≤◌, length, slice_index_or};
ghost use lib.Chars.{codes};

use frame::KINDS;

// Kind 0 has none.
pub const MNEMONICS: [&str; KINDS] = [
    "---", "DAB", "END", "NUL", "GTL", "SDC", "PPD", "GET", "LLO", "DCL", "PPU", "EAR", "LAD",
    "UNL", "TAD", "UNT", "SAD", "PPE", "IFC", "REN", "NRE", "AAU", "LPD", "DDL", "DDT", "RFC",
    "ETO", "ETE", "NRD", "SDA", "SST", "SDI", "SAI", "TCT", "AAD", "IAA", "AEP", "IEP", "AES",
    "IES", "AMP", "IMP", "IDY",
];

// 0 for none.
pub const REFUSALS: [&str; 11] = [
    "accepted",
    "shape: lengths do not fit, or no set-up yet",
    "unsound: the area, an item or a choice breaks a rule",
    "no device: its number is too high",
    "bad frame: no such frame, kind, offset or C1, or no IDY",
    "empty: no frame to take",
    "full: no room for a frame",
    "no ability: the device cannot do that",
    "too long: more than 32 bytes",
    "busy: the device is sending data",
    "bad save: no saved loop, or not all of one",
];

// Why a drain stopped.
pub const STOPS: [&str; 4] = [
    "no hop possible",
    "budget spent",
    "byte handed",
    "clear or trigger",
];

// Talker states.
pub const TALKERS: [&str; 6] = [
    "idle",
    "addressed",
    "sending data",
    "sending status",
    "sending device ID",
    "sending accessory ID",
];

// Assignment states.
pub const ASSIGNMENTS: [&str; 3] = ["unconfigured", "configured", "half assigned"];

// Service states.
pub const SERVICES: [&str; 3] = ["none", "asking", "polled"];

// Remote and local.
pub const REMOTES: [&str; 4] = ["local", "remote", "local locked", "remote locked"];

// What a hop reports.
pub const EVENTS: [&str; 3] = ["none", "clear", "trigger"];

// The name of a number in its table, and "?" for one past its end.
pub fn name(table: &[&'static str], number: u64) -> &'static str
    ensures within { number < length table.now → result ≡ slice_index_or table.now number result }
    ensures past { length table.now ≤ number → result.now ≡ codes "?" }
{
    table.get(number as usize).copied().unwrap_or("?")
}
