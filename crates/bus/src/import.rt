// Import: a row of command bytes as frames.
ghost use Rattle.std.specs.Prelude.{◌≡◌};
ghost use Rattle.bus.specs.Rows.{byte_without};
ghost use Rattle.bus.specs.Calls.{import_of, Is};

use crate::{FULL, MatchAnswer, NO_MATCH, RFC, has_command};
use frame::COMMANDS;

// The place of the first byte without a command, or the row's length.
pub fn byte_without(row: &[u8]) -> usize
    ensures { result ≡ byte_without row.now }
{
    row.iter()
        .position(|b| !has_command(*b))
        .unwrap_or(row.len())
}

// Each byte's command, followed by RFC.
pub fn import(row: &[u8], frames: &mut [u16]) -> MatchAnswer
    ensures { Is (import_of row.now frames.old) result frames.new }
{
    let place = byte_without(row);
    if place < row.len() {
        return MatchAnswer {
            place: place as u64,
            refusal: NO_MATCH,
        };
    }
    if frames.len() / 2 < row.len() {
        return MatchAnswer {
            place: 0,
            refusal: FULL,
        };
    }
    for (i, b) in row.iter().enumerate() {
        frames[2 * i] = COMMANDS + *b as u16;
        frames[2 * i + 1] = RFC;
    }
    MatchAnswer {
        place: 0,
        refusal: 0,
    }
}
