// Export: pairs of a command and RFC as command bytes.
ghost use Rattle.std.specs.Prelude.{◌≡◌};
ghost use Rattle.bus.specs.Rows.{frame_without};
ghost use Rattle.bus.specs.Calls.{export_of, Is};

use crate::{FULL, MatchAnswer, NO_MATCH, RFC, has_byte};
use frame::data_bits;

// The place of the first frame that does not stand in a pair, or the row's length.
fn frame_without(frames: &[u16]) -> usize
    ensures { result ≡ frame_without frames.now }
{
    let pairs = frames.len() / 2;
    for k in 0..pairs {
        if !has_byte(frames[2 * k]) {
            return 2 * k;
        }
        if frames[2 * k + 1] != RFC {
            return 2 * k + 1;
        }
    }
    if frames.len() % 2 == 0 {
        return frames.len();
    }
    if !has_byte(frames[2 * pairs]) {
        return 2 * pairs;
    }
    frames.len()
}

// The byte of each pair.
pub fn export(frames: &[u16], row: &mut [u8]) -> MatchAnswer
    ensures { Is (export_of frames.now row.old) result row.new }
{
    let place = frame_without(frames);
    if (place < frames.len()) | (frames.len() % 2 == 1) {
        return MatchAnswer {
            place: place as u64,
            refusal: NO_MATCH,
        };
    }
    let need = frames.len() / 2;
    if row.len() < need {
        return MatchAnswer {
            place: 0,
            refusal: FULL,
        };
    }
    for i in 0..need {
        row[i] = data_bits(frames[2 * i]);
    }
    MatchAnswer {
        place: 0,
        refusal: 0,
    }
}
