// Take: the tail's oldest frame comes out.
ghost use Rattle.std.specs.Prelude.{◌≡◌};
ghost use Rattle.calls.specs.Outcome.{Is};
ghost use Rattle.calls.specs.Calls.{take_of};
ghost use Rattle.calls.specs.Told.{take_told};

use area::change::remove_at;
use area::lookup::{devices_in, oldest_at};
use calls::TakeAnswer;
use judge::judge;
use refusal::Refusal;

// The tail's oldest frame, or why there is none to take.
fn oldest_out(area: &mut [u8]) -> Result<u16, Refusal>
    ensures { Is (take_of area.old) (take_told result) area.new }
{
    judge(area)?;
    let tail = devices_in(area);
    let Some(frame) = oldest_at(area, tail) else {
        return Err(Refusal::Empty);
    };
    remove_at(area, tail);
    Ok(frame)
}

pub fn take(area: &mut [u8]) -> TakeAnswer
    ensures { Is (take_of area.old) result area.new }
{
    match oldest_out(area) {
        Ok(frame) => TakeAnswer { frame, refusal: 0 },
        Err(refusal) => TakeAnswer {
            frame: 0,
            refusal: refusal.number(),
        },
    }
}
