// Put: a frame of any kind goes into link 0.
ghost use Rattle.calls.specs.Outcome.{Is};
ghost use Rattle.calls.specs.Calls.{put_of};
ghost use Rattle.refusal.specs.Refusal.{told};

use area::change::add_at;
use area::lookup::room_at;
use judge::judge;
use refusal::Refusal;

pub fn put(area: &mut [u8], frame: u64) -> Result<(), Refusal>
    ensures { Is (put_of area.old frame) (told result) area.new }
{
    judge(area)?;
    if frame::FRAMES as u64 <= frame {
        return Err(Refusal::BadFrame);
    }
    let Some(behind) = room_at(area, 0) else {
        return Err(Refusal::Full);
    };
    add_at(area, 0, behind, frame as u16);
    Ok(())
}
