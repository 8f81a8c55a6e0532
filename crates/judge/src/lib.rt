// An area's refusal as such: its shape, then its contents.
#![tactic(auto)]

pub mod contents;

ghost use Rattle.std.specs.Prelude.{◌≡◌};
ghost use Rattle.area.specs.Loop.{shaped, judge_of};
ghost use Rattle.refusal.specs.Refusal.{told};

use crate::contents::contents_sound;
use area::{area_size, is_count};
use refusal::Refusal;

// The length is that of byte 0.
pub fn shape_right(area: &[u8]) -> bool
    ensures { result ≡ shaped area.now }
{
    if area.len() == 0 {
        return false;
    }
    let n = area[0] as usize;
    is_count(n) & (area.len() == area_size(n))
}

// An area's refusal, if it has one.
pub fn judge(area: &[u8]) -> Result<(), Refusal>
    ensures { told result ≡ judge_of area.now }
{
    if !shape_right(area) {
        return Err(Refusal::Shape);
    }
    if !contents_sound(area) {
        return Err(Refusal::Unsound);
    }
    Ok(())
}
