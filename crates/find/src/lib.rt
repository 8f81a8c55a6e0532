// A device by its number: its place in the loop of an area, or the refusal of the area or of the number.
#![tactic(auto)]

ghost use Rattle.std.specs.Prelude.{◌≡◌};
ghost use Rattle.find.specs.Find.{found_of};
ghost use Rattle.refusal.specs.Refusal.{numbered};

use area::lookup::place_of;
use judge::judge;
use refusal::Refusal;

#[tactic(auto, using(crate::proofs::Named::found_wrong, crate::proofs::Named::found_none, crate::proofs::Named::found_some, refusal::proofs::Numbers::numbered_above))]
pub fn find(area: &[u8], device: u64) -> Result<usize, Refusal>
    ensures { numbered result ≡ found_of area.now device }
{
    judge(area)?;
    let Some(i) = place_of(area, device) else {
        return Err(Refusal::NoDevice);
    };
    Ok(i)
}
