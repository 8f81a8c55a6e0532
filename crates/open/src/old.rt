// A save of the old edition, from before loads took a choice (02, h): it is opened as its upgrade.
ghost use Rattle.std.specs.Prelude.{◌≡◌, length};
ghost use Rattle.area.specs.Sizes.{area_size};
ghost use Rattle.calls.specs.Outcome.{Is};
ghost use Rattle.refusal.specs.Refusal.{told};
ghost use Rattle.saved.specs.Inner.{SaveOf, old_opened};

use area::HEADER_SIZE;
use bodies::read_bodies;
use older::{ask, choices_zero};
use refusal::Refusal;
use saved::HEADER_RECORD;

// What an old save of n devices comes to, if their bytes 19 are zero.
pub fn open_old(area: &mut [u8], save: &[u8], n: usize) -> Result<(), Refusal>
    requires { SaveOf n save.now × (length area.old ≡ area_size n) }
    ensures { Is (old_opened area.old save.now) (told result) area.new }
{
    if !choices_zero(&save[HEADER_RECORD..], n) {
        return Err(Refusal::Unsound);
    }
    let links = HEADER_SIZE + record::SIZE * n;
    read_bodies(save, area, n);
    ask(&mut area[HEADER_SIZE..links], n);
    Ok(())
}
