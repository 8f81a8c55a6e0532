// Open: a save becomes the lent area, if it has the form and its contents are sound. One of the old edition is opened
// as its upgrade (02, h).
#![tactic(auto)]

mod old;

ghost use Rattle.calls.specs.Outcome.{Is};
ghost use Rattle.refusal.specs.Refusal.{told};
ghost use Rattle.saved.specs.Calls.{open_of};

use crate::old::open_old;
use area::area_size;
use bodies::{bodies_sound, read_bodies};
use form::form_right;
use refusal::Refusal;
use saved::{EDITION_AT, EDITION_OLD, HEAD_SIZE};

pub fn open(area: &mut [u8], save: &[u8]) -> Result<(), Refusal>
    ensures { Is (open_of area.old save.now) (told result) area.new }
{
    if !form_right(save) {
        return Err(Refusal::BadSave);
    }
    let n = save[HEAD_SIZE] as usize;
    if area.len() != area_size(n) {
        return Err(Refusal::Shape);
    }
    if !bodies_sound(save, n) {
        return Err(Refusal::Unsound);
    }
    if save[EDITION_AT] == EDITION_OLD {
        return open_old(area, save, n);
    }
    read_bodies(save, area, n);
    Ok(())
}
