// Remote and local in a record (02, d; 001, 2.17), by bits: of the four states' numbers bit 0 says remote, bit 1
// locked.
#![tactic(auto)]

ghost use Rattle.std.specs.Prelude.{◌≡◌};
ghost use Rattle.device.specs.Remote.{ren, nre, to_remote, llo, gtl};
ghost use Rattle.record.specs.Record.{device_of};
ghost use Rattle.engine_remote.specs.Bits.{bits_moved};

use engine_bytes::store;
use engine_table::{LISTENER, RECORD, REMOTE, REMOTE_ENABLE};

const IS_REMOTE: u8 = 1;

const IS_LOCKED: u8 = 2;

const BOTH: u8 = IS_REMOTE + IS_LOCKED;

// The states are the numbers below this.
const STATES: u8 = 4;

pub fn ren(rec: &mut [u8; RECORD])
    ensures { device_of rec.new ≡ ren (device_of rec.old) }
{
    store(rec, REMOTE_ENABLE, 1);
}

pub fn nre(rec: &mut [u8; RECORD])
    ensures { device_of rec.new ≡ nre (device_of rec.old) }
{
    store(rec, REMOTE, 0);
    store(rec, REMOTE_ENABLE, 0);
}

// A state's bits: those of `kept` stay, and those of `set` are set. A number that is no state stays.
fn bits(rec: &mut [u8; RECORD], kept: u8, set: u8)
    ensures { device_of rec.new ≡ bits_moved (device_of rec.old) kept set }
{
    let state = rec[REMOTE];
    if state < STATES {
        store(rec, REMOTE, (state & kept) | set);
    }
}

// What the device's own LAD does besides, while enabled.
pub fn to_remote(rec: &mut [u8; RECORD])
    ensures { device_of rec.new ≡ to_remote (device_of rec.old) }
{
    if rec[REMOTE_ENABLE] == 1 {
        bits(rec, BOTH, IS_REMOTE);
    }
}

pub fn llo(rec: &mut [u8; RECORD])
    ensures { device_of rec.new ≡ llo (device_of rec.old) }
{
    if rec[REMOTE_ENABLE] == 1 {
        bits(rec, BOTH, IS_LOCKED);
    }
}

// It works while not enabled too.
pub fn gtl(rec: &mut [u8; RECORD])
    ensures { device_of rec.new ≡ gtl (device_of rec.old) }
{
    if rec[LISTENER] == 1 {
        bits(rec, IS_LOCKED, 0);
    }
}
