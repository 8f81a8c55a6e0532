// Whether a device's addresses are sound, judged where its record lies (01, "Sound means"; 02, i): a test a clause, and
// then those of its variant.
#![tactic(auto)]

ghost use Rattle.std.specs.Prelude.{◌≡◌};
ghost use Rattle.record.specs.Record.{device_of};
ghost use Rattle.record.specs.Sound.{unconfigured_fixed, configured_able, simple_right, unconfigured_second};
ghost use Rattle.record.specs.Sound.{configured_both};
ghost use Rattle.record.specs.Sound.{extended_right, address_right};

use device::Device;
use record::read::{has, has_further};
use record::{ADDRESS, CONFIGURED, FIXED, FIXED_SECOND, SECOND, SIZE};

fn unconfigured_fixed(rec: &[u8; SIZE]) -> bool
    ensures { result ≡ unconfigured_fixed (device_of rec.now) }
{
    if rec[CONFIGURED] == 0 {
        return rec[ADDRESS] == rec[FIXED];
    }
    true
}

fn configured_able(rec: &[u8; SIZE]) -> bool
    ensures { result ≡ configured_able (device_of rec.now) }
{
    if rec[CONFIGURED] == 1 {
        return has(rec, Device::AUTO_ADDRESS) & (rec[ADDRESS] < Device::NO_ADDRESS);
    }
    true
}

fn simple_right(rec: &[u8; SIZE]) -> bool
    ensures { result ≡ simple_right (device_of rec.now) }
{
    configured_able(rec)
        & ((rec[CONFIGURED] <= 1) & ((rec[FIXED_SECOND] == 0) & (rec[SECOND] == 0)))
}

fn unconfigured_second(rec: &[u8; SIZE]) -> bool
    ensures { result ≡ unconfigured_second (device_of rec.now) }
{
    if rec[CONFIGURED] == 0 {
        return rec[SECOND] % Device::RECEIVED == rec[FIXED_SECOND] % Device::RECEIVED;
    }
    true
}

fn configured_both(rec: &[u8; SIZE]) -> bool
    ensures { result ≡ configured_both (device_of rec.now) }
{
    if rec[CONFIGURED] == 1 {
        return (rec[ADDRESS] < Device::NO_ADDRESS)
            & (rec[SECOND] % Device::RECEIVED < Device::NO_ADDRESS);
    }
    true
}

fn extended_right(rec: &[u8; SIZE]) -> bool
    ensures { result ≡ extended_right (device_of rec.now) }
{
    !has(rec, Device::AUTO_ADDRESS)
        & ((rec[FIXED_SECOND] < 2 * Device::RECEIVED)
            & ((rec[SECOND] < 2 * Device::RECEIVED)
                & (unconfigured_second(rec) & configured_both(rec))))
}

pub fn address_right(rec: &[u8; SIZE]) -> bool
    ensures { result ≡ address_right (device_of rec.now) }
{
    if unconfigured_fixed(rec) {
        if has_further(rec, Device::EXTENDED) {
            return extended_right(rec);
        }
        return simple_right(rec);
    }
    false
}
