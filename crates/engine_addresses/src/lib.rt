// The clauses on a device's addresses (01, "Sound means"; 02, i) by what byte 3 says: not configured, configured or
// half assigned. What each of them asks for is one chain of tests.
#![tactic(auto)]

ghost use Rattle.std.specs.Prelude.{◌≡◌};
ghost use Rattle.record.specs.Record.{device_of};
ghost use Rattle.record.specs.Sound.{address_right};
ghost use Rattle.engine_addresses.specs.Addresses.{simple_at, extended_at};

use engine_table::{
    ABILITIES, ADDRESS_NOW, AUTO_ADDRESS, CONFIGURED, EXTENDED, FIXED_ADDRESS, FIXED_SECOND,
    FURTHER, NO_ADDRESS, RECEIVED, RECORD, SECOND_NOW,
};

fn simple(rec: &[u8; RECORD]) -> bool
    ensures { result ≡ simple_at (device_of rec.now) }
{
    let configured = rec[CONFIGURED];
    let no_second = (rec[FIXED_SECOND] == 0) & (rec[SECOND_NOW] == 0);
    if configured == 0 {
        return (rec[ADDRESS_NOW] == rec[FIXED_ADDRESS]) & no_second;
    }
    (configured == 1)
        & (((rec[ABILITIES] & AUTO_ADDRESS != 0) & (rec[ADDRESS_NOW] < NO_ADDRESS)) & no_second)
}

fn extended(rec: &[u8; RECORD]) -> bool
    ensures { result ≡ extended_at (device_of rec.now) }
{
    let configured = rec[CONFIGURED];
    let fixed = rec[FIXED_SECOND];
    let second = rec[SECOND_NOW];
    let able = rec[ABILITIES] & AUTO_ADDRESS != 0;
    let in_range = (fixed < 2 * RECEIVED) & (second < 2 * RECEIVED);
    if configured == 0 {
        return (rec[ADDRESS_NOW] == rec[FIXED_ADDRESS])
            & (!able & (in_range & (second % RECEIVED == fixed % RECEIVED)));
    }
    !able
        & (in_range
            & ((configured != 1)
                | ((rec[ADDRESS_NOW] < NO_ADDRESS) & (second % RECEIVED < NO_ADDRESS))))
}

pub fn addresses(rec: &[u8; RECORD]) -> bool
    ensures { result ≡ address_right (device_of rec.now) }
{
    if rec[FURTHER] & EXTENDED != 0 {
        return extended(rec);
    }
    simple(rec)
}
