// Commands in a record (01, What a device does with a frame; 02, d): the record after each that names an address or
// takes roles and addresses away.
#![tactic(auto)]

ghost use Rattle.std.specs.Prelude.{◌≡◌};
ghost use Rattle.device.specs.Commands.{lad, tad, ifc, aau};
ghost use Rattle.record.specs.Record.{device_of};

use engine_bytes::{place, store, talk, talks};
use engine_remote::to_remote;
use engine_table::{
    ABILITIES, ADDRESS_NOW, ADDRESSED, AUTO_ADDRESS, FIXED_ADDRESS, IDLE, LISTEN, LISTENER, RECORD,
    UNADDRESS,
};

pub fn lad(rec: &mut [u8; RECORD], address: u8)
    ensures { device_of rec.new ≡ lad (device_of rec.old) address }
{
    let able = rec[ABILITIES];
    if address != rec[ADDRESS_NOW] {
        return;
    }
    if able & LISTEN == 0 {
        return;
    }
    to_remote(rec);
    store(rec, LISTENER, 1);
    if able & UNADDRESS != 0 {
        talk(rec, IDLE);
    }
}

pub fn tad(rec: &mut [u8; RECORD], address: u8)
    ensures { device_of rec.new ≡ tad (device_of rec.old) address }
{
    let able = rec[ABILITIES];
    if address != rec[ADDRESS_NOW] {
        talk(rec, IDLE);
        return;
    }
    if talks(rec) {
        if able & UNADDRESS != 0 {
            store(rec, LISTENER, 0);
            talk(rec, ADDRESSED);
            return;
        }
        talk(rec, ADDRESSED);
        return;
    }
    talk(rec, IDLE);
}

pub fn ifc(rec: &mut [u8; RECORD])
    ensures { device_of rec.new ≡ ifc (device_of rec.old) }
{
    store(rec, LISTENER, 0);
    talk(rec, IDLE);
}

pub fn aau(rec: &mut [u8; RECORD])
    ensures { device_of rec.new ≡ aau (device_of rec.old) }
{
    let fixed = rec[FIXED_ADDRESS];
    if rec[ABILITIES] & AUTO_ADDRESS == 0 {
        return;
    }
    place(rec, fixed, 0);
}
