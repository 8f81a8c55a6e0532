// Parallel poll in a record (02, f; 001, 2.12): how sense and bit are told and taken away, and the answer to an IDY.
#![tactic(auto)]

ghost use Rattle.std.specs.Prelude.{◌≡◌, ◌<◌};
ghost use Rattle.device.specs.Poll.{ppe, ppd, ppu, answer};
ghost use Rattle.record.specs.Record.{device_of};

use engine_bytes::store;
use engine_table::{
    FURTHER, LISTENER, PARALLEL_POLL, POLL_ASSIGNED, POLL_BIT, POLL_STATUS, RECORD,
};

// The data bits D1 to D8.
const BITS: [u8; 8] = [1, 2, 4, 8, 16, 32, 64, 128];

pub fn ppe(rec: &mut [u8; RECORD], sbbb: u8)
    requires { sbbb < 16 }
    ensures { device_of rec.new ≡ ppe (device_of rec.old) sbbb }
{
    if rec[LISTENER] != 1 {
        return;
    }
    if rec[FURTHER] & PARALLEL_POLL == 0 {
        return;
    }
    store(rec, POLL_BIT, POLL_ASSIGNED + sbbb);
}

pub fn ppd(rec: &mut [u8; RECORD])
    ensures { device_of rec.new ≡ ppd (device_of rec.old) }
{
    if rec[LISTENER] != 1 {
        return;
    }
    store(rec, POLL_BIT, 0);
}

pub fn ppu(rec: &mut [u8; RECORD])
    ensures { device_of rec.new ≡ ppu (device_of rec.old) }
{
    store(rec, POLL_BIT, 0);
}

// The device's bit, where one was told and its status is the sense; else none.
pub fn answer(rec: &[u8; RECORD]) -> u8
    ensures { result ≡ answer (device_of rec.now) }
{
    let told = rec[POLL_BIT];
    if told == 0 {
        return 0;
    }
    if rec[POLL_STATUS] != told / 8 % 2 {
        return 0;
    }
    BITS[(told % 8) as usize]
}
