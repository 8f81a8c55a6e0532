// Bytes put where they lie: zeros, and the record of a whole device as set-up writes it.
#![tactic(auto)]

ghost use Rattle.std.specs.Prelude.{◌≡◌, length, replicate};
ghost use Rattle.record.specs.Record.{record_of};

use device::Device;
use record::{ID, LOAD, SIZE};

// All bytes become zero.
pub fn clear(s: &mut [u8])
    ensures { s.new ≡ replicate (length s.old) 0 }
{
    let mut i = 0;
    while i < s.len() {
        s[i] = 0;
        i += 1;
    }
}

// A record's bytes become those of a device.
pub fn write(rec: &mut [u8; SIZE], d: Device)
    ensures { rec.new ≡ record_of d }
{
    let low = (d.last % 256) as u8;
    let high = (d.last / 256) as u8;
    let head = [
        d.abilities,
        d.fixed,
        d.address,
        d.configured,
        d.listener,
        d.talker,
        d.service,
        d.further,
        d.noted,
        d.status,
        d.accessory,
        d.idlength,
        d.loadlength,
        d.sent,
        low,
        high,
        d.replied,
        d.remote,
        d.enabled,
        d.choice,
        d.fixedsecond,
        d.second,
        d.assigned,
        d.pollstatus,
    ];
    rec[..ID].copy_from_slice(&head);
    rec[ID..LOAD].copy_from_slice(&d.id);
    rec[LOAD..SIZE].copy_from_slice(&d.load);
}
