// What a frame can alter of a device, by value. The rest stays in the device's record, lent beside it.
#![tactic(auto)]

mod change;

ghost use Rattle.std.specs.Prelude.{◌≡◌};
ghost use Rattle.record.specs.Record.{device_of};
ghost use Rattle.record.specs.Written.{written};
ghost use Rattle.device.specs.declared.Device.{Device};
ghost use Rattle.device.specs.Reply.{sends};
ghost use Rattle.state.specs.State.{values, with, in_record, sent_with};

use device::Handed;
use record::{
    ADDRESS, ASSIGNED, CONFIGURED, ENABLED, LAST, LISTENER, NOTED, REMOTE, REPLIED, SENT, SERVICE,
    SIZE, TALKER, word_at,
};

// The order of the fields was found by trying: it decides how much stack a hop takes, and means nothing else
// (docs/PERFORMANCE.md).
#[derive(Clone, Copy)]
pub struct State {
    pub last: u16,
    pub address: u8,
    pub listener: u8,
    pub configured: u8,
    pub talker: u8,
    pub noted: u8,
    pub sent: u8,
    pub replied: u8,
    pub service: u8,
    pub remote: u8,
    pub enabled: u8,
    pub assigned: u8,
}

// The state after a frame, the frame that is sent and what is handed over.
#[derive(Clone, Copy)]
pub struct Passed {
    pub state: State,
    pub frame: u16,
    pub handed: Handed,
}

// The frame goes out, and nothing is handed over.
pub fn sends(state: State, frame: u16) -> Passed
    ensures { (d : Device) → sent_with d result ≡ sends (with d state) frame }
{
    Passed {
        state,
        frame,
        handed: Handed::Nothing,
    }
}

impl State {
    // The state in a record.
    pub fn read(rec: &[u8; SIZE]) -> Self
        ensures { in_record rec.now result ≡ device_of rec.now }
    {
        let last = word_at(rec, LAST);
        Self {
            address: rec[ADDRESS],
            configured: rec[CONFIGURED],
            listener: rec[LISTENER],
            talker: rec[TALKER],
            service: rec[SERVICE],
            noted: rec[NOTED],
            sent: rec[SENT],
            last,
            replied: rec[REPLIED],
            remote: rec[REMOTE],
            enabled: rec[ENABLED],
            assigned: rec[ASSIGNED],
        }
    }

    // Its bytes go into a record; every other byte stays.
    pub fn write(self, rec: &mut [u8; SIZE])
        ensures { rec.new ≡ written (values self) rec.old }
    {
        rec[ADDRESS] = self.address;
        rec[CONFIGURED] = self.configured;
        rec[LISTENER] = self.listener;
        rec[TALKER] = self.talker;
        rec[SERVICE] = self.service;
        rec[NOTED] = self.noted;
        rec[SENT] = self.sent;
        rec[LAST] = (self.last % 256) as u8;
        rec[LAST + 1] = (self.last / 256) as u8;
        rec[REPLIED] = self.replied;
        rec[REMOTE] = self.remote;
        rec[ENABLED] = self.enabled;
        rec[ASSIGNED] = self.assigned;
    }
}
