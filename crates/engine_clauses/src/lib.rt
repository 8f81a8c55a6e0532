// The clauses of 01's "Sound means" that ask the same of every device: a group of them a chain of tests, in which "a
// only with b" is "not a, or b".
#![tactic(auto)]

ghost use Rattle.std.specs.Prelude.{◌≡◌};
ghost use Rattle.record.specs.Record.{device_of};
ghost use Rattle.record.specs.Sound.{in_range, poll_right, abilities_allowed};
ghost use Rattle.engine_clauses.specs.Clauses.{roles_right};

use engine_table::{
    ABILITIES, ACCESSORY_ID, ADDRESS_NOW, CHOICE, CONFIGURED, DATA_LENGTH, DEVICE_ID, EXTENDED,
    FIXED_ADDRESS, FURTHER, HALF_ASSIGNED, ID_LENGTH, LISTEN, LISTENER, MOST_DATA, MOST_ID,
    NO_ADDRESS, NRD_SEEN, PARALLEL_POLL, POLL_ASSIGNED, POLL_BIT, POLL_STATUS, POLLED, RECORD,
    REMOTE, REMOTE_ENABLE, REMOTE_LOCKED, SEND_DATA, SENDS_ACCESSORY_ID, SERVICE, SERVICE_REQUEST,
    STATUS, TALKER, UNADDRESS,
};

pub fn ranges(rec: &[u8; RECORD]) -> bool
    ensures { result ≡ in_range (device_of rec.now) }
{
    (rec[FIXED_ADDRESS] <= NO_ADDRESS)
        & ((rec[ADDRESS_NOW] <= NO_ADDRESS)
            & ((rec[CONFIGURED] <= HALF_ASSIGNED)
                & ((rec[LISTENER] <= 1)
                    & ((rec[TALKER] <= SENDS_ACCESSORY_ID)
                        & ((rec[SERVICE] <= POLLED)
                            & ((rec[FURTHER] <= PARALLEL_POLL + EXTENDED)
                                & ((rec[NRD_SEEN] <= 1)
                                    & ((rec[ID_LENGTH] <= MOST_ID)
                                        & ((rec[DATA_LENGTH] <= MOST_DATA)
                                            & ((rec[REMOTE] <= REMOTE_LOCKED)
                                                & ((rec[REMOTE_ENABLE] <= 1)
                                                    & (rec[CHOICE] <= 1))))))))))))
}

// 128 only with 4; 64 only with 1 and at least one of 2, 4, 8, 16.
pub fn abilities(rec: &[u8; RECORD]) -> bool
    ensures { result ≡ abilities_allowed (device_of rec.now) }
{
    let able = rec[ABILITIES];
    let talks = (able & SEND_DATA != 0)
        | ((able & STATUS != 0) | ((able & DEVICE_ID != 0) | (able & ACCESSORY_ID != 0)));
    (!(able & SERVICE_REQUEST != 0) | (able & STATUS != 0))
        & (!(able & UNADDRESS != 0) | ((able & LISTEN != 0) & talks))
}

// Listener and service only with their ability.
pub fn roles(rec: &[u8; RECORD]) -> bool
    ensures { result ≡ roles_right (device_of rec.now) }
{
    let able = rec[ABILITIES];
    ((rec[LISTENER] != 1) | (able & LISTEN != 0))
        & (!(0 < rec[SERVICE]) | (able & SERVICE_REQUEST != 0))
}

// The poll's bit is none, or 16 to 31, its status 0 or 1; both zero without the ability.
pub fn poll(rec: &[u8; RECORD]) -> bool
    ensures { result ≡ poll_right (device_of rec.now) }
{
    let bit = rec[POLL_BIT];
    let status = rec[POLL_STATUS];
    if (bit == 0) & (status == 0) {
        return true;
    }
    ((bit == 0) | ((POLL_ASSIGNED <= bit) & (bit <= POLL_ASSIGNED + 15)))
        & ((status <= 1) & (!(!(rec[FURTHER] & PARALLEL_POLL != 0)) | ((bit == 0) & (status == 0))))
}
