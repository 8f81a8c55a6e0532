// The clauses on a talker and its data (01, "Sound means"): a chain of tests for a device that sends nothing, one for
// data, one for the replies of states 3 to 5.
#![tactic(auto)]

ghost use Rattle.std.specs.Prelude.{◌≡◌, ◌≤◌, ◌<◌, get_or};
ghost use Rattle.device.specs.Device.{addressed, sending_data};
ghost use Rattle.device.specs.Change.{talker};
ghost use Rattle.record.specs.Record.{device_of};
ghost use Rattle.record.specs.Sound.{talker_right};

use engine_table::{
    ABILITIES, ACCESSORY_ID, ADDRESSED, DATA_LENGTH, DATA_SENT, DEVICE_ID, ID_LENGTH, LAST_HIGH,
    LAST_LOW, NRD_SEEN, PAST_LAST, RECORD, REPLY_SENT, SEND_DATA, SENDS_ACCESSORY_ID, SENDS_DATA,
    SENDS_DEVICE_ID, SENDS_STATUS, STATUS, TALKER,
};

// The last frame sent.
fn last(rec: &[u8; RECORD]) -> u16
    ensures { result ≡ (device_of rec.now).last }
{
    rec[LAST_LOW] as u16 + 256 * (rec[LAST_HIGH] as u16)
}

// Idle or addressed: addressed with something to send, and no reply, NRD or last frame.
fn quiet(rec: &[u8; RECORD]) -> bool
    requires { get_or rec.now talker 0 ≤ addressed }
    ensures { result ≡ talker_right (device_of rec.now) }
{
    let able = rec[ABILITIES];
    let talks = (able & SEND_DATA != 0)
        | ((able & STATUS != 0) | ((able & DEVICE_ID != 0) | (able & ACCESSORY_ID != 0)));
    ((rec[TALKER] != ADDRESSED) | talks)
        & ((!(0 < rec[DATA_LENGTH]) | (able & SEND_DATA != 0))
            & ((rec[DATA_SENT] <= rec[DATA_LENGTH])
                & ((rec[REPLY_SENT] == 0) & ((rec[NRD_SEEN] == 0) & (last(rec) == 0)))))
}

// Sending data, of which some is sent, and no reply.
fn sends_data(rec: &[u8; RECORD]) -> bool
    requires { get_or rec.now talker 0 ≡ sending_data }
    ensures { result ≡ talker_right (device_of rec.now) }
{
    let able = rec[ABILITIES];
    let sent = rec[DATA_SENT];
    (able & SEND_DATA != 0)
        & ((!(0 < rec[DATA_LENGTH]) | (able & SEND_DATA != 0))
            & (((sent <= rec[DATA_LENGTH]) & (1 <= sent))
                & ((rec[REPLY_SENT] == 0) & (last(rec) < PAST_LAST))))
}

// Sending a reply with its ability, and as far as its state has it.
fn replies(rec: &[u8; RECORD]) -> bool
    requires { sending_data < get_or rec.now talker 0 }
    ensures { result ≡ talker_right (device_of rec.now) }
{
    let able = rec[ABILITIES];
    let talker = rec[TALKER];
    let reply = rec[REPLY_SENT];
    (((talker != SENDS_STATUS) | (able & STATUS != 0))
        & (((talker != SENDS_DEVICE_ID) | (able & DEVICE_ID != 0))
            & ((talker != SENDS_ACCESSORY_ID) | (able & ACCESSORY_ID != 0))))
        & ((!(0 < rec[DATA_LENGTH]) | (able & SEND_DATA != 0))
            & ((rec[DATA_SENT] <= rec[DATA_LENGTH])
                & ((((talker != SENDS_STATUS) | (reply == 1))
                    & (((talker != SENDS_ACCESSORY_ID) | (reply == 1))
                        & ((talker != SENDS_DEVICE_ID)
                            | ((1 <= reply) & (reply <= rec[ID_LENGTH])))))
                    & (last(rec) < PAST_LAST))))
}

pub fn talker(rec: &[u8; RECORD]) -> bool
    ensures { result ≡ talker_right (device_of rec.now) }
{
    let talker = rec[TALKER];
    if talker <= ADDRESSED {
        return quiet(rec);
    }
    if talker == SENDS_DATA {
        return sends_data(rec);
    }
    replies(rec)
}
