// One device of the loop: its fields as 01's table of the record has them, and all of it at power-on. What it does with
// a frame is said in specs/, and done by the crates above on the state that a frame can alter.
#![tactic(auto)]

ghost use Rattle.std.specs.Prelude.{◌≡◌};
ghost use Rattle.device.specs.PowerOn.{power_on};

#[derive(Clone, Copy)]
pub struct Device {
    pub abilities: u8,
    pub fixed: u8,
    pub address: u8,
    pub configured: u8,
    pub listener: u8,
    pub talker: u8,
    pub service: u8,
    pub further: u8,
    pub noted: u8,
    pub status: u8,
    pub accessory: u8,
    pub idlength: u8,
    pub loadlength: u8,
    pub sent: u8,
    pub last: u16,
    pub replied: u8,
    pub remote: u8,
    pub enabled: u8,
    pub choice: u8,
    pub fixedsecond: u8,
    pub second: u8,
    pub assigned: u8,
    pub pollstatus: u8,
    pub id: [u8; Device::MOST_ID],
    pub load: [u8; Device::MOST_DATA],
}

// What is handed to the instrument behind a device: a byte to a listener, with its end bit C2; a clear, or a trigger.
#[derive(Clone, Copy)]
pub enum Handed {
    Nothing,
    Byte(u8, u8),
    Clear,
    Trigger,
}

impl Device {
    // Abilities, as byte 0 of the record adds them up.
    pub const LISTEN: u8 = 1;

    pub const SEND_DATA: u8 = 2;

    pub const STATUS: u8 = 4;

    pub const DEVICE_ID: u8 = 8;

    pub const ACCESSORY_ID: u8 = 16;

    pub const AUTO_ADDRESS: u8 = 32;

    pub const UNADDRESS: u8 = 64;

    pub const SERVICE_REQUEST: u8 = 128;

    // Further abilities, as byte 7 adds them up.
    pub const PARALLEL_POLL: u8 = 1;

    pub const EXTENDED: u8 = 2;

    // Talker states.
    pub const IDLE: u8 = 0;

    pub const ADDRESSED: u8 = 1;

    pub const SENDING_DATA: u8 = 2;

    pub const SENDING_STATUS: u8 = 3;

    pub const SENDING_DEVICE_ID: u8 = 4;

    pub const SENDING_ACCESSORY_ID: u8 = 5;

    // Service states.
    pub const NO_SERVICE: u8 = 0;

    pub const ASKING: u8 = 1;

    pub const POLLED: u8 = 2;

    // Local and remote, and each of them locked, by 001's names (2.17).
    pub const LOCS: u8 = 0;

    pub const REMS: u8 = 1;

    pub const LWLS: u8 = 2;

    pub const RWLS: u8 = 3;

    // The choice of a load: how the last byte of its data goes out.
    pub const PLAIN_LAST: u8 = 0;

    pub const END_LAST: u8 = 1;

    // What byte 22 has in front of PPE's sense and bit, and where none are assigned.
    pub const ASSIGNMENT: u8 = 16;

    pub const UNASSIGNED: u8 = 0;

    // An extended device that waits for its primary address, and what stands in front of a second address once the
    // listen or the talk primary was received.
    pub const HALF_ASSIGNED: u8 = 2;

    pub const RECEIVED: u8 = 32;

    // The fixed address of a device that has none, and limits: bytes of ID and of data, and past any last frame sent.
    pub const NO_ADDRESS: u8 = 31;

    pub const MOST_ID: usize = 8;

    pub const MOST_DATA: usize = 32;

    pub const PAST_LAST: u16 = 0x400;

    // The device of a set-up item: abilities, fixed address, accessory ID, ID length, ID, further abilities, fixed
    // second address.
    pub fn power_on(item: [u8; 14]) -> Self
        ensures { result ≡ power_on item }
    {
        Self {
            abilities: item[0],
            fixed: item[1],
            address: item[1],
            configured: 0,
            listener: 0,
            talker: Self::IDLE,
            service: Self::NO_SERVICE,
            further: item[12],
            noted: 0,
            status: 0,
            accessory: item[2],
            idlength: item[3],
            loadlength: 0,
            sent: 0,
            last: 0,
            replied: 0,
            remote: Self::LOCS,
            enabled: 0,
            choice: Self::PLAIN_LAST,
            fixedsecond: item[13],
            second: item[13],
            assigned: 0,
            pollstatus: 0,
            id: [
                item[4], item[5], item[6], item[7], item[8], item[9], item[10], item[11],
            ],
            load: [0u8; Self::MOST_DATA],
        }
    }
}
