// The plain engine's own table of header and record (01, The lent area; 02, d, f, h and i): the place of each value,
// and the numbers that a value can be.
#![tactic(auto)]

// Bytes before the first record, how many of them are zero, and bytes of a record.
pub const HEADER: usize = 8;

pub const HEADER_ZEROS: u8 = 7;

pub const RECORD: usize = 64;

// Places in a record; the last frame sent is two bytes, ID and data are stretches.
pub const ABILITIES: usize = 0;

pub const FIXED_ADDRESS: usize = 1;

pub const ADDRESS_NOW: usize = 2;

pub const CONFIGURED: usize = 3;

pub const LISTENER: usize = 4;

pub const TALKER: usize = 5;

pub const SERVICE: usize = 6;

pub const FURTHER: usize = 7;

pub const NRD_SEEN: usize = 8;

pub const STATUS_BYTE: usize = 9;

pub const ACCESSORY_BYTE: usize = 10;

pub const ID_LENGTH: usize = 11;

pub const DATA_LENGTH: usize = 12;

pub const DATA_SENT: usize = 13;

pub const LAST_LOW: usize = 14;

pub const LAST_HIGH: usize = 15;

pub const REPLY_SENT: usize = 16;

pub const REMOTE: usize = 17;

pub const REMOTE_ENABLE: usize = 18;

pub const CHOICE: usize = 19;

pub const FIXED_SECOND: usize = 20;

pub const SECOND_NOW: usize = 21;

pub const POLL_BIT: usize = 22;

pub const POLL_STATUS: usize = 23;

pub const ID: usize = 24;

pub const DATA: usize = 32;

// Abilities, and further abilities.
pub const LISTEN: u8 = 1;

pub const SEND_DATA: u8 = 2;

pub const STATUS: u8 = 4;

pub const DEVICE_ID: u8 = 8;

pub const ACCESSORY_ID: u8 = 16;

pub const AUTO_ADDRESS: u8 = 32;

pub const UNADDRESS: u8 = 64;

pub const SERVICE_REQUEST: u8 = 128;

pub const PARALLEL_POLL: u8 = 1;

pub const EXTENDED: u8 = 2;

// Talker states.
pub const IDLE: u8 = 0;

pub const ADDRESSED: u8 = 1;

pub const SENDS_DATA: u8 = 2;

pub const SENDS_STATUS: u8 = 3;

pub const SENDS_DEVICE_ID: u8 = 4;

pub const SENDS_ACCESSORY_ID: u8 = 5;

// Service asked for, and then polled, which is the greatest.
pub const ASKING: u8 = 1;

pub const POLLED: u8 = 2;

// The greatest values of remote and local, of configured, and of an address, which is none.

pub const REMOTE_LOCKED: u8 = 3;

pub const HALF_ASSIGNED: u8 = 2;

pub const NO_ADDRESS: u8 = 31;

// A second address with a primary received is 32 more; sense and bit of a poll, once assigned, have 16 in front.
pub const RECEIVED: u8 = 32;

pub const POLL_ASSIGNED: u8 = 16;

// The most bytes of an ID, of data, and of both together.
pub const MOST_ID: u8 = 8;

pub const MOST_DATA: u8 = 32;

pub const MOST_BOTH: u8 = 40;

// The last frame sent is below this.
pub const PAST_LAST: u16 = 0x400;
