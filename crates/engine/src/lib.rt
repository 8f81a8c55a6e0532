// The plain engine, the second witness (02, l): a frame walked past every device of some records, with no links between
// them. It shares the definitions with the loop, and no code.
#![tactic(auto)]

ghost use Rattle.std.specs.Prelude.{◌≡◌, true, [], ◌∷◌, length};
ghost use Rattle.frame.specs.Decoding.{decoded};
ghost use Rattle.device.specs.Take.{takes};
ghost use Rattle.record.specs.Record.{record_size, device_of};
ghost use Rattle.record.specs.Written.{IsRecord};
ghost use Rattle.area.specs.Sizes.{most_devices};
ghost use Rattle.engine_data.specs.Passed.{sent};
ghost use Rattle.walk.specs.Walk.{told_size, told_of, fits_with, sound_records, no_walk, walks, walk_of};
ghost use Rattle.walk.specs.Inner.{IsWalked, Fitting};

use device::Handed;
use engine_data::Passed;
use engine_device::take;
use engine_reading::read;
use engine_sound::sound;
use engine_table::{HEADER, RECORD};
use frame::Message;
use walk::WalkAnswer;

// Bytes of what is told of a device, and the most devices.
const TOLD: usize = 4;

const MOST: usize = 31;

// Frames are the numbers below this.
const FRAMES: u64 = 2048;

// The events that are told.
const CLEAR: u8 = 1;

const TRIGGER: u8 = 2;

// Refusals.
const SHAPE: u8 = 1;

const UNSOUND: u8 = 2;

const BAD_FRAME: u8 = 4;

fn write(told: &mut [u8], handed: u8, byte: u8, end: u8, event: u8)
    requires { length told.old ≡ told_size }
    ensures { told.new ≡ handed ∷ byte ∷ end ∷ event ∷ [] }
{
    told[0] = handed;
    told[1] = byte;
    told[2] = end;
    told[3] = event;
}

// What a device was handed, in its four bytes.
fn tell(told: &mut [u8], handed: Handed)
    requires { length told.old ≡ told_size }
    ensures { told.new ≡ told_of handed }
{
    match handed {
        Handed::Nothing => write(told, 0, 0, 0, 0),
        Handed::Byte(byte, end) => write(told, 1, byte, end, 0),
        Handed::Clear => write(told, 0, 0, 0, CLEAR),
        Handed::Trigger => write(told, 0, 0, 0, TRIGGER),
    }
}

// A frame is read again only where a device sent another.
fn read_again(message: Message, before: u16, frame: u16) -> Message
    requires { message ≡ decoded before }
    ensures { result ≡ decoded frame }
{
    if frame == before {
        return message;
    }
    read(frame)
}

// The device of a part that is a record.
#[inline(always)]
fn take_here(part: &mut [u8], message: Message, frame: u16) -> Passed
    requires { (length part.old ≡ record_size) × (message ≡ decoded frame) }
    ensures fact { IsRecord part.new }
    ensures result_after { sent part.new result ≡ takes (device_of part.old) frame }
{
    let Some(rec) = part.as_mut_array::<RECORD>() else {
        unreachable!()
    };
    take(rec, message, frame)
}

// Past every device, the first one first.
fn past_all(records: &mut [u8], frame: u16, told: &mut [u8]) -> u16
    requires { Fitting records.old told.old × (sound_records records.old ≡ true) }
    ensures { IsWalked (walks records.old frame) (record { frame = result; refusal = 0 })
        records.new told.new }
{
    let n = records[0] as usize;
    let mut out = frame;
    let mut message = read(frame);
    for i in 0..n {
        let at = HEADER + RECORD * i;
        let passed = take_here(&mut records[at..at + RECORD], message, out);
        message = read_again(message, out, passed.frame);
        out = passed.frame;
        let handed = passed.handed;
        let to = TOLD * i;
        tell(&mut told[to..to + TOLD], handed);
    }
    out
}

// The lengths are those of byte 0.
fn fits(records: &[u8], told: &[u8]) -> bool
    ensures { result ≡ fits_with most_devices records.now told.now }
{
    if records.len() == 0 {
        return false;
    }
    let n = records[0] as usize;
    ((1 <= n) & (n <= MOST)) & ((records.len() == HEADER + RECORD * n) & (told.len() == TOLD * n))
}

fn refused(refusal: u8) -> WalkAnswer
    ensures { result ≡ no_walk refusal }
{
    WalkAnswer { frame: 0, refusal }
}

pub fn walk(records: &mut [u8], frame: u64, told: &mut [u8]) -> WalkAnswer
    ensures { IsWalked (walk_of records.old frame told.old) result records.new
        told.new }
{
    if !fits(records, told) {
        return refused(SHAPE);
    }
    if !sound(records) {
        return refused(UNSOUND);
    }
    if FRAMES <= frame {
        return refused(BAD_FRAME);
    }
    let out = past_all(records, frame as u16, told);
    WalkAnswer {
        frame: out,
        refusal: 0,
    }
}
