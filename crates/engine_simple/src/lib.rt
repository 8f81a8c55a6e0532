// A simple device in its record takes a frame: by the number of its kind, which has data and end first, then commands,
// then ready frames, and identify last.
#![tactic(auto)]

ghost use Rattle.std.specs.Prelude.{◌≡◌, ◌<◌};
ghost use Rattle.frame.specs.Decoding.{decoded};
ghost use Rattle.device.specs.Clear.{to_listener};
ghost use Rattle.device.specs.Reply.{sends};
ghost use Rattle.device.specs.Take.{takes_simple};
ghost use Rattle.record.specs.Record.{device_of};
ghost use Rattle.engine_data.specs.Passed.{sent};
ghost use Rattle.engine_simple.specs.Read.{Commanded, Obeyed, Readied};

use device::Handed;
use engine_bytes::{store, talk};
use engine_commands::{aau, ifc, lad, tad};
use engine_data::{Passed, data_or_end, identify};
use engine_poll::{ppd, ppe, ppu};
use engine_reading as kinds;
use engine_ready::{aad, nrd, requested, sst};
use engine_remote::{gtl, llo, nre, ren};
use engine_table::{
    ACCESSORY_ID, DEVICE_ID, IDLE, LISTENER, RECORD, SEND_DATA, SENDS_ACCESSORY_ID, SENDS_DATA,
    SENDS_DEVICE_ID,
};
use frame::Message;

// A command that reports nothing goes on, and this is the record after it.
fn obey(rec: &mut [u8; RECORD], message: Message, frame: u16)
    requires { Obeyed message frame }
    ensures { sends (device_of rec.new) frame ≡ takes_simple (device_of rec.old) frame }
{
    let kind = message.kind;
    let offset = message.offset;
    match kind {
        kinds::LAD => lad(rec, offset),
        kinds::UNL => store(rec, LISTENER, 0),
        kinds::TAD => tad(rec, offset),
        kinds::UNT => talk(rec, IDLE),
        kinds::IFC => ifc(rec),
        kinds::AAU => aau(rec),
        kinds::REN => ren(rec),
        kinds::NRE => nre(rec),
        kinds::LLO => llo(rec),
        kinds::GTL => gtl(rec),
        kinds::PPE => ppe(rec, offset),
        kinds::PPD => ppd(rec),
        kinds::PPU => ppu(rec),
        _ => {}
    }
}

// A clear or a trigger: the frame goes on, and the event is reported if the device listens.
fn to_listener(rec: &[u8; RECORD], frame: u16, event: Handed) -> Passed
    ensures { sent rec.now result ≡ to_listener (device_of rec.now) frame event }
{
    if rec[LISTENER] != 1 {
        return Passed {
            frame,
            handed: Handed::Nothing,
        };
    }
    Passed {
        frame,
        handed: event,
    }
}

fn command(rec: &mut [u8; RECORD], message: Message, frame: u16) -> Passed
    requires { Commanded message frame }
    ensures { sent rec.new result ≡ takes_simple (device_of rec.old) frame }
{
    let kind = message.kind;
    match kind {
        kinds::DCL => Passed {
            frame,
            handed: Handed::Clear,
        },
        kinds::SDC => to_listener(rec, frame, Handed::Clear),
        kinds::GET => to_listener(rec, frame, Handed::Trigger),
        _ => {
            obey(rec, message, frame);
            Passed {
                frame,
                handed: Handed::Nothing,
            }
        }
    }
}

// Ready frames and identify hand nothing over.
fn ready(rec: &mut [u8; RECORD], message: Message, frame: u16) -> u16
    requires { Readied message frame }
    ensures { sends (device_of rec.new) result ≡ takes_simple (device_of rec.old) frame }
{
    let kind = message.kind;
    match kind {
        kinds::SDA => requested(rec, frame, SEND_DATA, SENDS_DATA),
        kinds::SST => sst(rec, frame),
        kinds::SDI => requested(rec, frame, DEVICE_ID, SENDS_DEVICE_ID),
        kinds::SAI => requested(rec, frame, ACCESSORY_ID, SENDS_ACCESSORY_ID),
        kinds::NRD => {
            nrd(rec);
            frame
        }
        kinds::AAD => aad(rec, frame, message.offset),
        kinds::IDY => identify(rec, message),
        _ => frame,
    }
}

// What a simple device does with a frame that was read. In place where it is called: a call here would be the deepest
// of a walk, and the walk is held to a limit of stack.
#[inline(always)]
pub fn simple(rec: &mut [u8; RECORD], message: Message, frame: u16) -> Passed
    requires { message ≡ decoded frame }
    ensures { sent rec.new result ≡ takes_simple (device_of rec.old) frame }
{
    let kind = message.kind;
    if kinds::DDT < kind {
        let out = ready(rec, message, frame);
        return Passed {
            frame: out,
            handed: Handed::Nothing,
        };
    }
    if kinds::END < kind {
        return command(rec, message, frame);
    }
    if kind == 0 {
        return Passed {
            frame,
            handed: Handed::Nothing,
        };
    }
    data_or_end(rec, message, frame)
}
