// A device in its record takes a frame that was read: by the rules of the device's variant (02, i).
#![tactic(auto)]

ghost use Rattle.std.specs.Prelude.{◌≡◌};
ghost use Rattle.frame.specs.Decoding.{decoded};
ghost use Rattle.device.specs.Take.{takes_extended, takes};
ghost use Rattle.record.specs.Record.{device_of};
ghost use Rattle.engine_data.specs.Passed.{sent};
ghost use Rattle.engine_data.specs.declared.Passed.{Passed};
ghost use Rattle.device.specs.declared.Handed.TheVariants.{Nothing};

use device::Handed;
use engine_data::Passed;
use engine_extended::{aau, aep, aes, heed, lad, sad, tad};
use engine_reading as kinds;
use engine_simple::simple;
use engine_table::{EXTENDED, FURTHER, RECORD};
use frame::Message;

// The frame goes out, and nothing is handed over.
fn passes(frame: u16) -> Passed
    ensures { result ≡ record { frame = frame; handed = Nothing } }
{
    Passed {
        frame,
        handed: Handed::Nothing,
    }
}

// What an extended device does with a frame that was read: its own rules, or those of a simple one once the
// flags are cleared where a command does so.
fn extended(rec: &mut [u8; RECORD], message: Message, frame: u16) -> Passed
    requires { message ≡ decoded frame }
    ensures { sent rec.new result ≡ takes_extended (device_of rec.old) frame }
{
    let kind = message.kind;
    let offset = message.offset;
    match kind {
        kinds::LAD => {
            lad(rec, offset);
            passes(frame)
        }
        kinds::TAD => {
            tad(rec, offset);
            passes(frame)
        }
        kinds::SAD => {
            sad(rec, offset);
            passes(frame)
        }
        kinds::AAU => {
            aau(rec);
            passes(frame)
        }
        kinds::AAD => passes(frame),
        kinds::AES => passes(aes(rec, frame, offset)),
        kinds::AEP => {
            aep(rec, offset);
            passes(frame)
        }
        _ => {
            heed(rec, kind);
            simple(rec, message, frame)
        }
    }
}

// What a device does with a frame that was read, by its variant.
pub fn take(rec: &mut [u8; RECORD], message: Message, frame: u16) -> Passed
    requires { message ≡ decoded frame }
    ensures { sent rec.new result ≡ takes (device_of rec.old) frame }
{
    if rec[FURTHER] & EXTENDED == 0 {
        return simple(rec, message, frame);
    }
    extended(rec, message, frame)
}
