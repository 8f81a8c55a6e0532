// Saves of the old edition, from before loads took a choice (02, h): whether byte 19 is zero in the records of one, and
// the choice that each device with data gets when it is opened.
#![tactic(auto)]

ghost use Rattle.std.specs.Prelude.{◌≡◌, map, ◌*◌, ◌≤◌, length};
ghost use Rattle.record.specs.Record.{record_size};
ghost use Rattle.area.specs.Parts.{parts, join, all};
ghost use Rattle.saved.specs.Saved.{saved_device_size};
ghost use Rattle.saved.specs.Older.{asked, zero_choice_in};

use area::runs::all_parts;
use device::Device;
use record::{CHOICE, LOAD_LENGTH};
use saved::{DEVICE_RECORD, HEAD_SIZE};

// Whether byte 19 is zero in each of so many devices' records of a save.
pub fn choices_zero(records: &[u8], n: usize) -> bool
    requires { saved_device_size * n ≤ length records.now }
    ensures { result ≡ all zero_choice_in (parts saved_device_size n records.now) }
{
    all_parts(records, DEVICE_RECORD, n, |record| {
        record[HEAD_SIZE + CHOICE] == Device::PLAIN_LAST
    })
}

// END is chosen where there is data.
fn ask_one(rec: &mut [u8])
    requires { length rec.old ≡ record_size }
    ensures { rec.new ≡ asked rec.old }
{
    if 0 < rec[LOAD_LENGTH] {
        rec[CHOICE] = Device::END_LAST;
    }
}

// So it is in each of n records of an area.
pub fn ask(records: &mut [u8], n: usize)
    requires { length records.old ≡ record_size * n }
    ensures { records.new ≡ join (map asked (parts record_size n records.old)) }
{
    for i in 0..n {
        let at = record::SIZE * i;
        ask_one(&mut records[at..at + record::SIZE]);
    }
}
