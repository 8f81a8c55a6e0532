// The local calls on an area: load data, set status, wish for service, press the panel key, set the poll status. The
// device is found by its number, and the call is made in its record (record_local).
#![tactic(auto)]

ghost use Rattle.std.specs.Prelude.{◌≡◌, cond, List, ℕ};
ghost use Rattle.std.specs.Fn.{FnOnceReturnsAtMut};
ghost use Rattle.area.specs.Loop.{shape, unsound, shaped};
ghost use Rattle.calls.specs.Outcome.{Is, call_of};
ghost use Rattle.calls.specs.Calls.{refusal, local_in, load_of, status_of, wish_of, key_of, poll_status_of};
ghost use Rattle.local_calls.specs.InRecord.{KeepsGood, Makes};
ghost use Rattle.record_local.specs.Local.{Called};
ghost use Rattle.refusal.specs.Refusal.{number, told};

use area::lookup::record_start;
use device::Device;
use find::find;
use judge::shape_right;
use record::SIZE;
use refusal::Refusal;

// The refusal of a choice that is neither plain nor END: it counts as unsound, so that the area's shape comes before.
fn no_choice(area: &[u8]) -> Refusal
    ensures { number result ≡ cond (shaped area.now) unsound shape }
{
    if shape_right(area) {
        return Refusal::Unsound;
    }
    Refusal::Shape
}

// A call in the record of the device of that number, once it is found.
fn in_record<F: FnOnce(&mut [u8; SIZE]) -> Result<(), Refusal>>(
    area: &mut [u8],
    device: u64,
    call: F,
) -> Result<(), Refusal>
    requires { F.IsAlwaysCallable call }
    ensures { (c : Device → Called) → KeepsGood c → Makes c (FnOnceReturnsAtMut F.FnOnce call) →
        Is (call_of refusal (local_in c device) area.old) (told result) area.new }
{
    let i = find(area, device)?;
    let at = record_start(area, i);
    let (_, rest) = area.split_at_mut(at);
    call(rest.first_chunk_mut().unwrap())
}

pub fn load(area: &mut [u8], device: u64, bytes: &[u8], end: u64) -> Result<(), Refusal>
    ensures { Is (load_of area.old device bytes.now end) (told result) area.new }
{
    if (Device::END_LAST as u64) < end {
        return Err(no_choice(area));
    }
    in_record(
        area,
        device,
        |rec| record_local::load(rec, bytes, end as u8),
    )
}

pub fn status(area: &mut [u8], device: u64, status: u8) -> Result<(), Refusal>
    ensures { Is (status_of area.old device status) (told result) area.new }
{
    in_record(area, device, |rec| record_local::status(rec, status))
}

pub fn wish(area: &mut [u8], device: u64, wish: u64) -> Result<(), Refusal>
    ensures { Is (wish_of area.old device wish) (told result) area.new }
{
    in_record(area, device, |rec| record_local::wish(rec, wish))
}

pub fn key(area: &mut [u8], device: u64) -> Result<(), Refusal>
    ensures { Is (key_of area.old device) (told result) area.new }
{
    in_record(area, device, |rec| record_local::key(rec))
}

pub fn poll_status(area: &mut [u8], device: u64, status: u64) -> Result<(), Refusal>
    ensures { Is (poll_status_of area.old device status) (told result) area.new }
{
    in_record(area, device, |rec| record_local::poll_status(rec, status))
}
