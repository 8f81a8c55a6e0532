// The calls exported to C (01, The calls): numbers and bytes in, a refusal or an answer out. Each stands in the crate
// of its idea; here is the boundary, which `pil_c` exports under these names.
#![tactic(auto)]

ghost use Rattle.std.specs.Prelude.{◌≡◌};
ghost use Rattle.device.specs.Device.{end_last};
ghost use Rattle.calls.specs.Outcome.{Is};
ghost use Rattle.calls.specs.Calls.{put_of, take_of, hop_of, load_of, status_of, wish_of, key_of, poll_status_of};
ghost use Rattle.calls.specs.Drain.{drain_of};
ghost use Rattle.calls.specs.Owed.{owed_of};
ghost use Rattle.calls.specs.SetUp.{set_up_of};
ghost use Rattle.saved.specs.Calls.{save_of, open_of};
ghost use Rattle.coding.specs.Coding.{decode_answer, encode_answer};
ghost use Rattle.poll_count.specs.Count.{poll_count};
ghost use Rattle.walk.specs.Walk.{walk_of};
ghost use Rattle.walk.specs.Inner.{IsWalked};

use calls::{DrainAnswer, HopAnswer, OwedAnswer, TakeAnswer};
use coding::{DecodeAnswer, EncodeAnswer};
use device::Device;
use poll_count::PollAnswer;
use refusal::told;
use walk::WalkAnswer;

pub fn pil_set_up(area: &mut [u8], items: &[u8]) -> u8
    ensures { Is (set_up_of area.old items.now) result area.new }
{
    told(set_up::set_up(area, items))
}

pub fn pil_put(area: &mut [u8], frame: u64) -> u8
    ensures { Is (put_of area.old frame) result area.new }
{
    told(ends::put::put(area, frame))
}

pub fn pil_take(area: &mut [u8]) -> TakeAnswer
    ensures { Is (take_of area.old) result area.new }
{
    ends::take::take(area)
}

pub fn pil_hop(area: &mut [u8], device: u64) -> HopAnswer
    ensures { Is (hop_of area.old device) result area.new }
{
    hop::hop(area, device)
}

pub fn pil_drain(area: &mut [u8], budget: u64) -> DrainAnswer
    ensures { Is (drain_of area.old budget) result area.new }
{
    drain::drain(area, budget)
}

pub fn pil_load(area: &mut [u8], device: u64, bytes: &[u8], end: u64) -> u8
    ensures { Is (load_of area.old device bytes.now end) result area.new }
{
    told(local_calls::load(area, device, bytes, end))
}

// The entry of the printer scripts, which rely on END: a load with 1.
pub fn pil_load_end(area: &mut [u8], device: u64, bytes: &[u8]) -> u8
    ensures { Is (load_of area.old device bytes.now end_last) result area.new }
{
    pil_load(area, device, bytes, Device::END_LAST as u64)
}

pub fn pil_status(area: &mut [u8], device: u64, status: u8) -> u8
    ensures { Is (status_of area.old device status) result area.new }
{
    told(local_calls::status(area, device, status))
}

pub fn pil_wish(area: &mut [u8], device: u64, wish: u64) -> u8
    ensures { Is (wish_of area.old device wish) result area.new }
{
    told(local_calls::wish(area, device, wish))
}

pub fn pil_key(area: &mut [u8], device: u64) -> u8
    ensures { Is (key_of area.old device) result area.new }
{
    told(local_calls::key(area, device))
}

pub fn pil_poll_status(area: &mut [u8], device: u64, status: u64) -> u8
    ensures { Is (poll_status_of area.old device status) result area.new }
{
    told(local_calls::poll_status(area, device, status))
}

pub fn pil_owed(area: &[u8]) -> OwedAnswer
    ensures { result ≡ owed_of area.now }
{
    owed::owed(area)
}

pub fn pil_decode(frame: u64) -> DecodeAnswer
    ensures { result ≡ decode_answer frame }
{
    coding::decode(frame)
}

pub fn pil_encode(kind: u64, offset: u64, c1: u64) -> EncodeAnswer
    ensures { result ≡ encode_answer kind offset c1 }
{
    coding::encode(kind, offset, c1)
}

pub fn pil_poll_count(frame: u64) -> PollAnswer
    ensures { result ≡ poll_count frame }
{
    poll_count::poll_count(frame)
}

pub fn pil_save(area: &[u8], save: &mut [u8]) -> u8
    ensures { Is (save_of area.now save.old) result save.new }
{
    told(save::save(area, save))
}

pub fn pil_open(area: &mut [u8], save: &[u8]) -> u8
    ensures { Is (open_of area.old save.now) result area.new }
{
    told(open::open(area, save))
}

// The second witness: a frame past every device, without links.
pub fn pil_walk(records: &mut [u8], frame: u64, told: &mut [u8]) -> WalkAnswer
    ensures { IsWalked (walk_of records.old frame told.old) result records.new
        told.new }
{
    engine::walk(records, frame, told)
}
