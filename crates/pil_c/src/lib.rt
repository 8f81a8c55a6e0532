// The calls that C sees, under their names in pil.h: each is that of `pil`, with the same clauses.
#![tactic(auto)]

ghost use Rattle.std.specs.Prelude.{◌≡◌};
ghost use Rattle.device.specs.Device.{end_last};
ghost use Rattle.calls.specs.Outcome.{Is};
ghost use Rattle.calls.specs.Calls.{put_of, take_of, hop_of, load_of, status_of, wish_of, key_of, poll_status_of};
ghost use Rattle.calls.specs.Drain.{drain_of};
ghost use Rattle.calls.specs.Owed.{owed_of};
ghost use Rattle.calls.specs.SetUp.{set_up_of};
ghost use Rattle.saved.specs.Calls.{save_of, open_of};
ghost use Rattle.coding.specs.Coding.{decode_answer, encode_answer};
ghost use Rattle.poll_count.specs.Count.{poll_count};
ghost use Rattle.walk.specs.Walk.{walk_of};
ghost use Rattle.walk.specs.Inner.{IsWalked};

use calls::{DrainAnswer, HopAnswer, OwedAnswer, TakeAnswer};
use coding::{DecodeAnswer, EncodeAnswer};
use poll_count::PollAnswer;
use walk::WalkAnswer;

#[unsafe(no_mangle)]
pub extern "C" fn pil_set_up(area: &mut [u8], items: &[u8]) -> u8
    ensures { Is (set_up_of area.old items.now) result area.new }
{
    pil::pil_set_up(area, items)
}

#[unsafe(no_mangle)]
pub extern "C" fn pil_put(area: &mut [u8], frame: u64) -> u8
    ensures { Is (put_of area.old frame) result area.new }
{
    pil::pil_put(area, frame)
}

#[unsafe(no_mangle)]
pub extern "C" fn pil_take(area: &mut [u8]) -> TakeAnswer
    ensures { Is (take_of area.old) result area.new }
{
    pil::pil_take(area)
}

#[unsafe(no_mangle)]
pub extern "C" fn pil_hop(area: &mut [u8], device: u64) -> HopAnswer
    ensures { Is (hop_of area.old device) result area.new }
{
    pil::pil_hop(area, device)
}

#[unsafe(no_mangle)]
pub extern "C" fn pil_drain(area: &mut [u8], budget: u64) -> DrainAnswer
    ensures { Is (drain_of area.old budget) result area.new }
{
    pil::pil_drain(area, budget)
}

#[unsafe(no_mangle)]
pub extern "C" fn pil_load(area: &mut [u8], device: u64, bytes: &[u8], end: u64) -> u8
    ensures { Is (load_of area.old device bytes.now end) result area.new }
{
    pil::pil_load(area, device, bytes, end)
}

// The entry of the printer scripts, which rely on END: a load with 1.
#[unsafe(no_mangle)]
pub extern "C" fn pil_load_end(area: &mut [u8], device: u64, bytes: &[u8]) -> u8
    ensures { Is (load_of area.old device bytes.now end_last) result area.new }
{
    pil::pil_load_end(area, device, bytes)
}

#[unsafe(no_mangle)]
pub extern "C" fn pil_status(area: &mut [u8], device: u64, status: u8) -> u8
    ensures { Is (status_of area.old device status) result area.new }
{
    pil::pil_status(area, device, status)
}

#[unsafe(no_mangle)]
pub extern "C" fn pil_wish(area: &mut [u8], device: u64, wish: u64) -> u8
    ensures { Is (wish_of area.old device wish) result area.new }
{
    pil::pil_wish(area, device, wish)
}

#[unsafe(no_mangle)]
pub extern "C" fn pil_key(area: &mut [u8], device: u64) -> u8
    ensures { Is (key_of area.old device) result area.new }
{
    pil::pil_key(area, device)
}

#[unsafe(no_mangle)]
pub extern "C" fn pil_poll_status(area: &mut [u8], device: u64, status: u64) -> u8
    ensures { Is (poll_status_of area.old device status) result area.new }
{
    pil::pil_poll_status(area, device, status)
}

#[unsafe(no_mangle)]
pub extern "C" fn pil_owed(area: &[u8]) -> OwedAnswer
    ensures { result ≡ owed_of area.now }
{
    pil::pil_owed(area)
}

#[unsafe(no_mangle)]
pub extern "C" fn pil_decode(frame: u64) -> DecodeAnswer
    ensures { result ≡ decode_answer frame }
{
    pil::pil_decode(frame)
}

#[unsafe(no_mangle)]
pub extern "C" fn pil_encode(kind: u64, offset: u64, c1: u64) -> EncodeAnswer
    ensures { result ≡ encode_answer kind offset c1 }
{
    pil::pil_encode(kind, offset, c1)
}

#[unsafe(no_mangle)]
pub extern "C" fn pil_poll_count(frame: u64) -> PollAnswer
    ensures { result ≡ poll_count frame }
{
    pil::pil_poll_count(frame)
}

#[unsafe(no_mangle)]
pub extern "C" fn pil_save(area: &[u8], save: &mut [u8]) -> u8
    ensures { Is (save_of area.now save.old) result save.new }
{
    pil::pil_save(area, save)
}

#[unsafe(no_mangle)]
pub extern "C" fn pil_open(area: &mut [u8], save: &[u8]) -> u8
    ensures { Is (open_of area.old save.now) result area.new }
{
    pil::pil_open(area, save)
}

// The second witness: a frame past every device, without links.
#[unsafe(no_mangle)]
pub extern "C" fn pil_walk(records: &mut [u8], frame: u64, told: &mut [u8]) -> WalkAnswer
    ensures { IsWalked (walk_of records.old frame told.old) result records.new
        told.new }
{
    pil::pil_walk(records, frame, told)
}
