// Drain: the highest-numbered device that can hop hops, again and again, within a budget.
#![tactic(auto)]

ghost use Rattle.std.specs.Prelude.{◌≡◌, ◌+◌, ◌-◌, ◌<◌};
ghost use Rattle.area.specs.Loop.{judge_of, loop_of, HasDevice};
ghost use Rattle.calls.specs.Outcome.{Is, after_of};
ghost use Rattle.calls.specs.Drain.{no_drain, can_hop, drain_in, drain_of};
ghost use Rattle.refusal.specs.Refusal.{number};

use area::lookup::{devices_in, oldest_at, room_at};
use calls::{DrainAnswer, NO_EVENT};
use hop::hop_at;
use judge::judge;
use refusal::Refusal;

// Why a drain stops: no hop is possible, the budget is spent, a byte was handed, a clear or trigger was reported.
const NO_HOP_LEFT: u8 = 0;

const BUDGET_SPENT: u8 = 1;

const BYTE_HANDED: u8 = 2;

const EVENT_REPORTED: u8 = 3;

fn no_drain(refusal: Refusal) -> DrainAnswer
    ensures { result ≡ no_drain (number refusal) }
{
    DrainAnswer {
        hops: 0,
        refusal: refusal.number(),
        reason: 0,
        device: 0,
        byte: 0,
        end: 0,
    }
}

// Whether device i can hop: there is a frame for it, and room for the one that it sends.
#[tactic(auto, using(area::proofs::Areas::few_devices, calls::proofs::Turns::can_both))]
fn can_hop(area: &[u8], i: usize) -> bool
    requires { HasDevice area.now i }
    ensures { result ≡ can_hop i (loop_of area.now) }
{
    oldest_at(area, i).is_some() && room_at(area, i + 1).is_some()
}

// The place past all devices that a hop of device i can have set free: itself, the one before and the one behind.
fn past(i: usize, n: usize) -> usize
    requires { (i < n) × (n < 256) }
    ensures { result ≡ n - (n - (i + 2)) }
{
    let next = i + 2;
    if next < n {
        return next;
    }
    n
}

// The drain of an area without a refusal. No device from `top` on can hop.
fn drain_in(area: &mut [u8], budget: u64) -> DrainAnswer
    requires { judge_of area.old ≡ 0 }
    ensures { Is (after_of no_drain area.old (drain_in budget (loop_of area.old))) result
        area.new }
{
    let n = devices_in(area);
    let mut top = n;
    let mut hops: u32 = 0;
    let mut device: u8 = 0;
    let mut byte: u8 = 0;
    let mut end: u8 = 0;
    let reason: u8 = 'turns: loop {
        let mut i = top;
        'search: loop {
            if i == 0 {
                break 'turns NO_HOP_LEFT;
            }
            i -= 1;
            if can_hop(area, i) {
                break 'search;
            }
        }
        if hops as u64 == budget {
            break 'turns BUDGET_SPENT;
        }
        let answer = hop_at(area, i);
        hops += 1;
        if answer.handed == 1 {
            device = i as u8;
            byte = answer.byte;
            end = answer.end;
            break 'turns BYTE_HANDED;
        }
        if answer.event != NO_EVENT {
            device = i as u8;
            byte = answer.event;
            break 'turns EVENT_REPORTED;
        }
        top = past(i, n);
    };
    DrainAnswer {
        hops,
        refusal: 0,
        reason,
        device,
        byte,
        end,
    }
}

pub fn drain(area: &mut [u8], budget: u64) -> DrainAnswer
    ensures { Is (drain_of area.old budget) result area.new }
{
    match judge(area) {
        Ok(()) => drain_in(area, budget),
        Err(refusal) => no_drain(refusal),
    }
}
