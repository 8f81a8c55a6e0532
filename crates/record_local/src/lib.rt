// The local calls of a device (01, The calls; 02, d, f and h), made in its record, refused with 7, 8, 9 in that order;
// 2, for a load's choice, comes before the device is looked for. Only the bytes that a call speaks of are written.
#![tactic(auto)]

ghost use Rattle.std.specs.Prelude.{◌≡◌, ◌≤◌, length};
ghost use Rattle.device.specs.Device.{end_last, most_data};
ghost use Rattle.device.specs.PowerOn.{bytes_from};
ghost use Rattle.device.specs.Change.{loading};
ghost use Rattle.record.specs.Record.{device_of, record_of};
ghost use Rattle.record_local.specs.Local.{loads, sets_status, wishing, wishes, presses, yes_or_no};
ghost use Rattle.record_local.specs.Local.{sets_poll_status};
ghost use Rattle.record_local.specs.InPlace.{InPlace};
ghost use Rattle.refusal.specs.Refusal.{told};

use device::Device;
use record::read::{has, has_further};
use record::{CHOICE, LOAD, LOAD_LENGTH, POLL_STATUS, REMOTE, SENT, SERVICE, SIZE, STATUS, TALKER};
use record_write::clear;
use refusal::Refusal;

// The bytes, and zeros behind them.
fn fill(to: &mut [u8], bytes: &[u8])
    requires { (length bytes.now ≤ most_data) × (length to.old ≡ most_data) }
    ensures { to.new ≡ bytes_from 0 most_data bytes.now }
{
    clear(to);
    byte_runs::copy(bytes, to);
}

fn loading(rec: &mut [u8; SIZE], bytes: &[u8], choice: u8)
    requires { length bytes.now ≤ most_data }
    ensures { rec.new ≡ record_of (loading (device_of rec.old) bytes.now choice) }
{
    rec[LOAD_LENGTH] = bytes.len() as u8;
    rec[SENT] = 0;
    rec[CHOICE] = choice;
    fill(&mut rec[LOAD..SIZE], bytes);
}

// Load data, by a choice of 0 or 1: the caller has refused the rest.
pub fn load(rec: &mut [u8; SIZE], bytes: &[u8], choice: u8) -> Result<(), Refusal>
    requires { choice ≤ end_last }
    ensures { InPlace rec.old (loads (device_of rec.old) bytes.now choice) (told result)
        rec.new }
{
    if has(rec, Device::SEND_DATA) {
        if Device::MOST_DATA < bytes.len() {
            return Err(Refusal::TooLong);
        }
        if rec[TALKER] == Device::SENDING_DATA {
            return Err(Refusal::Busy);
        }
        loading(rec, bytes, choice);
        return Ok(());
    }
    Err(Refusal::NoAbility)
}

// Set status.
pub fn status(rec: &mut [u8; SIZE], status: u8) -> Result<(), Refusal>
    ensures { InPlace rec.old (sets_status (device_of rec.old) status) (told result)
        rec.new }
{
    if has(rec, Device::STATUS) {
        rec[STATUS] = status;
        return Ok(());
    }
    Err(Refusal::NoAbility)
}

fn wishing(rec: &mut [u8; SIZE], wish: u64)
    ensures { rec.new ≡ record_of (wishing (device_of rec.old) wish) }
{
    if wish == 0 {
        rec[SERVICE] = Device::NO_SERVICE;
        return;
    }
    if rec[SERVICE] == Device::NO_SERVICE {
        rec[SERVICE] = Device::ASKING;
        return;
    }
}

// Wish for service.
pub fn wish(rec: &mut [u8; SIZE], wish: u64) -> Result<(), Refusal>
    ensures { InPlace rec.old (wishes (device_of rec.old) wish) (told result) rec.new }
{
    if has(rec, Device::SERVICE_REQUEST) {
        wishing(rec, wish);
        return Ok(());
    }
    Err(Refusal::NoAbility)
}

// Press the panel key.
pub fn key(rec: &mut [u8; SIZE]) -> Result<(), Refusal>
    ensures { InPlace rec.old (presses (device_of rec.old)) (told result) rec.new }
{
    if rec[REMOTE] == Device::REMS {
        rec[REMOTE] = Device::LOCS;
        return Ok(());
    }
    Ok(())
}

// Any number but 0 is yes.
fn yes_or_no(status: u64) -> u8
    ensures { result ≡ yes_or_no status }
{
    if status == 0 {
        return 0;
    }
    1
}

// Set the poll status.
pub fn poll_status(rec: &mut [u8; SIZE], status: u64) -> Result<(), Refusal>
    ensures { InPlace rec.old (sets_poll_status (device_of rec.old) status) (told result)
        rec.new }
{
    if has_further(rec, Device::PARALLEL_POLL) {
        rec[POLL_STATUS] = yes_or_no(status);
        return Ok(());
    }
    Err(Refusal::NoAbility)
}
