// Set up: an item a device, and an area with any contents, which becomes that of the devices at power-on (02, f and i:
// items of 12 bytes, of 13 or of 14).
#![tactic(auto)]

ghost use Rattle.std.specs.Prelude.{◌≡◌, true, ◌≤◌, length};
ghost use Rattle.device.specs.PowerOn.{bytes_from};
ghost use Rattle.record.specs.Sound.{allowed};
ghost use Rattle.area.specs.Sizes.{most_devices, long_item_size};
ghost use Rattle.area.specs.Parts.{all};
ghost use Rattle.area.specs.Loop.{Holds};
ghost use Rattle.calls.specs.Outcome.{Is};
ghost use Rattle.calls.specs.SetUp.{devices_for, is_items, item_width, items_of, items_fit, powered_on, set_up_of};
ghost use Rattle.calls.specs.Inner.{Sets};
ghost use Rattle.refusal.specs.Refusal.{told};

use area::change::{blank, set_device};
use area::runs::all_parts;
use area::{ITEM_SIZE, LINK_SIZE, LONG_ITEM_SIZE, POLL_ITEM_SIZE, area_size, is_count};
use device::Device;
use refusal::Refusal;

// The number of devices whose area has a length, if any has.
fn devices_for(len: usize) -> usize
    ensures { result ≡ devices_for len }
{
    let least = area_size(0);
    if len < least {
        return 0;
    }
    (len - least) / (record::SIZE + LINK_SIZE)
}

// Whether so many bytes are n items, all of 12 bytes, all of 13 or all of 14.
fn is_items(bytes: usize, n: usize) -> bool
    requires { n ≤ most_devices }
    ensures { result ≡ is_items bytes n }
{
    (bytes == ITEM_SIZE * n) | ((bytes == POLL_ITEM_SIZE * n) | (bytes == LONG_ITEM_SIZE * n))
}

// Whether the area's length is that of n devices, and there is an item for each.
fn items_fit(area: &[u8], items: &[u8], n: usize) -> bool
    ensures { result ≡ items_fit most_devices n area.now items.now }
{
    if !is_count(n) {
        return false;
    }
    (area.len() == area_size(n)) & is_items(items.len(), n)
}

// How long each of n items is, all of them so many bytes.
fn item_width(bytes: usize, n: usize) -> usize
    requires { n ≤ most_devices }
    ensures { result ≡ item_width bytes n }
{
    if bytes == LONG_ITEM_SIZE * n {
        return LONG_ITEM_SIZE;
    }
    if bytes == POLL_ITEM_SIZE * n {
        return POLL_ITEM_SIZE;
    }
    ITEM_SIZE
}

// An item as one of 14 bytes: where it has fewer, zeros behind them.
fn item_of(bytes: &[u8]) -> [u8; LONG_ITEM_SIZE]
    requires { length bytes.now ≤ long_item_size }
    ensures { result ≡ bytes_from 0 long_item_size bytes.now }
{
    let mut item = [0u8; LONG_ITEM_SIZE];
    byte_runs::copy(bytes, &mut item);
    item
}

// Whether an item is allowed, which is asked of it as one of 14 bytes.
fn item_allowed(item: &[u8]) -> bool
    requires { length item.now ≤ long_item_size }
    ensures { result ≡ allowed item.now }
{
    sound::item_allowed(&item_of(item))
}

// Whether each of n items is.
fn items_allowed(items: &[u8], n: usize) -> bool
    requires { (n ≤ most_devices) × (is_items (length items.now) n ≡ true) }
    ensures { result ≡ all allowed (items_of n items.now) }
{
    all_parts(items, item_width(items.len(), n), n, item_allowed)
}

// The area becomes that of n allowed items.
fn power_on(area: &mut [u8], items: &[u8], n: usize)
    requires { Sets most_devices n area.old items.now }
    ensures { Holds area.new (powered_on n items.now) }
{
    blank(area, n);
    let width = item_width(items.len(), n);
    for i in 0..n {
        let at = width * i;
        let item = item_of(&items[at..at + width]);
        set_device(area, i, Device::power_on(item));
    }
}

pub fn set_up(area: &mut [u8], items: &[u8]) -> Result<(), Refusal>
    ensures { Is (set_up_of area.old items.now) (told result) area.new }
{
    let n = devices_for(area.len());
    if !items_fit(area, items, n) {
        return Err(Refusal::Shape);
    }
    if !items_allowed(items, n) {
        return Err(Refusal::Unsound);
    }
    power_on(area, items, n);
    Ok(())
}
