// When a record is sound (01, "Sound means"), judged where it lies; the same clauses judge a set-up item. Each group of
// clauses stands in a test of its own, so that the first that fails decides.
#![tactic(auto)]

ghost use Rattle.std.specs.Prelude.{◌≡◌};
ghost use Rattle.device.specs.PowerOn.{power_on};
ghost use Rattle.device.specs.declared.Device.{Device};
ghost use Rattle.record.specs.Record.{device_of};
ghost use Rattle.record.specs.Sound.{in_range, service_with_status, unaddress_with_both, listener_able, service_able};
ghost use Rattle.record.specs.Sound.{poll_right, sound_record, allowed};
ghost use Rattle.record.specs.Sound.{abilities_allowed};
ghost use Rattle.sound.specs.Groups.{able_all, variant_allowed};

use address_sound::address_right;
use device::Device;
use record::read::{has, has_further};
use record::{
    ABILITIES, ADDRESS, ASSIGNED, CHOICE, CONFIGURED, ENABLED, FIXED, FURTHER, ID_LENGTH, LISTENER,
    LOAD_LENGTH, NOTED, POLL_STATUS, REMOTE, SERVICE, SIZE, TALKER,
};
use talker_sound::talker_right;
use zero_bytes::{zero_past, zero_past_length};

fn in_range(rec: &[u8; SIZE]) -> bool
    ensures { result ≡ in_range (device_of rec.now) }
{
    (rec[FIXED] <= Device::NO_ADDRESS)
        & ((rec[ADDRESS] <= Device::NO_ADDRESS)
            & ((rec[CONFIGURED] <= Device::HALF_ASSIGNED)
                & ((rec[LISTENER] <= 1)
                    & ((rec[TALKER] <= Device::SENDING_ACCESSORY_ID)
                        & ((rec[SERVICE] <= Device::POLLED)
                            & ((rec[FURTHER] <= Device::PARALLEL_POLL + Device::EXTENDED)
                                & ((rec[NOTED] <= 1)
                                    & ((rec[ID_LENGTH] <= Device::MOST_ID as u8)
                                        & ((rec[LOAD_LENGTH] <= Device::MOST_DATA as u8)
                                            & ((rec[REMOTE] <= Device::RWLS)
                                                & ((rec[ENABLED] <= 1)
                                                    & (rec[CHOICE] <= Device::END_LAST))))))))))))
}

// 128 only with 4.
fn service_with_status(abilities: u8) -> bool
    ensures { (d : Device) → d.abilities ≡ abilities → result ≡ service_with_status d }
{
    if abilities & Device::SERVICE_REQUEST != 0 {
        return abilities & Device::STATUS != 0;
    }
    true
}

// 64 only with 1 and at least one of 2, 4, 8, 16.
fn unaddress_with_both(abilities: u8) -> bool
    ensures { (d : Device) → d.abilities ≡ abilities → result ≡ unaddress_with_both d }
{
    if abilities & Device::UNADDRESS != 0 {
        return (abilities & Device::LISTEN != 0)
            & ((abilities & Device::SEND_DATA != 0)
                | ((abilities & Device::STATUS != 0)
                    | ((abilities & Device::DEVICE_ID != 0)
                        | (abilities & Device::ACCESSORY_ID != 0))));
    }
    true
}

fn abilities_allowed(abilities: u8) -> bool
    ensures { (d : Device) → d.abilities ≡ abilities → result ≡ abilities_allowed d }
{
    if service_with_status(abilities) {
        return unaddress_with_both(abilities);
    }
    false
}

fn listener_able(rec: &[u8; SIZE]) -> bool
    ensures { result ≡ listener_able (device_of rec.now) }
{
    if rec[LISTENER] == 1 {
        return has(rec, Device::LISTEN);
    }
    true
}

fn service_able(rec: &[u8; SIZE]) -> bool
    ensures { result ≡ service_able (device_of rec.now) }
{
    if Device::NO_SERVICE < rec[SERVICE] {
        return has(rec, Device::SERVICE_REQUEST);
    }
    true
}

// What a device is able to do and be.
fn able(rec: &[u8; SIZE]) -> bool
    ensures { result ≡ able_all (device_of rec.now) }
{
    if abilities_allowed(rec[ABILITIES]) {
        if address_right(rec) {
            if listener_able(rec) {
                return service_able(rec);
            }
            return false;
        }
        return false;
    }
    false
}

// What the poll's bytes ask for; without the ability, as most devices are, both are zero.
fn poll_right(rec: &[u8; SIZE]) -> bool
    ensures { result ≡ poll_right (device_of rec.now) }
{
    let assigned = rec[ASSIGNED];
    if has_further(rec, Device::PARALLEL_POLL) {
        return ((assigned == Device::UNASSIGNED)
            | ((Device::ASSIGNMENT <= assigned) & (assigned <= Device::ASSIGNMENT + 15)))
            & (rec[POLL_STATUS] <= 1);
    }
    (assigned == Device::UNASSIGNED) & (rec[POLL_STATUS] == 0)
}

// A record of 64 bytes is sound: its device is.
pub fn record_sound(rec: &[u8; SIZE]) -> bool
    ensures { result ≡ sound_record rec.now }
{
    if in_range(rec) {
        if zero_past(rec) {
            if able(rec) {
                if talker_right(rec) {
                    return poll_right(rec);
                }
                return false;
            }
            return false;
        }
        return false;
    }
    false
}

// What an item asks for by its variant: an extended device has no ability 32, a simple one no second address.
fn variant_allowed(item: &[u8; 14]) -> bool
    ensures { result ≡ variant_allowed (power_on item.now) }
{
    if item[12] & Device::EXTENDED != 0 {
        return (item[0] & Device::AUTO_ADDRESS == 0) & (item[13] <= Device::NO_ADDRESS);
    }
    item[13] == 0
}

// A set-up item is allowed: its device at power-on is sound. What else that asks is zero there.
pub fn item_allowed(item: &[u8; 14]) -> bool
    ensures { result ≡ allowed item.now }
{
    (item[1] <= Device::NO_ADDRESS)
        & ((item[3] <= Device::MOST_ID as u8)
            & (zero_past_length(&item[4..12], item[3])
                & (abilities_allowed(item[0])
                    & ((item[12] <= Device::PARALLEL_POLL + Device::EXTENDED)
                        & variant_allowed(item)))))
}
