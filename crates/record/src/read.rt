// What is read from a record where it lies, without a copy.
ghost use Rattle.std.specs.Prelude.{◌≡◌, length, get_or};
ghost use Rattle.device.specs.Device.{has, has_further, talks};
ghost use Rattle.record.specs.Record.{record_size, device_of};

use crate::{ABILITIES, FURTHER, ID, LOAD, SIZE};
use device::Device;

// Whether its device has an ability.
pub fn has(rec: &[u8], ability: u8) -> bool
    requires { length rec.now ≡ record_size }
    ensures { result ≡ has (device_of rec.now) ability }
{
    rec[ABILITIES] & ability != 0
}

// Whether it has a further ability.
pub fn has_further(rec: &[u8], ability: u8) -> bool
    requires { length rec.now ≡ record_size }
    ensures { result ≡ has_further (device_of rec.now) ability }
{
    rec[FURTHER] & ability != 0
}

// Some of the four abilities whose replies a talker sends.
pub fn talks(rec: &[u8]) -> bool
    requires { length rec.now ≡ record_size }
    ensures { result ≡ talks (device_of rec.now) }
{
    has(rec, Device::SEND_DATA)
        | (has(rec, Device::STATUS)
            | (has(rec, Device::DEVICE_ID) | has(rec, Device::ACCESSORY_ID)))
}

// The byte at a place of the ID, and of the data; 0 past the end.
pub fn id_at(rec: &[u8], at: u8) -> u8
    requires { length rec.now ≡ record_size }
    ensures { result ≡ get_or (device_of rec.now).id at 0 }
{
    rec[ID..LOAD].get(at as usize).copied().unwrap_or(0)
}

pub fn load_at(rec: &[u8], at: u8) -> u8
    requires { length rec.now ≡ record_size }
    ensures { result ≡ get_or (device_of rec.now).load at 0 }
{
    rec[LOAD..SIZE].get(at as usize).copied().unwrap_or(0)
}
