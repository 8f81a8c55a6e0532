// Whether header and records are sound, judged by the plain engine alone: it calls nothing of the loop's, and shares
// only the definitions. The records go by their number, until one is not sound.
#![tactic(auto)]

ghost use Rattle.std.specs.Prelude.{◌≡◌, length};
ghost use Rattle.record.specs.Record.{device_of};
ghost use Rattle.record.specs.Sound.{zero_past, sound_record};
ghost use Rattle.area.specs.Sizes.{record_at};
ghost use Rattle.area.specs.Loop.{count_in};
ghost use Rattle.walk.specs.Walk.{sound_records};
ghost use Rattle.engine_sound.specs.Groups.{place_right, doing_right};

use engine_addresses::addresses;
use engine_clauses::{abilities, poll, ranges, roles};
use engine_table::{
    DATA, DATA_LENGTH, HEADER, HEADER_ZEROS, ID, ID_LENGTH, MOST_BOTH, MOST_DATA, MOST_ID, RECORD,
};
use engine_talker::talker;
use engine_zeros::zero_past;

// Most devices have neither ID nor data: then both places are one stretch of zeros.
fn zeros_behind(rec: &[u8; RECORD]) -> bool
    ensures { result ≡ zero_past (device_of rec.now) }
{
    let id = rec[ID_LENGTH];
    let data = rec[DATA_LENGTH];
    if (id == 0) & (data == 0) {
        return zero_past(rec, ID, MOST_BOTH, 0);
    }
    zero_past(rec, ID, MOST_ID, id) & zero_past(rec, DATA, MOST_DATA, data)
}

// What a device is able to do, and where it is found.
fn place(rec: &[u8; RECORD]) -> bool
    ensures { result ≡ place_right (device_of rec.now) }
{
    if abilities(rec) {
        return addresses(rec);
    }
    false
}

// What it does now.
fn doing(rec: &[u8; RECORD]) -> bool
    ensures { result ≡ doing_right (device_of rec.now) }
{
    if roles(rec) {
        if talker(rec) {
            return poll(rec);
        }
        return false;
    }
    false
}

fn record_sound(rec: &[u8; RECORD]) -> bool
    ensures { result ≡ sound_record rec.now }
{
    if ranges(rec) {
        if zeros_behind(rec) {
            if place(rec) {
                return doing(rec);
            }
            return false;
        }
        return false;
    }
    false
}

// The header's zeros, and each record.
pub fn sound(records: &[u8]) -> bool
    requires { length records.now ≡ record_at (count_in records.now) }
    ensures { result ≡ sound_records records.now }
{
    if !zero_past(records, 1, HEADER_ZEROS, 0) {
        return false;
    }
    let (each, _) = records[HEADER..].as_chunks::<RECORD>();
    for rec in each {
        if !record_sound(rec) {
            return false;
        }
    }
    true
}
