// Runs 01's cases under "Run:", and prints what happened in each, a line a case.
#![tactic(auto)]

use area::{HEADER_SIZE, ITEM_SIZE, LARGEST, LINK_SIZE, MOST_DEVICES};
use device::Device;
use print::hex;
use record::{LOAD_LENGTH, TALKER};
use std::io;

fn main(rt: HostRuntime) -> io::Result<()> {
    println!(rt; "codes")?;
    decoded(&rt, 2047)?;
    decoded(&rt, 2048)?;
    println!(rt; "device")?;
    no_data(&rt)?;
    loaded(&rt, b"12345678901234567890123456789012")?;
    loaded(&rt, b"123456789012345678901234567890123")?;
    println!(rt; "loop")?;
    most_devices(&rt)?;
    one_too_many(&rt)?;
    puts(&rt)?;
    five(&rt)
}

fn decoded(rt: &impl Print, frame: u64) -> io::Result<()> {
    let answer = pil::pil_decode(frame);
    print!(rt;
        "decode {frame}: refusal {}, kind {}",
        answer.refusal, answer.kind
    )?;
    println!(rt; ", offset {}, C1 {}", answer.offset, answer.c1)
}

// A loop of one device: abilities ff, fixed address 1f, as in 01's rows.
fn alone(area: &mut [u8]) {
    let item = [0xff, 0x1f, 0, 0, 0, 0, 0, 0, 0, 0, 0, 0];
    pil::pil_set_up(area, &item);
}

// The device takes a frame: the frame that it sends.
fn sent(area: &mut [u8], frame: u64) -> u16 {
    pil::pil_put(area, frame);
    let answer = pil::pil_hop(area, 0);
    answer.frame
}

// SDA with no data. TAD 31 is UNT, so the device is given address 0 by AAD 0 before TAD 0 makes it a talker.
fn no_data(rt: &impl Print) -> io::Result<()> {
    let mut area = [0u8; 92];
    alone(&mut area);
    sent(&mut area, 0x580);
    sent(&mut area, 0x440);
    let answer = sent(&mut area, 0x560);
    let talker = area[HEADER_SIZE + TALKER];
    println!(rt; "560 with no data: {}, talker {talker}", hex(answer as u64))
}

fn loaded(rt: &impl Print, bytes: &[u8]) -> io::Result<()> {
    let mut area = [0u8; 92];
    alone(&mut area);
    let refusal = pil::pil_load(&mut area, 0, bytes, Device::PLAIN_LAST as u64);
    let length = area[HEADER_SIZE + LOAD_LENGTH];
    println!(rt;
        "load {}: refusal {refusal}, data length {length}",
        bytes.len()
    )
}

// A loop of devices that can do nothing.
fn set_up(rt: &impl Print, area: &mut [u8], items: &[u8]) -> io::Result<()> {
    let refusal = pil::pil_set_up(area, items);
    let devices = items.len() / ITEM_SIZE;
    println!(rt;
        "{devices} devices in {} bytes: refusal {refusal}",
        area.len()
    )
}

fn most_devices(rt: &impl Print) -> io::Result<()> {
    let mut area = [0u8; LARGEST];
    let items = [0u8; ITEM_SIZE * MOST_DEVICES];
    set_up(rt, &mut area, &items)
}

fn one_too_many(rt: &impl Print) -> io::Result<()> {
    let mut area = [0u8; LARGEST + record::SIZE + LINK_SIZE];
    let items = [0u8; ITEM_SIZE * (MOST_DEVICES + 1)];
    set_up(rt, &mut area, &items)
}

fn put(rt: &impl Print, area: &mut [u8], frame: u64) -> io::Result<()> {
    let refusal = pil::pil_put(area, frame);
    println!(rt; "put {frame}: refusal {refusal}")
}

// The highest frame, and one too high.
fn puts(rt: &impl Print) -> io::Result<()> {
    let mut area = [0u8; 92];
    let items = [0u8; ITEM_SIZE];
    set_up(rt, &mut area, &items)?;
    put(rt, &mut area, 2047)?;
    put(rt, &mut area, 2048)
}

// A link takes four frames, and no fifth until a hop has made room, which is used again.
fn five(rt: &impl Print) -> io::Result<()> {
    let mut area = [0u8; 92];
    let items = [0u8; ITEM_SIZE];
    set_up(rt, &mut area, &items)?;
    for frame in 1..=5 {
        put(rt, &mut area, frame)?;
    }
    hop(rt, &mut area, 0)?;
    put(rt, &mut area, 5)
}

fn hop(rt: &impl Print, area: &mut [u8], device: u64) -> io::Result<()> {
    let answer = pil::pil_hop(area, device);
    let frame = answer.frame as u64;
    println!(rt;
        "hop {device}: refusal {}, frame {}",
        answer.refusal,
        hex(frame)
    )
}
