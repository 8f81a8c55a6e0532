// A bench conversation over three devices, after the sequences of 001's section 5.5: power on, addresses assigned, a
// data transfer that the controller interrupts with NRD and takes up again, and a serial poll.
#![tactic(auto)]

use print::hex;
use std::io;

// A meter, a printer, another meter: send data, status, auto address and service request; listen and auto address.
const ITEMS: [u8; 36] = [
    0xa6, 31, 0, 0, 0, 0, 0, 0, 0, 0, 0, 0, 0x21, 31, 0, 0, 0, 0, 0, 0, 0, 0, 0, 0, 0xa6, 31, 0, 0,
    0, 0, 0, 0, 0, 0, 0, 0,
];

fn main(rt: HostRuntime) -> io::Result<()> {
    let mut area = [0u8; 240];
    pil::pil_set_up(&mut area, &ITEMS);
    power_on(&rt, &mut area)?;
    addresses(&rt, &mut area)?;
    transfer(&rt, &mut area)?;
    interruption(&rt, &mut area)?;
    poll(&rt, &mut area)
}

// IFC and RFC come back as they were sent.
fn power_on(rt: &impl Print, area: &mut [u8]) -> io::Result<()> {
    println!(rt; "power on")?;
    send(rt, area, &[0x490, 0x500])
}

// AAU, and AAD 1 comes back as AAD 4: three devices took an address.
fn addresses(rt: &impl Print, area: &mut [u8]) -> io::Result<()> {
    println!(rt; "addresses")?;
    send(rt, area, &[0x49a, 0x500, 0x581])
}

// UNL, LAD 2, TAD 1, SDA: the meter replaces SDA by its first byte, which the printer is handed.
fn transfer(rt: &impl Print, area: &mut [u8]) -> io::Result<()> {
    println!(rt; "data transfer")?;
    pil::pil_load_end(area, 0, b"1.5");
    send(
        rt,
        area,
        &[0x43f, 0x500, 0x422, 0x500, 0x441, 0x500, 0x560, 0x031],
    )
}

// NRD in place of the second byte, then the byte held back: ETO. SDA again goes on where it left off, to END and ETO.
fn interruption(rt: &impl Print, area: &mut [u8]) -> io::Result<()> {
    println!(rt; "interruption")?;
    send(rt, area, &[0x542, 0x02e, 0x560, 0x235])
}

// The second meter wants service: IDY comes back with C1. TAD and SST for each device.
fn poll(rt: &impl Print, area: &mut [u8]) -> io::Result<()> {
    println!(rt; "serial poll")?;
    pil::pil_status(area, 2, 0x40);
    pil::pil_wish(area, 2, 1);
    send(rt, area, &[0x600, 0x43f, 0x500])?;
    // The status byte passes the meter that asks for service, which sets C1; that is no error when it comes back.
    send(rt, area, &[0x441, 0x500, 0x561, 0x100])?;
    // The printer has no status to send, and SST comes back.
    send(rt, area, &[0x442, 0x500, 0x561])?;
    // The meter that asked is found by its status, and asks no longer.
    send(rt, area, &[0x443, 0x500, 0x561, 0x040])?;
    send(rt, area, &[0x600])
}

// Frames right round, one after another.
fn send(rt: &impl Print, area: &mut [u8], frames: &[u64]) -> io::Result<()> {
    for frame in frames {
        round(rt, area, *frame)?;
    }
    Ok(())
}

// A frame right round: a line for each byte handed, then the frame put and the frame out.
fn round(rt: &impl Print, area: &mut [u8], frame: u64) -> io::Result<()> {
    pil::pil_put(area, frame);
    for device in 0..3 {
        hop(rt, area, device)?;
    }
    let taken = pil::pil_take(area);
    println!(rt; "{} {}", hex(frame), hex(taken.frame as u64))
}

fn hop(rt: &impl Print, area: &mut [u8], device: u64) -> io::Result<()> {
    let hopped = pil::pil_hop(area, device);
    if hopped.handed == 1 {
        println!(rt;
            "device {device} is handed {}, end {}",
            hopped.byte, hopped.end
        )?;
    }
    Ok(())
}
