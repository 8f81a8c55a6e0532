// Prints a C header with names as arrays by number: the mnemonics of the message table's kinds, and words for refusals,
// stop reasons, states and events.
#![tactic(auto)]

use std::io;

fn main(rt: HostRuntime) -> io::Result<()> {
    println!(rt; "#ifndef PIL_NAMES_H\n#define PIL_NAMES_H\n")?;
    println!(rt; "/* Names for the numbers of pil.h: each array is indexed by such a number. */")?;
    array(
        &rt,
        "Mnemonics of kinds, PIL_KIND_NONE to PIL_KIND_IDY.",
        "kind_names",
        &names::MNEMONICS,
    )?;
    array(
        &rt,
        "Refusals, PIL_ACCEPTED to PIL_BAD_SAVE.",
        "refusal_texts",
        &names::REFUSALS,
    )?;
    array(
        &rt,
        "Why a drain stopped, PIL_STOP_NO_HOP to PIL_STOP_EVENT.",
        "stop_texts",
        &names::STOPS,
    )?;
    array(
        &rt,
        "Assignment states, PIL_UNCONFIGURED to PIL_HALF_ASSIGNED.",
        "assignment_texts",
        &names::ASSIGNMENTS,
    )?;
    array(
        &rt,
        "Talker states, PIL_TALKER_IDLE to PIL_TALKER_ACCESSORY.",
        "talker_texts",
        &names::TALKERS,
    )?;
    array(
        &rt,
        "Service states, PIL_SERVICE_NONE to PIL_SERVICE_POLLED.",
        "service_texts",
        &names::SERVICES,
    )?;
    array(
        &rt,
        "Remote and local, PIL_LOCAL to PIL_REMOTE_LOCKED.",
        "remote_texts",
        &names::REMOTES,
    )?;
    array(
        &rt,
        "Events, PIL_EVENT_NONE to PIL_EVENT_TRIGGER.",
        "event_texts",
        &names::EVENTS,
    )?;
    println!(rt; "\n#endif")
}

// An array: what it is of, its name, and its entries.
fn array(rt: &impl Print, what: &str, name: &str, table: &[&'static str]) -> io::Result<()> {
    let count = table.len();
    println!(rt; "\n/* {what} */\nstatic const char *const pil_{name}[{count}] = {{")?;
    for number in 0..count as u64 {
        println!(rt; "    \"{}\",", names::name(table, number))?;
    }
    println!(rt; "}};")
}
