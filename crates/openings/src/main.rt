// The index of a clean capture in words: the openings of each bank, in order (docs/RULES.md, section 8.3).
#![tactic(auto)]

use banks::Bank;
use console::Out;
use console::program::Program;
use judge::Verdict;
use refusal::Refusal;

const OPENINGS: Program<'static> = Program {
    name: b"openings",
    help: b"usage: openings [FILE]

Tells which rows a clean capture of a Mobile DDR bus has open, and when. Prints
`events N` and of each bank `bank B openings COUNT`, then a line an opening:
`row ROW from event FIRST to event LAST`. Of anything else `refused NUMBER place
PLACE`; number 8 is a capture that breaks a rule, at that event.
",
    undone: b"nothing was looked at",
    option: None,
    names: 1,
};

// One byte more than the longest capture, so that a longer input is seen to be too long and nothing is looked at in part.
const ROOM: usize = capture::MOST + 1;

// Three words an opening, and no more openings than events.
const WORDS: usize = 24_000;

// The openings of a bank stand behind those of the banks before it.
fn print_bank(out: &mut Out, index: &[u32], number: usize, bank: Bank) {
    writeln!(out, "bank {number} openings {}", bank.count);
    let openings = index.chunks_exact(3).skip(bank.before as usize);
    for opening in openings.take(bank.count as usize) {
        let [row, first, last] = *opening else {
            return;
        };
        writeln!(out, "row {row} from event {first} to event {last}");
    }
}

// A capture without events is asked nothing: every question of it is refused, and no bank has an opening.
fn print_index(out: &mut Out, capture: &[u8], events: u32) {
    let mut index = [0u32; WORDS];
    let none = [Bank {
        before: 0,
        count: 0,
    }; 4];
    let banks = asking::open_row(capture, 0, 0, 4, &mut index).map_or(none, |told| told.banks);
    writeln!(out, "events {events}");
    for (number, bank) in banks.iter().enumerate() {
        print_bank(out, &index, number, *bank);
    }
}

fn print_openings(out: &mut Out, capture: &[u8]) {
    match judge::judge(capture) {
        Ok(Verdict::Clean { events, .. }) => print_index(out, capture, events),
        Ok(Verdict::Broken { event, .. }) => writeln!(out, "{}", Refusal::Broken(event)),
        Err(refusal) => writeln!(out, "{refusal}"),
    }
}

fn main(rt: HostRuntime) {
    let mut buffer = [0u8; ROOM];
    OPENINGS.print(
        &rt,
        &mut buffer,
        |out, capture| print_openings(out, capture),
    );
}
