// The listing: of a capture its settings, what document 01 says of it, and the events around the broken one.
// docs/LISTING.md has every line.
#![tactic(auto)]

mod command;
mod events;
mod open;

use capture::held::Opened;
use console::Out;
use console::program::Program;
use judge::Verdict;
use refusal::Refusal;
use wording::verdict::print_verdict;
use wording::{asked, values};

const LISTING: Program<'static> = Program {
    name: b"listing",
    help: b"usage: listing [FILE]

Judges a capture of a Mobile DDR bus. Prints its settings, the verdict, the
events around the broken one and what the broken rule asks; of what is no
capture the refusal and what was refused.
",
    undone: b"nothing was judged",
    option: None,
    names: 1,
};

// One byte more than the longest capture, so that a longer input is seen to be too long and nothing is judged in part.
const ROOM: usize = capture::MOST + 1;

// What was refused, by its place.
fn print_refused(out: &mut Out, refused: &[u8], refusal: Refusal) {
    writeln!(out, "{refusal}");
    match refusal {
        Refusal::Setting(place) => values::print_refused(out, refused, place),
        Refusal::Event(place) => events::print_refused(out, refused, place),
        _ => {}
    }
}

fn list(out: &mut Out, capture: &[u8]) {
    let Opened { settings, events } = match capture::open(capture) {
        Ok(opened) => opened,
        Err(refusal) => {
            print_refused(out, capture, refusal);
            return;
        }
    };
    values::print_settings(out, &settings);
    let verdict = judge::judge(capture);
    print_verdict(out, verdict);
    if let Ok(Verdict::Broken { rule, event, .. }) = verdict {
        events::print_around(out, &settings, events, event);
        asked::print_asked(out, &settings, rule);
    }
}

fn main(rt: HostRuntime) {
    let mut buffer = [0u8; ROOM];
    LISTING.print(&rt, &mut buffer, |out, capture| list(out, capture));
}
