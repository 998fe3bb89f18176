// The lines of a month, in words.
use crate::Form;
use console::Out;
use monthly::{Line, Totals};
use std::fmt;
use std::fmt::Display;
use wording::verdict::Said;

pub struct Plain;

// The share of the bus.
#[derive(Clone, Copy)]
struct Share {
    read: u64,
    written: u64,
    bus: u64,
    cycles: u64,
}

impl Display for Share {
    fn fmt<W: fmt::Write>(&self, f: &mut fmt::Formatter<W>) -> fmt::Result {
        write!(
            f,
            "read {} written {} bus {} over {}",
            self.read, self.written, self.bus, self.cycles
        )
    }
}

impl Form for Plain {
    fn print_head(_out: &mut Out) {}

    fn print_line(out: &mut Out, i: u64, line: Line) {
        let counts = monthly::tally(line.verdict);
        let read = u64::from(line.read);
        let written = u64::from(line.written);
        let share = Share {
            read,
            written,
            bus: read + written,
            cycles: u64::from(line.cycles),
        };
        writeln!(
            out,
            "capture {i} events {} judged {} {} {share}",
            counts.events,
            counts.judged,
            Said(line.verdict)
        );
    }

    fn print_end(out: &mut Out, i: u64) {
        writeln!(out, "stream ends at capture {i}");
    }

    fn print_sums(out: &mut Out, t: Totals, bus: u64) {
        let share = Share {
            read: t.read,
            written: t.written,
            bus,
            cycles: t.cycles,
        };
        writeln!(
            out,
            "all captures {} clean {} broken {} refused {} events {} judged {} {share}",
            t.captures, t.clean, t.broken, t.refused, t.events, t.judged
        );
    }

    // A refusal of this program alone: no call answers 14, so `Refusal` has no case of it.
    fn print_refusal(out: &mut Out) {
        writeln!(out, "refused 14 place {}", monthly::MOST_CAPTURES);
    }
}
