// The same with commas. Every row has the columns of the head; a column without a number is empty, and the totals are the sums
// of their columns.
use crate::Form;
use console::Out;
use judge::Verdict;
use monthly::{Line, Totals};
use refusal::Refusal;
use std::fmt;
use std::fmt::Display;

pub struct Table;

// Rule, event and cycle; refusal and place.
#[derive(Clone, Copy)]
struct Found(Result<Verdict, Refusal>);

impl Display for Found {
    fn fmt<W: fmt::Write>(&self, f: &mut fmt::Formatter<W>) -> fmt::Result {
        match self.0 {
            Err(refusal) => write!(f, ",,,{},{}", refusal.number(), refusal.place()),
            Ok(Verdict::Clean { .. }) => write!(f, ",,,,"),
            Ok(
                Verdict::Broken {
                    rule,
                    event,
                    cycle,
                    ..
                },
            ) => write!(f, "{},{event},{cycle},,", rule.number()),
        }
    }
}

// A row of which there is a refusal alone.
fn print_refused(out: &mut Out, name: &str, number: u64, place: u64) {
    writeln!(out, "{name},,,,,,,,,,{number},{place},,,,");
}

impl Form for Table {
    fn print_head(out: &mut Out) {
        writeln!(
            out,
            "capture,captures,clean,broken,refused,events,judged,rule,event,cycle,refusal,place,read,written,bus,over"
        );
    }

    fn print_line(out: &mut Out, i: u64, line: Line) {
        let counts = monthly::tally(line.verdict);
        let bus = u64::from(line.read) + u64::from(line.written);
        writeln!(
            out,
            "{i},1,{},{},{},{},{},{},{},{},{bus},{}",
            counts.clean,
            counts.broken,
            counts.refused,
            counts.events,
            counts.judged,
            Found(line.verdict),
            line.read,
            line.written,
            line.cycles
        );
    }

    fn print_end(out: &mut Out, i: u64) {
        print_refused(out, "ends", 1, i);
    }

    fn print_sums(out: &mut Out, t: Totals, bus: u64) {
        writeln!(
            out,
            "all,{},{},{},{},{},{},,,,,,{},{},{bus},{}",
            t.captures,
            t.clean,
            t.broken,
            t.refused,
            t.events,
            t.judged,
            t.read,
            t.written,
            t.cycles
        );
    }

    // A refusal of this program alone: no call answers 14, so `Refusal` has no case of it.
    fn print_refusal(out: &mut Out) {
        print_refused(out, "all", 14, monthly::MOST_CAPTURES);
    }
}
