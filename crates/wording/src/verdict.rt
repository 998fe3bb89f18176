// The verdict, which the report consists of (docs/RULES.md, section 12).
use console::Out;
use judge::Verdict;
use refusal::Refusal;
use std::fmt;
use std::fmt::Display;

// What is said of the rules, or that it is refused; without the counts.
#[derive(Clone, Copy)]
pub struct Said(pub Result<Verdict, Refusal>);

impl Display for Said {
    fn fmt<W: fmt::Write>(&self, f: &mut fmt::Formatter<W>) -> fmt::Result {
        match self.0 {
            Err(refusal) => write!(f, "{refusal}"),
            Ok(Verdict::Clean { .. }) => write!(f, "clean"),
            Ok(
                Verdict::Broken {
                    rule,
                    event,
                    cycle,
                    ..
                },
            ) => write!(
                f,
                "broken rule {} event {event} cycle {cycle}",
                rule.number()
            ),
        }
    }
}

// The counts of what is not refused stand before it.
pub fn print_verdict(out: &mut Out, verdict: Result<Verdict, Refusal>) {
    let said = Said(verdict);
    match verdict {
        Err(_) => writeln!(out, "{said}"),
        Ok(Verdict::Clean { events, judged } | Verdict::Broken { events, judged, .. }) => {
            writeln!(out, "events {events}\njudged {judged}\n{said}");
        }
    }
}
