// The rows that stand open after an event, beside its command.
use browser::Stated;
use capture::held::Events;
use rows::OpenRow;
use std::fmt;
use std::fmt::Display;

// How a bank stands after the first n events; idle where there are fewer.
fn stands(events: &Events, bank: usize, n: u32) -> Option<OpenRow> {
    if events.count < n {
        return None;
    }
    let stated = Stated {
        bytes: events.bytes,
        count: events.count,
    };
    rows::stands(&stated, bank, n)
}

// After the first n events.
#[derive(Clone, Copy)]
pub struct Open<'a> {
    pub events: Events<'a>,
    pub n: u32,
}

impl Display for Open<'_> {
    fn fmt<W: fmt::Write>(&self, f: &mut fmt::Formatter<W>) -> fmt::Result {
        let mut idle = true;
        // Banks go by their numbers, which are printed.
        for bank in 0..4 {
            if let Some(OpenRow { row, .. }) = stands(&self.events, bank, self.n) {
                if idle {
                    write!(f, "; open")?;
                }
                write!(f, " {bank}:{row}")?;
                idle = false;
            }
        }
        if idle {
            write!(f, "; all idle")?;
        }
        Ok(())
    }
}
