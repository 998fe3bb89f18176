// Which row was open: a question about a bank and an event of a clean capture, with the index of all openings filled.
#![tactic(auto)]

ghost use Rattle.std.specs.Prelude.{◌≡◌, map, length};
ghost use Rattle.reading.specs.Openings.{records_from};
ghost use Rattle.reading.specs.OpenRow.{open_row_answer, index_in, records_in, over};
ghost use Rattle.refusal.specs.Refusal.{told, passed};
ghost use Rattle.banks.specs.Banks.{bank_of, found, told_of};
ghost use Rattle.rows.specs.Walks.{Few};
ghost use Rattle.asking.specs.Asked.{clean_said, question_said};

use banks::{Bank, Told};
use browser::Stated;
use judge::Verdict;
use refusal::Refusal;
use rows::Tally;

// Refusals 1 to 4, and 8.
fn clean(capture: &[u8]) -> Result<(), Refusal>
    ensures { passed result ≡ clean_said capture.now }
{
    match judge::judge(capture)? {
        Verdict::Clean { .. } => Ok(()),
        Verdict::Broken { event, .. } => Err(Refusal::Broken(event)),
    }
}

// Refusal 13, and 7 for the records.
fn question(n: u32, bank: u32, event: u32, records: usize) -> Result<(), Refusal>
    ensures { passed result ≡ question_said n bank event records }
{
    if 3 < bank || n <= event {
        return Err(Refusal::Question);
    }
    if records < 4 {
        return Err(Refusal::Room(4));
    }
    Ok(())
}

// The records of the banks, by how many openings each has.
fn records_of(t: Tally) -> [Bank; 4]
    requires { Few t 8000 }
    ensures { result ≡ map bank_of (records_from 0 t.counts) }
{
    let mut banks = [Bank {
        before: 0,
        count: 0,
    }; 4];
    let mut before = 0;
    for (bank, count) in t.counts.iter().enumerate() {
        let count = *count;
        banks[bank] = Bank { before, count };
        before += count;
    }
    banks
}

// What was open, where so many records are lent beside the index: the row and the records, and the index filled. How many there
// are is enough here, since `banks::fill` alone stores into them.
pub fn open_row(
    capture: &[u8],
    bank: u32,
    event: u32,
    records: usize,
    index: &mut [u32],
) -> Result<Told, Refusal>
    ensures answer { told found result ≡ told_of (open_row_answer capture.now bank event records (length index.old)) (records_in capture.now) }
    ensures index_after { index.new ≡ over (open_row_answer capture.now bank event records (length index.old)) (index_in capture.now) index.old }
{
    clean(capture)?;
    let bytes = capture::event_bytes(capture);
    let count = capture::event_count(capture);
    question(count, bank, event, records)?;
    let tally = rows::count(capture, count);
    let banks = records_of(tally);
    let last = banks[3];
    let words = 3 * (last.before + last.count);
    if index.len() < words as usize {
        return Err(Refusal::Room(words));
    }
    let events = Stated { bytes, count };
    rows::write(&events, count, index);
    let row = rows::stands(&events, bank as usize, event + 1).map(|open| open.row);
    Ok(Told { row, banks })
}
