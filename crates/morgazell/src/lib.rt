// The calls for C and Rust programs, which `morgazell_c` exports. Each answers one number, whose bits `specs/Packing` and include/morgazell.h describe.
#![tactic(auto)]

ghost use Rattle.std.specs.Prelude.{◌≡◌, ◌<◌, map};
ghost use Rattle.reading.specs.Answers.{judge_answer_to, judge_answer, recording_answer, cells_outcome, schedule_outcome};
ghost use Rattle.reading.specs.Blank.{blank_outcome};
ghost use Rattle.reading.specs.Export.{read_outcome, write_outcome};
ghost use Rattle.reading.specs.OpenRow.{open_row_outcome};
ghost use Rattle.reading.specs.Player.{play_outcome};
ghost use Rattle.banks.specs.Banks.{means, bank_of, record_of};
ghost use Rattle.version.specs.Version.{version};
ghost use Rattle.refusal.specs.Refusal.{number_of, place_of, told};
ghost use Rattle.morgazell.specs.Packing.{word, packed, judge_told, count_told, row_told};

use banks::{Bank, Told};
use judge::Verdict;
use refusal::Refusal;

const REFUSAL: u64 = 0x100_0000_0000_0000;

const RULE: u64 = 0x1_0000_0000_0000;

fn pack(number: u32, rule: u32, value: u32) -> u64
    requires { (number < 256) × (rule < 256) }
    ensures { result ≡ word number rule value }
{
    REFUSAL * u64::from(number) + RULE * u64::from(rule) + u64::from(value)
}

fn refused(why: Refusal) -> u64
    ensures { result ≡ word (number_of why) 0 (place_of why) }
{
    pack(why.number(), 0, why.place())
}

// Of a call that says how many elements it wrote.
fn counted(answer: Result<u32, Refusal>) -> u64
    ensures { result ≡ packed (count_told (told (λ n. n) answer)) }
{
    match answer {
        Ok(count) => pack(0, 0, count),
        Err(why) => refused(why),
    }
}

// What is said of these bytes where there may be so many events.
fn judge_to(capture: &[u8], most: u32) -> u64
    ensures { result ≡ packed (judge_told (judge_answer_to most capture.now)) }
{
    match judge::judge_to(capture, most) {
        Ok(Verdict::Clean { judged, .. }) => pack(0, 0, judged),
        Ok(Verdict::Broken { rule, event, .. }) => pack(0, rule.number(), event),
        Err(why) => refused(why),
    }
}

// What document 01 says of these bytes as a capture.
pub fn morgazell_judge(capture: &[u8]) -> u64
    ensures { result ≡ packed (judge_told (judge_answer capture.now)) }
{
    judge_to(capture, capture::MOST_EVENTS)
}

// The same of a recording: as many events as the header's words can state.
pub fn morgazell_recording(recording: &[u8]) -> u64
    ensures { result ≡ packed (judge_told (recording_answer recording.now)) }
{
    judge_to(recording, capture::MOST_RECORDED)
}

// The cells of the bursts in these bytes as a capture; what lies behind them in the buffer stays.
pub fn morgazell_cells(capture: &[u8], out: &mut [u32]) -> u64
    ensures value { result ≡ packed (count_told (cells_outcome capture.now out.old).answer) }
    ensures out_after { out.new ≡ (cells_outcome capture.now out.old).buffer }
{
    counted(cells::burst_cells(capture, out))
}

// The schedule of the requests by a row policy, 0 open and 1 closed, as a whole capture; bytes behind it in the buffer stay.
pub fn morgazell_schedule(settings: &[u32], requests: &[u32], policy: u32, out: &mut [u8]) -> u64
    ensures value { result ≡ packed (count_told (schedule_outcome settings.now requests.now policy out.old).answer) }
    ensures out_after { out.new ≡ (schedule_outcome settings.now requests.now policy out.old).buffer }
{
    counted(schedule::schedule(settings, requests, policy, out))
}

// These bytes as a capture, its addresses blanked; bytes behind it in the buffer stay.
pub fn morgazell_blank(capture: &[u8], out: &mut [u8]) -> u64
    ensures value { result ≡ packed (count_told (blank_outcome capture.now out.old).answer) }
    ensures out_after { out.new ≡ (blank_outcome capture.now out.old).buffer }
{
    counted(hidden::blank(capture, out))
}

// These records of a handheld analyser as a capture of these settings and this edition; bytes behind it in the buffer stay.
pub fn morgazell_read_export(records: &[u8], settings: &[u32], edition: u32, out: &mut [u8]) -> u64
    ensures value { result ≡ packed (count_told (read_outcome records.now settings.now edition out.old).answer) }
    ensures out_after { out.new ≡ (read_outcome records.now settings.now edition out.old).buffer }
{
    counted(exports::read(records, settings, edition, out))
}

// These bytes as a capture, as records of a handheld analyser; bytes behind them in the buffer stay.
pub fn morgazell_write_export(capture: &[u8], out: &mut [u8]) -> u64
    ensures value { result ≡ packed (count_told (write_outcome capture.now out.old).answer) }
    ensures out_after { out.new ≡ (write_outcome capture.now out.old).buffer }
{
    counted(exports::write(capture, out))
}

// What was found of a bank.
fn packed_row(told: &Result<Told, Refusal>) -> u64
    ensures { result ≡ packed (row_told (means told.now)) }
{
    match told {
        Ok(found) => match found.row {
            Some(row) => pack(0, 1, row),
            None => pack(0, 0, 0),
        },
        Err(why) => refused(*why),
    }
}

// Which row of the bank was open after the event, in these bytes as a capture. The four records and the index are filled; what
// lies behind them stays.
pub fn morgazell_open_row(
    capture: &[u8],
    bank: u32,
    event: u32,
    records: &mut [Bank],
    index: &mut [u32],
) -> u64
    ensures { (result ≡ packed (row_told (open_row_outcome capture.now bank event (map record_of records.old) index.old).answer))
        × (records.new ≡ map bank_of (open_row_outcome capture.now bank event (map record_of records.old) index.old).records)
        × (index.new ≡ (open_row_outcome capture.now bank event (map record_of records.old) index.old).index) }
{
    let told = asking::open_row(capture, bank, event, records.len(), index);
    banks::fill(records, &told);
    packed_row(&told)
}

// These bytes as a capture, played on the window of cells from `first` on, with the words and masks of `writes`; what lies behind
// the words read stays.
pub fn morgazell_play(
    capture: &[u8],
    first: u32,
    window: &mut [u32],
    writes: &[u32],
    reads: &mut [u32],
) -> u64
    ensures value { result ≡ packed (count_told (play_outcome capture.now first window.old writes.now reads.old).answer) }
    ensures window_after { window.new ≡ (play_outcome capture.now first window.old writes.now reads.old).window }
    ensures reads_after { reads.new ≡ (play_outcome capture.now first window.old writes.now reads.old).reads }
{
    counted(player::play(capture, first, window, writes, reads))
}

// 10203 for version 1.2.3.
pub fn morgazell_version() -> u32
    ensures { result ≡ version }
{
    version::number()
}
