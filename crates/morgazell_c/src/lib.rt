// The calls for C and Rust programs as a library that is linked to them: each export is the call of its name in `morgazell`, and promises
// the same. include/morgazell.h describes them.
#![tactic(auto)]

ghost use Rattle.std.specs.Prelude.{◌≡◌, map};
ghost use Rattle.reading.specs.Answers.{judge_answer, recording_answer, cells_outcome, schedule_outcome};
ghost use Rattle.reading.specs.Blank.{blank_outcome};
ghost use Rattle.reading.specs.Export.{read_outcome, write_outcome};
ghost use Rattle.reading.specs.OpenRow.{open_row_outcome};
ghost use Rattle.reading.specs.Player.{play_outcome};
ghost use Rattle.banks.specs.Banks.{bank_of, record_of};
ghost use Rattle.version.specs.Version.{version};
ghost use Rattle.morgazell.specs.Packing.{packed, judge_told, count_told, row_told};

use banks::Bank;

// What document 01 says of these bytes as a capture.
#[unsafe(no_mangle)]
pub extern "C" fn morgazell_judge(capture: &[u8]) -> u64
    ensures { result ≡ packed (judge_told (judge_answer capture.now)) }
{
    morgazell::morgazell_judge(capture)
}

// The same of a recording: as many events as the header's words can state.
#[unsafe(no_mangle)]
pub extern "C" fn morgazell_recording(recording: &[u8]) -> u64
    ensures { result ≡ packed (judge_told (recording_answer recording.now)) }
{
    morgazell::morgazell_recording(recording)
}

// The cells of the bursts in these bytes as a capture; what lies behind them in the buffer stays.
#[unsafe(no_mangle)]
pub extern "C" fn morgazell_cells(capture: &[u8], out: &mut [u32]) -> u64
    ensures value { result ≡ packed (count_told (cells_outcome capture.now out.old).answer) }
    ensures out_after { out.new ≡ (cells_outcome capture.now out.old).buffer }
{
    morgazell::morgazell_cells(capture, out)
}

// The schedule of the requests by a row policy, 0 open and 1 closed, as a whole capture; bytes behind it in the buffer stay.
#[unsafe(no_mangle)]
pub extern "C" fn morgazell_schedule(
    settings: &[u32],
    requests: &[u32],
    policy: u32,
    out: &mut [u8],
) -> u64
    ensures value { result ≡ packed (count_told (schedule_outcome settings.now requests.now policy out.old).answer) }
    ensures out_after { out.new ≡ (schedule_outcome settings.now requests.now policy out.old).buffer }
{
    morgazell::morgazell_schedule(settings, requests, policy, out)
}

// These bytes as a capture, its addresses blanked; bytes behind it in the buffer stay.
#[unsafe(no_mangle)]
pub extern "C" fn morgazell_blank(capture: &[u8], out: &mut [u8]) -> u64
    ensures value { result ≡ packed (count_told (blank_outcome capture.now out.old).answer) }
    ensures out_after { out.new ≡ (blank_outcome capture.now out.old).buffer }
{
    morgazell::morgazell_blank(capture, out)
}

// These records of a handheld analyser as a capture of these settings and this edition; bytes behind it in the buffer stay.
#[unsafe(no_mangle)]
pub extern "C" fn morgazell_read_export(
    records: &[u8],
    settings: &[u32],
    edition: u32,
    out: &mut [u8],
) -> u64
    ensures value { result ≡ packed (count_told (read_outcome records.now settings.now edition out.old).answer) }
    ensures out_after { out.new ≡ (read_outcome records.now settings.now edition out.old).buffer }
{
    morgazell::morgazell_read_export(records, settings, edition, out)
}

// These bytes as a capture, as records of a handheld analyser; bytes behind them in the buffer stay.
#[unsafe(no_mangle)]
pub extern "C" fn morgazell_write_export(capture: &[u8], out: &mut [u8]) -> u64
    ensures value { result ≡ packed (count_told (write_outcome capture.now out.old).answer) }
    ensures out_after { out.new ≡ (write_outcome capture.now out.old).buffer }
{
    morgazell::morgazell_write_export(capture, out)
}

// Which row of the bank was open after the event, in these bytes as a capture. The four records and the index are filled; what
// lies behind them stays.
#[unsafe(no_mangle)]
pub extern "C" fn morgazell_open_row(
    capture: &[u8],
    bank: u32,
    event: u32,
    records: &mut [Bank],
    index: &mut [u32],
) -> u64
    ensures { (result ≡ packed (row_told (open_row_outcome capture.now bank event (map record_of records.old) index.old).answer))
        × (records.new ≡ map bank_of (open_row_outcome capture.now bank event (map record_of records.old) index.old).records)
        × (index.new ≡ (open_row_outcome capture.now bank event (map record_of records.old) index.old).index) }
{
    morgazell::morgazell_open_row(capture, bank, event, records, index)
}

// These bytes as a capture, played on the window of cells from `first` on, with the words and masks of `writes`; what lies behind
// the words read stays.
#[unsafe(no_mangle)]
pub extern "C" fn morgazell_play(
    capture: &[u8],
    first: u32,
    window: &mut [u32],
    writes: &[u32],
    reads: &mut [u32],
) -> u64
    ensures value { result ≡ packed (count_told (play_outcome capture.now first window.old writes.now reads.old).answer) }
    ensures window_after { window.new ≡ (play_outcome capture.now first window.old writes.now reads.old).window }
    ensures reads_after { reads.new ≡ (play_outcome capture.now first window.old writes.now reads.old).reads }
{
    morgazell::morgazell_play(capture, first, window, writes, reads)
}

// 10203 for version 1.2.3.
#[unsafe(no_mangle)]
pub extern "C" fn morgazell_version() -> u32
    ensures { result ≡ version }
{
    morgazell::morgazell_version()
}
