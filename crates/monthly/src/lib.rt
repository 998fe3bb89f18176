// The month in numbers: the line of a capture, the totals of lines, and how far a stream is read for a capture.
#![tactic(auto)]

ghost use Rattle.std.specs.Prelude.{◌≡◌, ◌+◌, ◌*◌, ◌≤◌, ◌<◌, ltb, []};
ghost use Rattle.reading.specs.Schedule.{last_from};
ghost use Rattle.reading.specs.Month.{unused, line_of, totals_of, most_captures, ends_stream};
ghost use Rattle.refusal.specs.Refusal.{told};
ghost use Rattle.judge.specs.Meaning.{report_of, events_in};
ghost use Rattle.monthly.specs.Meaning.{line_means, counts_of, totals_mean, added, Held, wanted_of};

use capture::held::Events;
use cells::held::Clean;
use judge::Verdict;
use refusal::Refusal;

// How many captures a month may have.
pub const MOST_CAPTURES: u64 = 10_000;

// What is told of a capture. Beats and cycles are 0 unless it is clean; the cycles are twice that of its last event.
#[derive(Clone, Copy)]
pub struct Line {
    pub verdict: Result<Verdict, Refusal>,
    pub read: u32,
    pub written: u32,
    pub cycles: u32,
}

// What a verdict adds to the totals: 1 to one of the first three.
#[derive(Clone, Copy, Default)]
pub struct Counts {
    pub clean: u32,
    pub broken: u32,
    pub refused: u32,
    pub events: u32,
    pub judged: u32,
}

// The sums of lines. Ten thousand words of 32 bits do not fill 64. `Held` stands in clauses and is no invariant of this type:
// `has_room` takes any totals, and everyone may write some down, since the fields are public.
#[derive(Clone, Copy, Default)]
pub struct Totals {
    pub captures: u64,
    pub clean: u64,
    pub broken: u64,
    pub refused: u64,
    pub events: u64,
    pub judged: u64,
    pub read: u64,
    pub written: u64,
    pub cycles: u64,
}

// ---- the stream

// The least and the most bytes of a capture, as words.
const LEAST: u32 = capture::EVENTS as u32;

const MOST: u32 = capture::MOST as u32;

// How many bytes are to be read, those of the total word counted in, where it says so. No capture has fewer than the least
// or more than the most: of such a total the word itself is enough, since any bytes behind it are refused alike.
pub fn wanted(total: u32) -> usize
    ensures value { result ≡ wanted_of total }
    ensures lower_bound { (4 ≤ result) × (result ≤ 64088) }
{
    if total < LEAST {
        return 4;
    }
    if MOST < total {
        return 4;
    }
    total as usize
}

// Whether the stream ends behind a capture of which this is said.
pub fn ends(verdict: Result<Verdict, Refusal>) -> bool
    ensures { result ≡ ends_stream (told report_of verdict) }
{
    matches!(verdict, Err(Refusal::Length))
}

// ---- a line

// Twice the cycle of the last event, 0 where there is none.
fn twice_last(events: &Events<'_>) -> u32
    ensures { result ≡ 2 * last_from 0 (events_in events.now.bytes.now events.now.count) }
{
    if events.count == 0 {
        return 0;
    }
    2 * events.cycle(events.count - 1)
}

// Of one that is not clean.
fn unused(verdict: Result<Verdict, Refusal>) -> Line
    ensures { line_means result ≡ unused (told report_of verdict) }
{
    Line {
        verdict,
        read: 0,
        written: 0,
        cycles: 0,
    }
}

// What is told of these bytes as a capture. The beats are counted where they stand: no cell is written.
pub fn told(capture: &[u8]) -> Line
    ensures { line_means result ≡ line_of capture.now }
{
    let verdict = judge::judge(capture);
    match verdict {
        Ok(Verdict::Clean { .. }) => {
            let clean = Clean::judged(capture);
            let kept = clean.kept_beats();
            Line {
                verdict,
                read: kept.read,
                written: kept.written,
                cycles: twice_last(&clean.opened.events),
            }
        }
        Ok(Verdict::Broken { .. }) => unused(verdict),
        Err(_) => unused(verdict),
    }
}

// ---- totals

pub fn tally(verdict: Result<Verdict, Refusal>) -> Counts
    ensures { result ≡ counts_of (told report_of verdict) }
{
    match verdict {
        Err(_) => Counts {
            refused: 1,
            ..Counts::default()
        },
        Ok(Verdict::Clean { events, judged }) => Counts {
            clean: 1,
            events,
            judged,
            ..Counts::default()
        },
        Ok(Verdict::Broken { events, judged, .. }) => Counts {
            broken: 1,
            events,
            judged,
            ..Counts::default()
        },
    }
}

// Those of no line.
pub fn nothing() -> Totals
    ensures result_value { totals_mean result ≡ totals_of [] }
    ensures held { Held result }
{
    Totals::default()
}

// Whether there may be one more.
pub fn has_room(t: Totals) -> bool
    ensures { result ≡ ltb t.captures most_captures }
{
    t.captures < MOST_CAPTURES
}

// Those with one line more. Casts: by `u64::from` the proof of the sums does not close.
pub fn add(t: Totals, x: Line) -> Totals
    requires { Held t × (t.captures < most_captures) }
    ensures result_value { totals_mean result ≡ added (totals_mean t) (line_means x) }
    ensures held { Held result }
{
    let verdict = x.verdict;
    let c = tally(verdict);
    Totals {
        captures: t.captures + 1,
        clean: t.clean + c.clean as u64,
        broken: t.broken + c.broken as u64,
        refused: t.refused + c.refused as u64,
        events: t.events + c.events as u64,
        judged: t.judged + c.judged as u64,
        read: t.read + x.read as u64,
        written: t.written + x.written as u64,
        cycles: t.cycles + x.cycles as u64,
    }
}

// All beats on the bus.
pub fn beats(t: Totals) -> u64
    requires { Held t }
    ensures { result ≡ t.read + t.written }
{
    t.read + t.written
}
