// Where a schedule stands, and when a command of it may go: not before the deadlines that the rules ask of it, nor before the
// end of a burst that it would cut (specs of `plan`).
#![tactic(auto)]

ghost use Rattle.std.specs.Prelude.{◌≡◌, ◌+◌, ◌<◌};
ghost use Rattle.reading.specs.Search.{later};
ghost use Rattle.deadlines.specs.Deadlines.{at, other_bank};
ghost use Rattle.deadlines.specs.Deadlines as is;
ghost use Rattle.plan.specs.Soonest.{active_soonest, burst_soonest, close_soonest, open_till, all_till, close_all_soonest, refresh_soonest};
ghost use Rattle.soonest.specs.Standing.{standing};

use deadlines::Deadlines;
use deadlines::banks::Bank;
use deadlines::places::{
    BUS, BUSY, CLOSE, COLUMN, END, LAST, OPENED, OTHER, READS, REST, WRITES, WRITTEN,
};
use deadlines::sums::{latest, pick};

// What is kept of a schedule while it is written.
#[derive(Clone, Copy)]
pub struct State {
    pub deadlines: Deadlines,
    // The row that each bank was opened on.
    pub rows: [u64; 4],
    // Until when the last read and the last write can be cut, 0 with auto precharge.
    pub read_end: u64,
    pub write_end: u64,
    // The next free cycle, and how many events there are.
    pub free: u64,
    pub events: usize,
}

// Rule 7 asks nothing of the bank itself. Here and in `till` the other bank is a number, which each call writes out.
fn other(d: &Deadlines, b: usize, i: usize) -> u64
    requires { i < 4 }
    ensures { result ≡ other_bank d.now b i }
{
    pick(i == b, 0, d[OTHER + i])
}

pub fn active(d: &Deadlines, b: Bank) -> u64
    ensures { result ≡ active_soonest d.now b.number }
{
    let last = latest(other(d, b.number, 2), other(d, b.number, 3));
    let apart = latest(other(d, b.number, 0), latest(other(d, b.number, 1), last));
    latest(d[BUSY], latest(d[REST + b.number], apart))
}

// What READ and WRITE of bank b wait for alike, and what each waits for by itself: the bus, a burst of the other kind, and the end
// of one that it would cut.
fn waits(d: &Deadlines, b: Bank, bus: u64, other: u64, end: u64) -> u64
    ensures { result ≡ later (later (at d.now is.BUSY) (later (at d.now (is.COLUMN + b.number)) (later bus other))) end }
{
    let rules = latest(d[BUSY], latest(d[COLUMN + b.number], latest(bus, other)));
    latest(rules, end)
}

// READ or WRITE of a bank that is open. Which of them is the request's own bit, handed on as it stands.
pub fn burst(write: bool, state: &State, b: Bank) -> u64
    ensures { result ≡ burst_soonest write state.now.deadlines (standing state.now) b.number }
{
    let d = &state.deadlines;
    if write {
        return waits(d, b, d[BUS], d[WRITES], state.write_end);
    }
    waits(d, b, d[END], d[READS], state.read_end)
}

// PRECHARGE of a bank that is open.
pub fn close(state: &State, b: Bank) -> u64
    ensures { result ≡ close_soonest state.now.deadlines (standing state.now) b.number }
{
    let d = &state.deadlines;
    let rules = latest(d[BUSY], latest(d[CLOSE + b.number], d[WRITTEN + b.number]));
    latest(rules, pick(d[LAST] == b.number as u64, state.read_end, 0))
}

// What is asked of bank i at some place of the deadlines, nothing if it is idle.
fn till(d: &Deadlines, place: usize, i: usize) -> u64
    requires { (place + i < 39) × (i < 4) }
    ensures { result ≡ open_till d.now place i }
{
    pick(d[OPENED + i] == 0, 0, d[place + i])
}

fn all_till(d: &Deadlines, place: usize, rest: u64) -> u64
    requires { place + 3 < 39 }
    ensures { result ≡ all_till d.now place rest }
{
    let last = latest(till(d, place, 2), latest(till(d, place, 3), rest));
    latest(till(d, place, 0), latest(till(d, place, 1), last))
}

// PRECHARGE of all banks.
pub fn close_all(state: &State) -> u64
    ensures { result ≡ close_all_soonest state.now.deadlines (standing state.now) }
{
    let d = &state.deadlines;
    let written = all_till(d, WRITTEN, state.read_end);
    latest(d[BUSY], all_till(d, CLOSE, written))
}

// AUTO REFRESH, with all banks idle.
pub fn refresh(d: &Deadlines) -> u64
    ensures { result ≡ refresh_soonest d.now }
{
    let last = latest(d[REST + 2], latest(d[REST + 3], d[BUS]));
    latest(d[BUSY], latest(d[REST], latest(d[REST + 1], last)))
}
