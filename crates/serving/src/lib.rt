// One request's turn in a schedule, with rows left open or closed: alone, or behind a refresh, or not in time.
#![tactic(auto)]

ghost use Rattle.std.specs.Prelude.{◌≡◌, not, ◌||◌, ◌+◌, ◌<◌, []};
ghost use Rattle.reading.specs.Search.{given};
ghost use Rattle.reading.specs.Settings.{settings_of};
ghost use Rattle.requests.specs.Asked.{Asked};
ghost use Rattle.plan.specs.Draft.{opening, requesting, idling, refreshing, closed_refresh_at, timely, turned, kept};
ghost use Rattle.drafts.specs.Room.{Room, draft};
ghost use Rattle.plan.specs.Margin.{margin_of};
ghost use Rattle.serving.specs.Sure.{far, Sure, set_aside};
ghost use Rattle.serving.specs.Means.{means};

use deadlines::banks::{Bank, all_idle};
use deadlines::places::{LATENCY, OPENED, OVERDUE, PAIRS};
use deadlines::sums::after;
use drafts::{Scheduler, cycle_for};
use requests::BankRow;
use settings::places::{T_RAS, T_RCD, T_RFC, T_RP, T_RRD, T_WR, T_WTR};
use soonest::State;

// Refresh cannot be kept by a request's turn.
#[derive(Clone, Copy, Debug, PartialEq, Eq)]
pub struct Late;

// What opens a row: nothing, ACTIVE, or PRECHARGE and ACTIVE.
fn open_row(scheduler: &Scheduler<'_>, state: &mut State, words: &mut [u32], row: BankRow)
    requires { Room state.old words.old 2 }
    ensures { draft state.new words.new ≡ opening (settings_of scheduler.now.settings.now) row.bank.number row.number (draft state.old words.old) }
{
    let b = row.bank.number;
    if state.deadlines[OPENED + b] == 0 {
        scheduler.activate(state, words, row);
        return;
    }
    if state.rows[b] == u64::from(row.number) {
        return;
    }
    scheduler.close(state, words, row.bank);
    scheduler.activate(state, words, row);
}

// Its row opened, then READ or WRITE.
fn request(scheduler: &Scheduler<'_>, state: &mut State, words: &mut [u32], q: u32)
    requires asked { Asked (settings_of scheduler.now.settings.now) q }
    requires room { Room state.old words.old 3 }
    ensures { draft state.new words.new ≡ requesting (settings_of scheduler.now.settings.now) q scheduler.now.closed (draft state.old words.old) }
{
    let s = scheduler.settings;
    let bank = Bank {
        number: requests::bank(s, q) as usize,
    };
    let row = BankRow {
        bank,
        number: requests::row(s, q),
    };
    open_row(scheduler, state, words, row);
    let pins = requests::burst_pins(s, q, bank, scheduler.closed);
    scheduler.burst(state, words, requests::asks_write(q), bank, pins);
}

// All banks closed, if one is open.
fn idle(scheduler: &Scheduler<'_>, state: &mut State, words: &mut [u32])
    requires { Room state.old words.old 1 }
    ensures { draft state.new words.new ≡ idling (settings_of scheduler.now.settings.now) (draft state.old words.old) }
{
    if all_idle(&state.deadlines) {
        return;
    }
    scheduler.close_all(state, words);
}

// AUTO REFRESH, all banks closed before it if one is open.
fn refresh(scheduler: &Scheduler<'_>, state: &mut State, words: &mut [u32])
    requires { Room state.old words.old 2 }
    ensures { draft state.new words.new ≡ refreshing (settings_of scheduler.now.settings.now) (draft state.old words.old) }
{
    idle(scheduler, state, words);
    scheduler.refresh(state, words);
}

// The cycle of that AUTO REFRESH, if it were sent next with all banks closed before it.
fn closed_refresh_at(scheduler: &Scheduler<'_>, state: &State) -> u32
    ensures { result ≡ closed_refresh_at (settings_of scheduler.now.settings.now) (draft state.now []) }
{
    let mut d = state.deadlines;
    let t = cycle_for(state.free, soonest::close_all(state));
    effects::close_all_after(scheduler.settings, &mut d, &scheduler.pace, t);
    cycle_for(after(t, 1), soonest::refresh(&d))
}

// An AUTO REFRESH sent next comes while at most eight are owed.
fn in_time(scheduler: &Scheduler<'_>, state: &State) -> bool
    ensures { result ≡ timely (settings_of scheduler.now.settings.now) (draft state.now []) }
{
    let d = &state.deadlines;
    if all_idle(d) {
        let t = cycle_for(state.free, soonest::refresh(d));
        return u64::from(t) < d[OVERDUE];
    }
    let t = closed_refresh_at(scheduler, state);
    u64::from(t) < d[OVERDUE]
}

// How long the turn of a request can take, with the refresh behind it: five waits, each of all times together and a cycle for
// the command itself.
pub fn margin(scheduler: &Scheduler<'_>) -> u64
    ensures { result ≡ margin_of (settings_of scheduler.now.settings.now) }
{
    let s = scheduler.settings;
    let pace = &scheduler.pace;
    let rows = u64::from(s[T_RCD]) + u64::from(s[T_RP]) + u64::from(s[T_RAS]) + u64::from(s[T_RRD]);
    let bursts = u64::from(s[T_WR]) + u64::from(s[T_WTR]);
    let data = u64::from(pace[PAIRS]) + u64::from(pace[LATENCY]);
    5 * (rows + bursts + data + u64::from(s[T_RFC]) + 9)
}

// What stood before a request is kept where it may have to be taken back. It is lent: to clear an Option of it for each
// request takes 45 instructions.
fn set_aside(sure: bool, state: &State, earlier: &mut State)
    ensures { earlier.new ≡ set_aside sure earlier.old state.now }
{
    if sure {
        return;
    }
    *earlier = *state;
}

// The request, and whether it is in time: that need not be asked where it is sure.
fn attempt(
    scheduler: &Scheduler<'_>,
    state: &mut State,
    words: &mut [u32],
    sure: bool,
    q: u32,
) -> bool
    requires asked { Asked (settings_of scheduler.now.settings.now) q }
    requires room { Room state.old words.old 3 }
    ensures words_after { draft state.new words.new ≡ requesting (settings_of scheduler.now.settings.now) q scheduler.now.closed (draft state.old words.old) }
    ensures value { result ≡ (sure || timely (settings_of scheduler.now.settings.now) (draft state.new [])) }
{
    request(scheduler, state, words, q);
    if sure {
        return true;
    }
    in_time(scheduler, &*state)
}

// A refresh behind what stood before.
fn start_again(scheduler: &Scheduler<'_>, state: &mut State, words: &mut [u32], earlier: &State)
    requires { Room earlier.now words.old 2 }
    ensures { draft state.new words.new ≡ refreshing (settings_of scheduler.now.settings.now) (draft earlier.now words.old) }
{
    *state = *earlier;
    refresh(scheduler, state, words);
}

// The request alone, or else, worked out anew, behind a refresh. Far from the ninth refresh owed it is sure to be in time.
// Both tries are one loop, so that the compiler puts the code of a request in place (docs/DECISIONS.md, C19).
pub fn serve(
    scheduler: &Scheduler<'_>,
    state: &mut State,
    words: &mut [u32],
    earlier: &mut State,
    margin: u64,
    q: u32,
) -> Result<(), Late>
    requires asked { Asked (settings_of scheduler.now.settings.now) q }
    requires room { Room state.old words.old 5 }
    requires sure { Sure (settings_of scheduler.now.settings.now) scheduler.now.closed q margin state.old words.old }
    ensures result_value { means result ≡ given 6 (not (kept (settings_of scheduler.now.settings.now) scheduler.now.closed q (draft state.old words.old))) }
    ensures words_after { draft state.new words.new ≡ turned (settings_of scheduler.now.settings.now) scheduler.now.closed q (draft state.old words.old) }
    ensures earlier_after { earlier.new ≡ set_aside (far margin state.old) earlier.old state.old }
{
    let sure = state.free + margin < state.deadlines[OVERDUE];
    set_aside(sure, &*state, earlier);
    'tries: for refreshed in 0u32..2 {
        if attempt(scheduler, state, words, sure, q) {
            return Ok(());
        }
        if refreshed == 1 {
            return Err(Late);
        }
        start_again(scheduler, state, words, &*earlier);
    }
    Err(Late)
}
