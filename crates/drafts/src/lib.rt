// One command of a schedule: its cycle, what it makes of where the schedule stands, and its words behind those of the events
// before it.
#![tactic(auto)]

ghost use Rattle.std.specs.Prelude.{◌≡◌, [], ◌∷◌, ◌+◌, ◌*◌, ◌<◌, set};
ghost use Rattle.std.proofs.lemmas.List.Edits.{sets};
ghost use Rattle.reading.specs.Settings.{settings_of};
ghost use Rattle.deadlines.specs.Deadlines.{pace_of};
ghost use Rattle.plan.specs.Behind as is;
ghost use Rattle.plan.specs.Draft.{cycle_for, end_of, burst_after, burst_ends, activating, closing_bank, bursting, closing_all, refreshing_idle};
ghost use Rattle.soonest.specs.Standing.{standing};
ghost use Rattle.drafts.specs.Room.{Room, draft};

use deadlines::Pace;
use deadlines::banks::Bank;
use deadlines::places::PAIRS;
use deadlines::sums::{after, latest};
use requests::{BankRow, CLOSE_ALL_PINS, REFRESH_PINS};
use settings::Settings;
use soonest::State;

// What is the same for every command: the settings, h and CL of their mode word, and whether rows are closed behind each burst.
#[derive(Clone, Copy)]
pub struct Scheduler<'a> {
    pub settings: &'a Settings,
    pub pace: Pace,
    pub closed: bool,
    pub ghost paced: { pace ≡ pace_of (settings_of settings.now).mode },
}

// The cycle of a command: the first that is free and not before its deadlines.
pub fn cycle_for(free: u64, soonest: u64) -> u32
    ensures { result ≡ cycle_for free soonest }
{
    (latest(free, soonest) % 4_294_967_296) as u32
}

// An event behind the others.
fn note(state: &mut State, words: &mut [u32], t: u32, pins: u32)
    requires { Room state.old words.old 1 }
    ensures same_deadlines { state.new.deadlines ≡ state.old.deadlines }
    ensures standing_after { standing state.new ≡ set (set (standing state.old) is.FREE (t + 1)) is.EVENTS (state.old.events + 1) }
    ensures words_after { words.new ≡ sets words.old (2 * state.old.events) (t ∷ pins ∷ []) }
{
    let i = 2 * state.events;
    words[i] = t;
    words[i + 1] = pins;
    state.free = after(t, 1);
    state.events += 1;
}

impl Scheduler<'_> {
    // ACTIVE of a row, whose bank is idle.
    pub fn activate(&self, state: &mut State, words: &mut [u32], row: BankRow)
        requires { Room state.old words.old 1 }
        ensures { draft state.new words.new ≡ activating (settings_of self.now.settings.now) row.bank.number row.number (draft state.old words.old) }
    {
        let b = row.bank;
        let t = cycle_for(state.free, soonest::active(&state.deadlines, b));
        effects::active_after(self.settings, &mut state.deadlines, t, b);
        state.rows[b.number] = u64::from(row.number);
        note(state, words, t, requests::active_pins(row));
    }

    // PRECHARGE of bank b, which is open.
    pub fn close(&self, state: &mut State, words: &mut [u32], b: Bank)
        requires { Room state.old words.old 1 }
        ensures { draft state.new words.new ≡ closing_bank (settings_of self.now.settings.now) b.number (draft state.old words.old) }
    {
        let t = cycle_for(state.free, soonest::close(&*state, b));
        effects::close_after(self.settings, &mut state.deadlines, &self.pace, t, b);
        note(state, words, t, requests::close_pins(b));
    }

    // Until when a burst at t can be cut: not at all with auto precharge.
    fn end_of(&self, t: u32) -> u64
        ensures { result ≡ end_of self.now.closed (settings_of self.now.settings.now) t }
    {
        if self.closed {
            return 0;
        }
        after(t, self.pace[PAIRS])
    }

    // What a burst at t makes of the deadlines, and until when it can be cut.
    fn give(&self, state: &mut State, write: bool, t: u32, b: Bank)
        ensures deadlines_after { state.new.deadlines ≡ burst_after self.now.closed write (settings_of self.now.settings.now) state.old.deadlines t b.number }
        ensures standing_after { standing state.new ≡ burst_ends self.now.closed write (settings_of self.now.settings.now) (standing state.old) t }
        ensures same_events { state.new.events ≡ state.old.events }
    {
        let end = self.end_of(t);
        let d = &mut state.deadlines;
        if write {
            effects::write_after(self.settings, d, &self.pace, t, b, self.closed);
            state.write_end = end;
            return;
        }
        effects::read_after(self.settings, d, &self.pace, t, b, self.closed);
        state.read_end = end;
    }

    // READ or WRITE of bank b, which is open.
    pub fn burst(&self, state: &mut State, words: &mut [u32], write: bool, b: Bank, pins: u32)
        requires { Room state.old words.old 1 }
        ensures { draft state.new words.new ≡ bursting (settings_of self.now.settings.now) self.now.closed write b.number pins (draft state.old words.old) }
    {
        let t = cycle_for(state.free, soonest::burst(write, &*state, b));
        self.give(state, write, t, b);
        note(state, words, t, pins);
    }

    // PRECHARGE of all banks.
    pub fn close_all(&self, state: &mut State, words: &mut [u32])
        requires { Room state.old words.old 1 }
        ensures { draft state.new words.new ≡ closing_all (settings_of self.now.settings.now) (draft state.old words.old) }
    {
        let t = cycle_for(state.free, soonest::close_all(&*state));
        effects::close_all_after(self.settings, &mut state.deadlines, &self.pace, t);
        note(state, words, t, CLOSE_ALL_PINS);
    }

    // AUTO REFRESH, with all banks idle.
    pub fn refresh(&self, state: &mut State, words: &mut [u32])
        requires { Room state.old words.old 1 }
        ensures { draft state.new words.new ≡ refreshing_idle (settings_of self.now.settings.now) (draft state.old words.old) }
    {
        let t = cycle_for(state.free, soonest::refresh(&state.deadlines));
        effects::refresh_after(self.settings, &mut state.deadlines, t);
        note(state, words, t, REFRESH_PINS);
    }
}
