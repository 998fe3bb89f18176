// What a command makes of the deadlines.
#![tactic(auto)]

ghost use Rattle.std.specs.Prelude.{◌≡◌, ◌+◌};
ghost use Rattle.reading.specs.Settings.{settings_of};
ghost use Rattle.deadlines.specs.Deadlines as is;

use deadlines::banks::Bank;
use deadlines::places::{
    ASLEEP, BUS, BUSY, CLOSE, COLUMN, END, LAST, LATENCY, LOCKED, OPENED, OTHER, OVERDUE, PAIRS,
    READS, REST, SELF, WAKE, WRITER, WRITES, WRITTEN,
};
use deadlines::sums::{after, after2, data_after, data_after2, latest, least, pick};
use deadlines::{Deadlines, KEPT, Pace, clock};
use settings::Settings;
use settings::places::{
    EDITION, T_MRD, T_RAS, T_RCD, T_RFC, T_RP, T_RRD, T_WR, T_WTR, T_XP, T_XSR,
};

#[tactic(auto, unfolding(deadlines::specs::Deadlines::active_after))]
pub fn active_after(s: &Settings, d: &mut Deadlines, t: u32, b: Bank)
    ensures { d.new ≡ is.active_after (settings_of s.now) d.old t b.number }
{
    d[OPENED + b.number] = 1;
    d[OTHER + b.number] = after(t, s[T_RRD]);
    d[COLUMN + b.number] = after(t, s[T_RCD]);
    d[CLOSE + b.number] = after(t, s[T_RAS]);
    d[WRITTEN + b.number] = 0;
    d[LOCKED + b.number] = after2(t, s[T_RAS], s[T_RP]);
}

// The bank of a burst with auto precharge is idle, and is let open again from a cycle on that is at least `from`.
#[tactic(auto, unfolding(deadlines::specs::Deadlines::auto_after))]
fn auto_after(d: &mut Deadlines, b: Bank, from: u64)
    ensures { d.new ≡ is.auto_after d.old b.number from }
{
    d[OPENED + b.number] = 0;
    d[REST + b.number] = latest(d[LOCKED + b.number], from);
}

pub fn read_after(s: &Settings, d: &mut Deadlines, pace: &Pace, t: u32, b: Bank, auto: bool)
    ensures { d.new ≡ is.read_after (settings_of s.now) d.old pace.now t b.number auto }
{
    let pairs = pace[PAIRS];
    d[BUS] = after2(t, pace[LATENCY], pairs);
    if auto {
        d[LAST] = 4;
        d[READS] = after(t, pairs);
        auto_after(d, b, after2(t, pairs, s[T_RP]));
        return;
    }
    // A cast, here and below: u64 has no From of usize.
    d[LAST] = b.number as u64;
}

// A write to bank b cuts the last one; where that is of the same bank, its deadline is about to be overwritten.
fn cut_write(s: &Settings, d: &mut Deadlines, t: u32, b: usize)
    ensures { d.new ≡ is.cut_other (settings_of s.now) d.old t b }
{
    let o = (d[WRITER] % 4) as usize;
    if o == b {
        return;
    }
    d[WRITTEN + o] = least(d[WRITTEN + o], data_after(t, 0, s[T_WR]));
}

#[tactic(auto, unfolding(deadlines::specs::Deadlines::new_write))]
fn new_write(s: &Settings, d: &mut Deadlines, t: u32, pairs: u32, b: Bank)
    ensures { d.new ≡ is.new_write (settings_of s.now) d.old t pairs b.number }
{
    d[WRITTEN + b.number] = data_after(t, pairs, s[T_WR]);
    d[END] = data_after(t, pairs, s[T_WTR]);
    d[LAST] = data_after(t, pairs, 5);
}

// A write without auto precharge; in the newer edition rules 10 and 11 count from its first pair.
fn plain_write(s: &Settings, d: &mut Deadlines, t: u32, b: Bank)
    ensures { d.new ≡ is.plain_write (settings_of s.now) d.old t b.number }
{
    d[WRITER] = b.number as u64;
    if s[EDITION] != 1 {
        return;
    }
    d[WRITTEN + b.number] = after2(t, 2, s[T_WR]);
    d[END] = after2(t, 2, s[T_WTR]);
}

#[tactic(auto, unfolding(deadlines::specs::Deadlines::auto_write))]
fn auto_write(s: &Settings, d: &mut Deadlines, t: u32, pairs: u32, b: Bank)
    ensures { d.new ≡ is.auto_write (settings_of s.now) d.old t pairs b.number }
{
    d[WRITES] = after(t, pairs);
    d[WRITER] = (b.number as u64) + 4;
    auto_after(d, b, data_after2(t, pairs, s[T_WR], s[T_RP]));
}

pub fn write_after(s: &Settings, d: &mut Deadlines, pace: &Pace, t: u32, b: Bank, auto: bool)
    ensures { d.new ≡ is.write_after (settings_of s.now) d.old pace.now t b.number auto }
{
    let pairs = pace[PAIRS];
    cut_write(s, d, t, b.number);
    new_write(s, d, t, pairs, b);
    if auto {
        auto_write(s, d, t, pairs, b);
        return;
    }
    plain_write(s, d, t, b);
}

#[tactic(auto, unfolding(deadlines::specs::Deadlines::cut_read))]
pub fn cut_read(d: &mut Deadlines, pace: &Pace, t: u32, cut: bool)
    ensures { d.new ≡ is.cut_read d.old pace.now t cut }
{
    d[BUS] = pick(cut, least(d[BUS], after(t, pace[LATENCY])), d[BUS]);
}

#[tactic(auto, unfolding(deadlines::specs::Deadlines::rest_after))]
fn rest_after(d: &mut Deadlines, b: Bank, from: u64)
    ensures { d.new ≡ is.rest_after d.old b.number from }
{
    d[REST + b.number] = pick(d[OPENED + b.number] == 0, d[REST + b.number], from);
    d[OPENED + b.number] = 0;
}

#[tactic(auto, unfolding(deadlines::specs::Deadlines::close_after))]
pub fn close_after(s: &Settings, d: &mut Deadlines, pace: &Pace, t: u32, b: Bank)
    ensures { d.new ≡ is.close_after (settings_of s.now) d.old pace.now t b.number }
{
    rest_after(d, b, after(t, s[T_RP]));
    let cut = d[LAST] == b.number as u64;
    cut_read(d, pace, t, cut);
}

// Banks go by number, which says where their deadlines stand.
fn rest_all(d: &mut Deadlines, from: u64)
    ensures { d.new ≡ is.rest_all d.old from }
{
    'banks: for b in 0..4 {
        rest_after(d, Bank { number: b }, from);
    }
}

#[tactic(auto, unfolding(deadlines::specs::Deadlines::close_all_after))]
pub fn close_all_after(s: &Settings, d: &mut Deadlines, pace: &Pace, t: u32)
    ensures { d.new ≡ is.close_all_after (settings_of s.now) d.old pace.now t }
{
    rest_all(d, after(t, s[T_RP]));
    let cut = d[LAST] < 4;
    cut_read(d, pace, t, cut);
}

#[tactic(auto, unfolding(deadlines::specs::Deadlines::refresh_after))]
pub fn refresh_after(s: &Settings, d: &mut Deadlines, t: u32)
    ensures { d.new ≡ is.refresh_after (settings_of s.now) d.old t }
{
    d[BUSY] = after(t, s[T_RFC]);
    d[OVERDUE] = clock::overdue_after(s, t, d[OVERDUE]);
}

#[tactic(auto, unfolding(deadlines::specs::Deadlines::mode_set_after))]
pub fn mode_set_after(s: &Settings, d: &mut Deadlines, t: u32)
    ensures { d.new ≡ is.mode_set_after (settings_of s.now) d.old t }
{
    d[BUSY] = after(t, s[T_MRD]);
}

// Power-down: the refresh clock runs on.
#[tactic(auto, unfolding(deadlines::specs::Deadlines::enter_after))]
pub fn enter_after(d: &mut Deadlines)
    ensures { d.new ≡ is.enter_after d.old }
{
    d[ASLEEP] = d[OVERDUE];
    d[OVERDUE] = 0;
    d[WAKE] = 0;
}

// Self refresh: it stands still.
#[tactic(auto, unfolding(deadlines::specs::Deadlines::self_after))]
pub fn self_after(d: &mut Deadlines)
    ensures { d.new ≡ is.self_after d.old }
{
    d[ASLEEP] = clock::FAR;
    d[OVERDUE] = 0;
    d[WAKE] = 0;
    d[SELF] = 1;
}

#[tactic(auto, unfolding(deadlines::specs::Deadlines::power_up_after))]
fn power_up_after(s: &Settings, d: &mut Deadlines, t: u32)
    ensures { d.new ≡ is.power_up_after (settings_of s.now) d.old t }
{
    d[OVERDUE] = d[ASLEEP];
    d[WAKE] = after(t, s[T_XP]);
    d[ASLEEP] = 0;
}

#[tactic(auto, unfolding(deadlines::specs::Deadlines::wake_after))]
fn wake_after(s: &Settings, d: &mut Deadlines, t: u32)
    ensures { d.new ≡ is.wake_after (settings_of s.now) d.old t }
{
    d[OVERDUE] = clock::overdue_from(s, t);
    d[WAKE] = after(t, s[T_XSR]);
    d[ASLEEP] = 0;
    d[SELF] = 0;
}

pub fn leave_after(s: &Settings, d: &mut Deadlines, t: u32)
    ensures { d.new ≡ is.leave_after (settings_of s.now) d.old t }
{
    if d[SELF] == 0 {
        power_up_after(s, d, t);
        return;
    }
    wake_after(s, d, t);
}

// The deadlines of a part at the start: nothing has happened, and nine AUTO REFRESHes are owed after nine times tREFI.
#[tactic(auto, unfolding(deadlines::specs::Deadlines::start_of))]
pub fn start(s: &Settings) -> Deadlines
    ensures { result ≡ is.start_of (settings_of s.now) }
{
    let mut d = [0u64; KEPT];
    d[OVERDUE] = clock::overdue_from(s, 0);
    d[LAST] = 4;
    let locked = after(s[T_RAS], s[T_RP]);
    d[LOCKED..LOCKED + 4].fill(locked);
    d
}
