// Which rule a command breaks: a comparison for each timed rule, a search for each rule that looks at several banks.
#![tactic(auto)]

ghost use Rattle.std.specs.Prelude.{◌≡◌, cond, ◌+◌, ◌<◌, leb, ltb, eqb};
ghost use Rattle.reading.specs.Mode.{mode_word};
ghost use Rattle.reading.specs.Settings.{settings_of};
ghost use Rattle.reading.specs.Rules.{every_bank};
ghost use Rattle.deadlines.specs.Deadlines as is;
ghost use Rattle.deadlines.specs.Deadlines.{at, rule_unless};
ghost use Rattle.rules.specs.Rule.{number_of, broken, open_kept, burst_breaks};

use deadlines::Deadlines;
use deadlines::banks::{Bank, all_idle};
use deadlines::places::{
    ASLEEP, BUS, BUSY, CLOSE, COLUMN, END, LAST, OPENED, OTHER, OVERDUE, READS, REST, WAKE, WRITER,
    WRITES, WRITTEN,
};
use deadlines::sums::{past, rows};
use settings::Settings;
use settings::places::ROW_BITS;

// A rule of document 01, by its number. No number is left out: the compiler would store a list of them, and `tests/run tables`
// rules out stored lists.
#[derive(Clone, Copy, Debug, PartialEq, Eq)]
pub enum Rule {
    // The part has no such row.
    Row = 1,
    // The word is no mode word.
    ModeWord = 2,
    // The bank is open where it has to be idle, or idle where it has to be open.
    BankState = 3,
    // tRFC or tMRD.
    Busy = 4,
    // tRP.
    Precharge = 5,
    // tRC. It is not asked, and no answer has it (docs/RULES.md).
    RowCycle = 6,
    // tRRD.
    OtherActive = 7,
    // tRCD.
    RowToColumn = 8,
    // tRAS.
    RowHeld = 9,
    // tWR.
    WriteRecovery = 10,
    // tWTR.
    WriteToRead = 11,
    // The data bus.
    Bus = 12,
    // The burst of an auto precharge goes on.
    AutoPrecharge = 13,
    // Nine AUTO REFRESHes are owed.
    Refresh = 14,
    // Asleep, or not yet awake.
    Sleep = 15,
}

impl Rule {
    // Its number in document 01.
    pub fn number(self) -> u32
        ensures { result ≡ number_of self }
    {
        self as u32
    }
}

// Rule 14, or 15 asleep. Awake is asked for itself, so that no branch of `last_breaks` is like another (docs/PERFORMANCE.md).
fn late(d: &Deadlines, t: u32) -> Result<(), Rule>
    ensures { broken result ≡ rule_unless (ltb t (at d.now is.ASLEEP)) 14 15 }
{
    if d[ASLEEP] == 0 {
        return Err(Rule::Refresh);
    }
    if u64::from(t) < d[ASLEEP] {
        return Err(Rule::Sleep);
    }
    Err(Rule::Refresh)
}

fn last_breaks(d: &Deadlines, t: u32) -> Result<(), Rule>
    ensures { broken result ≡ is.last_breaks d.now t }
{
    if d[OVERDUE] <= u64::from(t) {
        return late(d, t);
    }
    if u64::from(t) < d[WAKE] {
        return Err(Rule::Sleep);
    }
    Ok(())
}

// A timed rule: it is broken before a deadline.
fn over(deadline: u64, t: u32, rule: Rule) -> Result<(), Rule>
    ensures { broken result ≡ rule_unless (leb deadline t) (number_of rule) 0 }
{
    if past(deadline, t) {
        return Ok(());
    }
    Err(rule)
}

// The searches: the banks in order, left at the first that breaks the rule. A rule of the project: a labelled search for each
// question about the banks, left from inside with the broken rule.

fn all_rested(d: &Deadlines, t: u32) -> Result<(), Rule>
    ensures { broken result ≡ rule_unless (every_bank (λ i. leb (at d.now (is.REST + i)) t)) 5 0 }
{
    'banks: for i in 0..4 {
        if past(d[REST + i], t) {
            continue 'banks;
        }
        return Err(Rule::Precharge);
    }
    Ok(())
}

fn others_apart(d: &Deadlines, t: u32, b: usize) -> Result<(), Rule>
    ensures { broken result ≡ rule_unless (every_bank (λ i. leb (is.other_bank d.now b i) t)) 7 0 }
{
    'banks: for i in 0..4 {
        if past(d[OTHER + i], t) {
            continue 'banks;
        }
        if i == b {
            continue 'banks;
        }
        return Err(Rule::OtherActive);
    }
    Ok(())
}

// Of the banks that are open, by the deadlines of one kind.
fn open_over(d: &Deadlines, t: u32, first: usize, rule: Rule) -> Result<(), Rule>
    requires { first < 32 }
    ensures { broken result ≡ rule_unless (open_kept d.now t first) (number_of rule) 0 }
{
    'banks: for i in 0..4 {
        if d[OPENED + i] == 0 {
            continue 'banks;
        }
        if past(d[first + i], t) {
            continue 'banks;
        }
        return Err(rule);
    }
    Ok(())
}

// The last write has no auto precharge, and its row was closed since.
fn gone(d: &Deadlines) -> bool
    ensures { result ≡ is.gone d.now }
{
    let writer = d[WRITER];
    if 4 <= writer {
        return false;
    }
    let b = (writer % 4) as usize;
    if d[OPENED + b] == 0 {
        return true;
    }
    d[WRITTEN + b] == 0
}

// The data of the last write have been taken.
fn taken(d: &Deadlines, t: u32) -> bool
    ensures { result ≡ is.taken d.now t }
{
    if d[LAST] <= u64::from(t) + 5 {
        return true;
    }
    gone(d)
}

// The lowest rule that a command breaks, if any. Each reads the deadlines of the banks and the part that it concerns. What is
// alike are lines of a list of rules, written out: each leaves at the first that is broken.

pub fn active_breaks(s: &Settings, d: &Deadlines, t: u32, b: Bank, row: u32) -> Result<(), Rule>
    ensures { broken result ≡ is.active_breaks (settings_of s.now) d.now t b.number row }
{
    if rows(s[ROW_BITS]) <= row {
        return Err(Rule::Row);
    }
    if d[OPENED + b.number] != 0 {
        return Err(Rule::BankState);
    }
    over(d[BUSY], t, Rule::Busy)?;
    over(d[REST + b.number], t, Rule::Precharge)?;
    others_apart(d, t, b.number)?;
    last_breaks(d, t)
}

// READ and WRITE wait for the bus by deadlines of their own.
fn burst_breaks(
    d: &Deadlines,
    t: u32,
    b: Bank,
    bus: usize,
    rule: Rule,
    auto: usize,
) -> Result<(), Rule>
    requires { (bus < 39) × (auto < 39) }
    ensures { broken result ≡ burst_breaks d.now t b.number bus (number_of rule) auto }
{
    if d[OPENED + b.number] == 0 {
        return Err(Rule::BankState);
    }
    over(d[BUSY], t, Rule::Busy)?;
    over(d[COLUMN + b.number], t, Rule::RowToColumn)?;
    over(d[bus], t, rule)?;
    over(d[auto], t, Rule::AutoPrecharge)?;
    last_breaks(d, t)
}

pub fn read_breaks(d: &Deadlines, t: u32, b: Bank) -> Result<(), Rule>
    ensures { broken result ≡ is.read_breaks d.now t b.number }
{
    burst_breaks(d, t, b, END, Rule::WriteToRead, READS)
}

pub fn write_breaks(d: &Deadlines, t: u32, b: Bank) -> Result<(), Rule>
    ensures { broken result ≡ is.write_breaks d.now t b.number }
{
    burst_breaks(d, t, b, BUS, Rule::Bus, WRITES)
}

pub fn terminate_breaks(d: &Deadlines, t: u32) -> Result<(), Rule>
    ensures { broken result ≡ is.terminate_breaks d.now t }
{
    over(d[BUSY], t, Rule::Busy)?;
    over(d[READS], t, Rule::AutoPrecharge)?;
    if !taken(d, t) {
        return Err(Rule::AutoPrecharge);
    }
    last_breaks(d, t)
}

pub fn close_breaks(d: &Deadlines, t: u32, b: Bank) -> Result<(), Rule>
    ensures { broken result ≡ is.close_breaks d.now t b.number }
{
    over(d[BUSY], t, Rule::Busy)?;
    if d[OPENED + b.number] == 0 {
        return last_breaks(d, t);
    }
    over(d[CLOSE + b.number], t, Rule::RowHeld)?;
    over(d[WRITTEN + b.number], t, Rule::WriteRecovery)?;
    last_breaks(d, t)
}

pub fn close_all_breaks(d: &Deadlines, t: u32) -> Result<(), Rule>
    ensures { broken result ≡ is.close_all_breaks d.now t }
{
    over(d[BUSY], t, Rule::Busy)?;
    open_over(d, t, CLOSE, Rule::RowHeld)?;
    open_over(d, t, WRITTEN, Rule::WriteRecovery)?;
    last_breaks(d, t)
}

pub fn refresh_breaks(d: &Deadlines, t: u32) -> Result<(), Rule>
    ensures { broken result ≡ is.refresh_breaks d.now t }
{
    if !all_idle(d) {
        return Err(Rule::BankState);
    }
    over(d[BUSY], t, Rule::Busy)?;
    all_rested(d, t)?;
    over(d[BUS], t, Rule::Bus)?;
    last_breaks(d, t)
}

fn register_fits(b: usize, word: u32) -> bool
    ensures { result ≡ cond (eqb b 0) (mode_word word) (eqb b 2) }
{
    if b == 0 {
        return settings::mode_word(word);
    }
    b == 2
}

pub fn mode_breaks(d: &Deadlines, t: u32, b: usize, word: u32) -> Result<(), Rule>
    ensures { broken result ≡ is.mode_breaks d.now t b word }
{
    if !register_fits(b, word) {
        return Err(Rule::ModeWord);
    }
    refresh_breaks(d, t)
}

// NOP and DESELECT that enter power-down.
pub fn enter_breaks(d: &Deadlines, t: u32) -> Result<(), Rule>
    ensures { broken result ≡ is.enter_breaks d.now t }
{
    if !past(d[BUSY], t) {
        return Err(Rule::Busy);
    }
    if past(d[OVERDUE], t) {
        return Err(Rule::Refresh);
    }
    if !past(d[BUS], t) {
        return Err(Rule::Sleep);
    }
    if !taken(d, t) {
        return Err(Rule::Sleep);
    }
    if !past(d[WAKE], t) {
        return Err(Rule::Sleep);
    }
    Ok(())
}

// AUTO REFRESH that enters self refresh. Inlined early: a self refresh costs an instruction an event more otherwise.
#[inline(always)]
pub fn self_breaks(d: &Deadlines, t: u32) -> Result<(), Rule>
    ensures { broken result ≡ is.self_breaks d.now t }
{
    refresh_breaks(d, t)?;
    if !taken(d, t) {
        return Err(Rule::Sleep);
    }
    Ok(())
}
