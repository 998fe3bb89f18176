// What the judge keeps of a part: its deadlines in a lent array, no rows and no bursts; and the step from event to event.
#![tactic(auto)]

ghost use Rattle.std.specs.Prelude.{◌≡◌, true, cond, ◌≤◌, ◌<◌, eqb};
ghost use Rattle.reading.specs.Settings.{settings_of};
ghost use Rattle.deadlines.specs.Deadlines as is;
ghost use Rattle.pins.specs.Pins.{wide_code_of, bank_of};
ghost use Rattle.steps.specs.Steps.{rule_of, left_by, unless_lower, low_step_after, step_breaks, step_after, pace_after};
ghost use Rattle.rules.specs.Rule.{broken};
ghost use Rattle.part.specs.Means.{means};

use deadlines::banks::Bank;
use deadlines::places::{ASLEEP, OVERDUE};
use deadlines::{Deadlines, Pace};
use rules::Rule;
use settings::Settings;

// The bank that BA0 and BA1 name.
fn bank(w: u32) -> Bank
    ensures { result.number ≡ bank_of w }
{
    Bank {
        number: pins::bank(w),
    }
}

// Each command: the lowest rule that it breaks, if any, and the deadlines after it, which stay as they were where it breaks one.
// Two calls and no frame that is lent both: the calls would stand in it as closures, and each command's clauses would stay. Settings,
// deadlines, pace and cycle come apart, here and in `effects`: the deadlines alone change, and some commands want no others.

fn active(s: &Settings, d: &mut Deadlines, t: u32, b: Bank, row: u32) -> Result<(), Rule>
    ensures value { broken result ≡ is.active_breaks (settings_of s.now) d.old t b.number row }
    ensures d_after { d.new ≡ left_by (is.active_breaks (settings_of s.now) d.old t b.number row)
        (is.active_after (settings_of s.now) d.old t b.number) d.old }
{
    rules::active_breaks(s, &*d, t, b, row)?;
    effects::active_after(s, d, t, b);
    Ok(())
}

fn read(
    s: &Settings,
    d: &mut Deadlines,
    pace: &Pace,
    t: u32,
    b: Bank,
    auto: bool,
) -> Result<(), Rule>
    ensures value { broken result ≡ is.read_breaks d.old t b.number }
    ensures d_after { d.new ≡ left_by (is.read_breaks d.old t b.number)
        (is.read_after (settings_of s.now) d.old pace.now t b.number auto) d.old }
{
    rules::read_breaks(&*d, t, b)?;
    effects::read_after(s, d, pace, t, b, auto);
    Ok(())
}

fn write(
    s: &Settings,
    d: &mut Deadlines,
    pace: &Pace,
    t: u32,
    b: Bank,
    auto: bool,
) -> Result<(), Rule>
    ensures value { broken result ≡ is.write_breaks d.old t b.number }
    ensures d_after { d.new ≡ left_by (is.write_breaks d.old t b.number)
        (is.write_after (settings_of s.now) d.old pace.now t b.number auto) d.old }
{
    rules::write_breaks(&*d, t, b)?;
    effects::write_after(s, d, pace, t, b, auto);
    Ok(())
}

fn close_all(s: &Settings, d: &mut Deadlines, pace: &Pace, t: u32) -> Result<(), Rule>
    ensures value { broken result ≡ is.close_all_breaks d.old t }
    ensures d_after { d.new ≡ left_by (is.close_all_breaks d.old t)
        (is.close_all_after (settings_of s.now) d.old pace.now t) d.old }
{
    rules::close_all_breaks(&*d, t)?;
    effects::close_all_after(s, d, pace, t);
    Ok(())
}

// Inlined early: random commands cost half an instruction an event more otherwise.
#[inline(always)]
fn close(s: &Settings, d: &mut Deadlines, pace: &Pace, t: u32, b: Bank) -> Result<(), Rule>
    ensures value { broken result ≡ is.close_breaks d.old t b.number }
    ensures d_after { d.new ≡ left_by (is.close_breaks d.old t b.number)
        (is.close_after (settings_of s.now) d.old pace.now t b.number) d.old }
{
    rules::close_breaks(&*d, t, b)?;
    effects::close_after(s, d, pace, t, b);
    Ok(())
}

fn terminate(d: &mut Deadlines, pace: &Pace, t: u32) -> Result<(), Rule>
    ensures value { broken result ≡ is.terminate_breaks d.old t }
    ensures d_after { d.new ≡ left_by (is.terminate_breaks d.old t)
        (is.cut_read d.old pace.now t true) d.old }
{
    rules::terminate_breaks(&*d, t)?;
    effects::cut_read(d, pace, t, true);
    Ok(())
}

fn refresh(s: &Settings, d: &mut Deadlines, t: u32) -> Result<(), Rule>
    ensures value { broken result ≡ is.refresh_breaks d.old t }
    ensures d_after { d.new ≡ left_by (is.refresh_breaks d.old t)
        (is.refresh_after (settings_of s.now) d.old t) d.old }
{
    rules::refresh_breaks(&*d, t)?;
    effects::refresh_after(s, d, t);
    Ok(())
}

fn set_register(pace: &mut Pace, b: usize, word: u32)
    ensures { pace.new ≡ cond (eqb b 0) (is.pace_of word) pace.old }
{
    if b == 0 {
        *pace = deadlines::sums::pace(word);
    }
}

fn mode_set(
    s: &Settings,
    d: &mut Deadlines,
    pace: &mut Pace,
    t: u32,
    b: usize,
    word: u32,
) -> Result<(), Rule>
    ensures value { broken result ≡ is.mode_breaks d.old t b word }
    ensures d_after { d.new ≡ left_by (is.mode_breaks d.old t b word)
        (is.mode_set_after (settings_of s.now) d.old t) d.old }
    ensures pace_after { pace.new ≡ left_by (is.mode_breaks d.old t b word)
        (cond (eqb b 0) (is.pace_of word) pace.old) pace.old }
{
    rules::mode_breaks(&*d, t, b, word)?;
    effects::mode_set_after(s, d, t);
    set_register(pace, b, word);
    Ok(())
}

// NOP and DESELECT; asleep they leave it.
fn quiet(s: &Settings, d: &mut Deadlines, t: u32) -> Result<(), Rule>
    ensures value { broken result ≡ is.quiet_breaks d.old t }
    ensures d_after { d.new ≡ left_by (is.quiet_breaks d.old t)
        (is.quiet_after (settings_of s.now) d.old t) d.old }
{
    if u64::from(t) < d[OVERDUE] {
        return Ok(());
    }
    if u64::from(t) < d[ASLEEP] {
        effects::leave_after(s, d, t);
        return Ok(());
    }
    Err(Rule::Refresh)
}

// With CKE low: NOP and DESELECT, which enter power-down or stay asleep; AUTO REFRESH, which enters self refresh; and every
// other command, which breaks a rule, if not a lower one then rule 15.

fn enter(d: &mut Deadlines, t: u32) -> Result<(), Rule>
    ensures value { broken result ≡ is.enter_breaks d.old t }
    ensures d_after { d.new ≡ left_by (is.enter_breaks d.old t)
        (is.enter_after d.old) d.old }
{
    rules::enter_breaks(&*d, t)?;
    effects::enter_after(d);
    Ok(())
}

fn quiet_low(d: &mut Deadlines, t: u32) -> Result<(), Rule>
    ensures value { broken result ≡ is.low_breaks d.old t }
    ensures d_after { d.new ≡ left_by (is.low_breaks d.old t)
        (is.low_after d.old t) d.old }
{
    if u64::from(t) < d[ASLEEP] {
        return Ok(());
    }
    if d[OVERDUE] == 0 {
        return Err(Rule::Refresh);
    }
    enter(d, t)
}

fn refresh_low(d: &mut Deadlines, t: u32) -> Result<(), Rule>
    ensures value { broken result ≡ is.self_breaks d.old t }
    ensures d_after { d.new ≡ left_by (is.self_breaks d.old t)
        (is.self_after d.old) d.old }
{
    rules::self_breaks(&*d, t)?;
    effects::self_after(d);
    Ok(())
}

// A command that may not come.
fn barred(answer: Result<(), Rule>) -> Result<(), Rule>
    ensures { broken result ≡ unless_lower (broken answer) }
{
    answer?;
    Err(Rule::Sleep)
}

fn low(s: &Settings, d: &mut Deadlines, t: u32, code: u32, w: u32) -> Result<(), Rule>
    requires code_value { code ≡ wide_code_of w }
    requires le_code { 16 ≤ code }
    ensures value { broken result ≡ step_breaks (settings_of s.now) d.old t w }
    ensures d_after { d.new ≡ left_by (step_breaks (settings_of s.now) d.old t w)
        (low_step_after d.old t w) d.old }
{
    match code {
        pins::NOP_LOW => quiet_low(d, t),
        17 | 19 | 21 | 23 | 25 | 27 | 29 => quiet_low(d, t),
        pins::REFRESH_LOW => refresh_low(d, t),
        pins::ACTIVE_LOW => barred(rules::active_breaks(s, &*d, t, bank(w), pins::address(w))),
        pins::READ_LOW => barred(rules::read_breaks(&*d, t, bank(w))),
        pins::WRITE_LOW => barred(rules::write_breaks(&*d, t, bank(w))),
        pins::PRECHARGE_LOW => {
            if pins::ten(w) {
                return barred(rules::close_all_breaks(&*d, t));
            }
            barred(rules::close_breaks(&*d, t, bank(w)))
        }
        pins::TERMINATE_LOW => barred(rules::terminate_breaks(&*d, t)),
        pins::MODE_SET_LOW => barred(rules::mode_breaks(&*d, t, pins::bank(w), pins::address(w))),
        _ => quiet_low(d, t),
    }
}

// By the five pins that tell what an event asks. Every number that they can be stands in an arm of its own, but 31, so that
// the compiler needs no test before it jumps. Each arm takes its answer apart: where the match hands the answers on, the
// compiler joins them before it looks at one, and a NOP costs 22 instructions in place of 18.
fn command(s: &Settings, d: &mut Deadlines, pace: &mut Pace, t: u32, w: u32) -> Result<(), Rule>
    ensures value { broken result ≡ step_breaks (settings_of s.now) d.old t w }
    ensures d_after { d.new ≡ left_by (step_breaks (settings_of s.now) d.old t w)
        (step_after (settings_of s.now) d.old pace.old t w) d.old }
    ensures pace_after { pace.new ≡ left_by (step_breaks (settings_of s.now) d.old t w)
        (pace_after pace.old w) pace.old }
{
    let code = pins::wide_code(w);
    match code {
        pins::ACTIVE => active(s, d, t, bank(w), pins::address(w))?,
        pins::READ => read(s, d, &*pace, t, bank(w), pins::ten(w))?,
        pins::WRITE => write(s, d, &*pace, t, bank(w), pins::ten(w))?,
        pins::PRECHARGE => {
            if pins::ten(w) {
                close_all(s, d, &*pace, t)?;
            } else {
                close(s, d, &*pace, t, bank(w))?;
            }
        }
        pins::TERMINATE => terminate(d, &*pace, t)?,
        pins::REFRESH => refresh(s, d, t)?,
        pins::MODE_SET => mode_set(s, d, pace, t, pins::bank(w), pins::address(w))?,
        pins::NOP => quiet(s, d, t)?,
        1 | 3 | 5 | 7 | 9 | 11 | 13 | 15 => quiet(s, d, t)?,
        _ => low(s, d, t, code, w)?,
    }
    Ok(())
}

// One event: the lowest rule that it breaks by the deadlines kept of the events before it, if any, and the deadlines with it. An
// event that breaks a rule leaves them as they were.
pub fn step(s: &Settings, d: &mut Deadlines, pace: &mut Pace, t: u32, w: u32) -> Result<(), Rule>
    ensures result_value { means result ≡ rule_of (step_breaks (settings_of s.now) d.old t w) }
    ensures d_after { d.new ≡ left_by (step_breaks (settings_of s.now) d.old t w)
        (step_after (settings_of s.now) d.old pace.old t w) d.old }
    ensures pace_after { pace.new ≡ left_by (step_breaks (settings_of s.now) d.old t w)
        (pace_after pace.old w) pace.old }
{
    command(s, d, pace, t, w)
}
