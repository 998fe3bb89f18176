// The judge: refused by document 01's table, or judged event by event until one breaks a rule.
#![tactic(auto)]

ghost use Rattle.std.specs.Prelude.{◌≡◌, IfOk};
ghost use Rattle.reading.specs.Settings.{settings_of};
ghost use Rattle.reading.specs.Answers.{answered, accepted_to, judge_answer_to, judge_answer};
ghost use Rattle.refusal.specs.Refusal.{told, passed};
ghost use Rattle.capture.specs.Holding.{Holds};
ghost use Rattle.judge.specs.Meaning.{report_of, Fit, Started, report_on, deadlines_on, pace_on};

use capture::held::Opened;
use deadlines::{Deadlines, Pace, sums};
use refusal::Refusal;
use rules::Rule;
use settings::Settings;
use settings::places::MODE;

// What is said of the events of an accepted capture.
#[derive(Clone, Copy)]
pub enum Verdict {
    Clean {
        events: u32,
        judged: u32,
    },
    Broken {
        events: u32,
        judged: u32,
        rule: Rule,
        event: u32,
        cycle: u32,
    },
}

// The events in the part of the capture that starts where they do, by the numbers that are kept of a part at its start, and
// those of the part after the judged events in their place. They are lent, and two crates call this, so that it stays one
// loop over memory (docs/PERFORMANCE.md). A rule of the project: the walker is given the bytes from the events on, goes by index
// from zero, and takes the step's answer apart by let .. else.
pub fn walk(s: &Settings, d: &mut Deadlines, pace: &mut Pace, bytes: &[u8], n: u32) -> Verdict
    requires fit { Fit s.now bytes.now n }
    requires started { Started (settings_of s.now) d.old pace.old }
    ensures value { report_of result ≡ report_on (settings_of s.now) bytes.now n }
    ensures d_after { d.new ≡ deadlines_on (settings_of s.now) bytes.now n }
    ensures pace_after { pace.new ≡ pace_on (settings_of s.now) bytes.now n }
{
    let mut i: u32 = 0;
    'events: while i < n {
        let at = i as usize;
        let cycle = capture::cycle_at(bytes, at);
        let pins = capture::pins_at(bytes, at);
        let Err(rule) = part::step(s, d, pace, cycle, pins) else {
            i += 1;
            continue 'events;
        };
        return Verdict::Broken {
            events: n,
            judged: i,
            rule,
            event: i,
            cycle,
        };
    }
    Verdict::Clean {
        events: n,
        judged: n,
    }
}

// Refusals 1 to 4, else what the capture holds. Out of `judge_to`, so that what opening needs is gone before the walk begins.
#[inline(never)]
fn accepted<'a>(capture: &'a [u8], most: u32) -> Result<Opened<'a>, Refusal>
    ensures answer { passed result ≡ accepted_to most capture.now (answered tt) }
    ensures holds { IfOk result (Holds capture.now) }
{
    capture::open_to(capture, most)
}

// What is said of the events of an accepted capture. Out of `judge_to`, whose frame has the capture that was opened.
#[inline(never)]
fn judged(opened: &Opened<'_>) -> Verdict
    requires { Fit opened.now.settings opened.now.events.bytes.now opened.now.events.count }
    ensures { report_of result ≡
        report_on (settings_of opened.now.settings) opened.now.events.bytes.now opened.now.events.count }
{
    let settings = &opened.settings;
    let mut deadlines = effects::start(settings);
    let mut pace = sums::pace(settings[MODE]);
    let (bytes, n) = (opened.events.bytes, opened.events.count);
    walk(settings, &mut deadlines, &mut pace, bytes, n)
}

// What is said of these bytes where there may be so many events.
pub fn judge_to(capture: &[u8], most: u32) -> Result<Verdict, Refusal>
    ensures { told report_of result ≡ judge_answer_to most capture.now }
{
    let opened = accepted(capture, most)?;
    Ok(judged(&opened))
}

// What document 01 says of them as a capture.
pub fn judge(capture: &[u8]) -> Result<Verdict, Refusal>
    ensures { told report_of result ≡ judge_answer capture.now }
{
    judge_to(capture, capture::MOST_EVENTS)
}
