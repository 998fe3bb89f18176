// The fixed schedule of a list of requests, with rows left open or closed, written as a whole capture.
#![tactic(auto)]

ghost use Rattle.std.specs.Prelude.{◌≡◌, length};
ghost use Rattle.reading.specs.Settings.{settings_count, settings_of};
ghost use Rattle.reading.specs.Rules.{placing};
ghost use Rattle.reading.specs.Schedule.{schedule_by};
ghost use Rattle.reading.specs.Answers.{schedule_outcome};
ghost use Rattle.settings.specs.Meaning.{padded};
ghost use Rattle.refusal.specs.Refusal.{told};
ghost use Rattle.schedule.specs.Meaning.{plan_answer, Noted, Plannable, Writable, written, writing};

use capture::front;
use deadlines::sums;
use drafts::Scheduler;
use refusal::Refusal;
use settings::places::MODE;
use settings::{COUNT, HELD, Settings};
use soonest::State;

// Rows are left open, or closed behind each burst.
pub const OPEN_ROWS: u32 = 0;

pub const CLOSED_ROWS: u32 = 1;

// Document 01 has at most 2,000 requests, and a schedule four events per request, of two words each. A turn asks for room
// for one more: it does not know that behind a refresh no row is open.
const WORDS: usize = 16_002;

// The edition that schedules keep to.
const OLD_EDITION: u32 = 0;

// All settings, of the fourteen words that a schedule takes; those of sleep are 0, and so is the edition. Word by word: the
// library's copy would make the smallest build want `memcpy`, which the header rules out.
fn fourteen(settings: &[u32]) -> Settings
    requires { length settings.now ≡ settings_count }
    ensures { result ≡ padded settings.now }
{
    let mut s = [0u32; HELD];
    'settings: for (i, word) in settings.iter().enumerate() {
        s[i] = *word;
    }
    s
}

// Request after request, until refresh cannot be kept. The words of the events stand from the front on.
fn plan(s: &Settings, requests: &[u32], closed: bool, words: &mut [u32]) -> Result<u32, Refusal>
    requires { Plannable s.now requests.now words.old }
    ensures result_value { told (λ n. n) result ≡ plan_answer (schedule_by placing (settings_of s.now) closed requests.now) }
    ensures noted { Noted (schedule_by placing (settings_of s.now) closed requests.now) words.new }
{
    let scheduler = Scheduler {
        settings: s,
        pace: sums::pace(s[MODE]),
        closed,
    };
    let margin = serving::margin(&scheduler);
    let mut state = State {
        deadlines: effects::start(s),
        rows: [0; 4],
        read_end: 0,
        write_end: 0,
        free: 0,
        events: 0,
    };
    // Room for what a turn sets aside.
    let mut earlier = state;
    'requests: for (i, q) in requests.iter().enumerate() {
        let turn = serving::serve(&scheduler, &mut state, words, &mut earlier, margin, *q);
        let Ok(()) = turn else {
            return Err(Refusal::Late(i as u32));
        };
    }
    Ok(state.events as u32)
}

// The capture of n events, if the buffer holds it. Beside their words stands the count: a slice of words alone would have to be of
// even length, and be halved.
fn write(settings: &[u32], list: &[u32], n: u32, out: &mut [u8]) -> Result<u32, Refusal>
    requires { Writable settings.now list.now n }
    ensures value { result ≡ written out.old n }
    ensures out_after { out.new ≡ writing settings.now list.now n out.old }
{
    let bytes = front::size(n);
    if out.len() < bytes as usize {
        return Err(Refusal::Room(bytes));
    }
    front::put(settings, OLD_EDITION, n, out);
    words::put_words(out, capture::EVENTS, &list[..2 * (n as usize)]);
    Ok(bytes)
}

// What document 01 says of these settings, requests and row policy, and the schedule in the buffer; bytes behind it stay. The
// policy is a number, as C gives it.
pub fn schedule(
    settings: &[u32],
    requests: &[u32],
    policy: u32,
    out: &mut [u8],
) -> Result<u32, Refusal>
    ensures result_value { told (λ n. n) result ≡ (schedule_outcome settings.now requests.now policy out.old).answer }
    ensures out_after { out.new ≡ (schedule_outcome settings.now requests.now policy out.old).buffer }
{
    settings::check(settings)?;
    if CLOSED_ROWS < policy {
        return Err(Refusal::Policy);
    }
    let s = fourteen(settings);
    if let Some(i) = requests::lowest_bad(&s, requests) {
        return Err(Refusal::Request(i));
    }
    // Any word would do: none is read before it is noted.
    let mut list = [0u32; WORDS];
    let n = plan(&s, requests, policy == CLOSED_ROWS, &mut list)?;
    write(settings, &list, n, out)
}
