// A capture in bytes: whether it is accepted, and its settings and events.
#![tactic(auto)]

pub mod front;
pub mod held;

ghost use Rattle.std.specs.Prelude.{◌≡◌, true, not, ◌+◌, ◌*◌, ◌^◌, ◌≤◌, ◌<◌, length, eqb, IfOk};
ghost use Rattle.std.proofs.Math.Option.{none};
ghost use Rattle.words.specs.Found.{place_of};
ghost use Rattle.reading.specs.Settings.{sleeping_count};
ghost use Rattle.reading.specs.Capture.{header_word, count_in, events_start, pin_limit, event_count, edition_in, setting_words, event_bytes, event_at, length_fits_to, header_fits_to, bad_event};
ghost use Rattle.reading.specs.Answers.{answered, accepted_to, accepted};
ghost use Rattle.refusal.specs.Refusal.{passed};
ghost use Rattle.settings.specs.Meaning.{padded, held};
ghost use Rattle.capture.specs.Meaning.{fits_from};
ghost use Rattle.capture.specs.Holding.{Holds};

use held::{Events, Opened};
use refusal::Refusal;
use settings::places::EDITION;
use settings::{COUNT, HELD, SLEEPING, Settings};
use words::both;

// How many settings a capture states, without sleep and with it.
const COUNT_STATED: u32 = COUNT as u32;

const SLEEPING_STATED: u32 = SLEEPING as u32;

// Where the settings start.
pub const SETTINGS: usize = 24;

// Where the events of a capture without sleep start, and of one with sleep.
pub const EVENTS: usize = SETTINGS + 4 * COUNT;

const SLEEPING_EVENTS: usize = SETTINGS + 4 * SLEEPING;

// How many events a capture may have.
pub const MOST_EVENTS: u32 = 8_000;

// A recording, as many as a word can count.
pub const MOST_RECORDED: u32 = 4_294_967_295;

// The bytes of the longest capture.
pub const MOST: usize = SLEEPING_EVENTS + 8 * (MOST_EVENTS as usize);

// Pin words are below this: above the pins, bits are zero. CKE is a pin where there is sleep.
const PINS: u32 = 1 << 20;

const SLEEPING_PINS: u32 = 1 << 21;

const LAST_CYCLE: u32 = 2_000_000_000;

const NEWEST_EDITION: u32 = 1;

// ---- header and settings. These functions ask for 24 bytes each, and not for a type that has them: the crates above
// call them with bytes of their own that are known to be a capture, and `bad_length` before it knows so.

// Its settings have those of sleep among them.
fn sleeping(capture: &[u8]) -> bool
    requires { 24 ≤ length capture.now }
    ensures { result ≡ eqb (header_word capture.now 1) sleeping_count }
{
    words::word_at(capture, 4) == SLEEPING_STATED
}

// How many settings it has.
fn settings_count(capture: &[u8]) -> u32
    requires { 24 ≤ length capture.now }
    ensures value { result ≡ count_in capture.now }
    ensures lower_bound { (14 ≤ result) × (result ≤ 16) }
{
    if sleeping(capture) {
        SLEEPING_STATED
    } else {
        COUNT_STATED
    }
}

// Where its events start.
pub fn events_start(capture: &[u8]) -> u32
    requires { 24 ≤ length capture.now }
    ensures value { result ≡ events_start (count_in capture.now) }
    ensures lower_bound { (80 ≤ result) × (result ≤ 88) }
{
    SETTINGS as u32 + 4 * settings_count(capture)
}

fn pin_limit(capture: &[u8]) -> u32
    requires { 24 ≤ length capture.now }
    ensures { result ≡ pin_limit capture.now }
{
    if sleeping(capture) {
        SLEEPING_PINS
    } else {
        PINS
    }
}

fn bad_length(capture: &[u8], most: u32) -> bool
    ensures { result ≡ not (length_fits_to most capture.now) }
{
    let size = capture.len();
    if size < EVENTS {
        return true;
    }
    let start = events_start(capture) as usize;
    if size < start {
        return true;
    }
    if start + 8 * (most as usize) < size {
        return true;
    }
    words::word_at(capture, 0) as usize != size
}

// N, as the header states it.
pub fn event_count(capture: &[u8]) -> u32
    requires { 24 ≤ length capture.now }
    ensures { result ≡ event_count capture.now }
{
    words::word_at(capture, 12)
}

// The edition of the rules, as the header states it.
fn edition(capture: &[u8]) -> u32
    requires { 24 ≤ length capture.now }
    ensures { result ≡ edition_in capture.now }
{
    words::word_at(capture, 20)
}

// The bytes of n events behind those that come before them. They may be more than a word can state.
fn total(start: u32, n: u32) -> u64
    ensures { result ≡ start + 8 * n }
{
    u64::from(start) + 8 * u64::from(n)
}

fn bad_header(capture: &[u8], most: u32) -> bool
    requires { 24 ≤ length capture.now }
    ensures { result ≡ not (header_fits_to most capture.now) }
{
    let count = settings_count(capture);
    if words::word_at(capture, 4) != count {
        return true;
    }
    if words::word_at(capture, 8) != SETTINGS as u32 {
        return true;
    }
    let n = event_count(capture);
    if most < n {
        return true;
    }
    let start = SETTINGS as u32 + 4 * count;
    if words::word_at(capture, 16) != start {
        return true;
    }
    if NEWEST_EDITION < edition(capture) {
        return true;
    }
    // A cast: by `u64::from` the proof does not close.
    words::word_at(capture, 0) as u64 != total(start, n)
}

// The settings, as words; 0 for those of sleep where there is none, and for the edition.
fn setting_words(capture: &[u8]) -> Settings
    requires { events_start (count_in capture.now) ≤ length capture.now }
    ensures { result ≡ padded (setting_words capture.now) }
{
    let mut loaded = [0u32; HELD];
    let n = settings_count(capture) as usize;
    let stated = &mut loaded[..n];
    for (i, word) in stated.iter_mut().enumerate() {
        *word = words::word_at(capture, SETTINGS + 4 * i);
    }
    loaded
}

// The settings and the edition by which it is judged.
pub fn settings_in(capture: &[u8]) -> Settings
    requires { events_start (count_in capture.now) ≤ length capture.now }
    ensures { result ≡ held (edition_in capture.now) (setting_words capture.now) }
{
    let mut loaded = setting_words(capture);
    loaded[EDITION] = edition(capture);
    loaded
}

// The bytes from where the events start; event i stands at 8 i in them.
pub fn event_bytes(capture: &[u8]) -> &[u8]
    requires { events_start (count_in capture.now) ≤ length capture.now }
    ensures { result.now ≡ event_bytes capture.now }
{
    let start = events_start(capture) as usize;
    &capture[start..]
}

// The cycle of event i in those bytes.
pub fn cycle_at(bytes: &[u8], i: usize) -> u32
    requires { 8 * i + 8 ≤ length bytes.now }
    ensures { result ≡ (event_at bytes.now i).cycle }
{
    words::word_at(bytes, 8 * i)
}

pub fn pins_at(bytes: &[u8], i: usize) -> u32
    requires { 8 * i + 8 ≤ length bytes.now }
    ensures { result ≡ (event_at bytes.now i).pins }
{
    words::word_at(bytes, 8 * i + 4)
}

// An event may have these words where `next` is the first cycle that is above the one before.
fn event_fits(limit: u32, next: u32, cycle: u32, pins: u32) -> bool
    ensures { result ≡ fits_from limit next cycle pins }
{
    if limit <= pins {
        return false;
    }
    if LAST_CYCLE < cycle {
        return false;
    }
    next <= cycle
}

// Told of a capture without a branch for each event, as most are: cycles that rise are not too large if the last is
// not. Event 0 is looked at before the walk, which then goes by number: events are read by theirs, `cycle_at` and
// `pins_at`. Bytes and count come apart, here and below: `Events`, which has both, says that all of them fit, and
// that is what is found out.
fn all_fit(limit: u32, bytes: &[u8], n: usize) -> bool
    requires { 8 * n ≤ length bytes.now }
    ensures { result ≡ true → bad_event limit bytes.now n ≡ none }
{
    if n == 0 {
        return true;
    }
    let mut fine = pins_at(bytes, 0) < limit;
    let mut last = cycle_at(bytes, 0);
    for i in 1..n {
        let t = cycle_at(bytes, i);
        let w = pins_at(bytes, i);
        fine = both(fine, both(last < t, w < limit));
        last = t;
    }
    both(fine, last <= LAST_CYCLE)
}

// The walk asks for the events' numbers: one of them is the place of the refusal.
fn lowest_bad_event(limit: u32, bytes: &[u8], n: usize) -> Option<u32>
    requires { (n < 2 ^ 32) × (8 * n ≤ length bytes.now) }
    ensures { place_of result ≡ bad_event limit bytes.now n }
{
    if all_fit(limit, bytes, n) {
        return None;
    }
    let mut next = 0;
    'events: for i in 0..n {
        let cycle = cycle_at(bytes, i);
        let pins = pins_at(bytes, i);
        if event_fits(limit, next, cycle, pins) {
            next = cycle + 1;
            continue 'events;
        }
        return Some(i as u32);
    }
    None
}

// Refusals 1 to 4, in this order, where there may be so many events. Never in place: what it needs of stack is gone before a call
// goes on, and the header states how much a call takes.
#[inline(never)]
fn checked_to(capture: &[u8], most: u32) -> Result<(), Refusal>
    ensures { passed result ≡ accepted_to most capture.now (answered tt) }
{
    if bad_length(capture, most) {
        return Err(Refusal::Length);
    }
    if bad_header(capture, most) {
        return Err(Refusal::Header);
    }
    let settings = setting_words(capture);
    let stated = settings_count(capture) as usize;
    if let Some(place) = settings::lowest_bad(&settings, stated) {
        return Err(Refusal::Setting(place));
    }
    let count = event_count(capture);
    let bytes = event_bytes(capture);
    if let Some(place) = lowest_bad_event(pin_limit(capture), bytes, count as usize) {
        return Err(Refusal::Event(place));
    }
    Ok(())
}

// Those refusals, else what the capture holds. In place, so that this is not moved from frame to frame.
#[inline(always)]
pub fn open_to<'a>(capture: &'a [u8], most: u32) -> Result<Opened<'a>, Refusal>
    ensures answer { passed result ≡ accepted_to most capture.now (answered tt) }
    ensures holds { IfOk result (Holds capture.now) }
{
    checked_to(capture, most)?;
    let count = event_count(capture);
    let bytes = event_bytes(capture);
    Ok(Opened {
        settings: settings_in(capture),
        events: Events { bytes, count },
    })
}

// Those of a capture.
#[inline(always)]
pub fn open<'a>(capture: &'a [u8]) -> Result<Opened<'a>, Refusal>
    ensures answer { passed result ≡ accepted capture.now (answered tt) }
    ensures holds { IfOk result (Holds capture.now) }
{
    open_to(capture, MOST_EVENTS)
}
