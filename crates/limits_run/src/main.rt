// Captures and lists of settings at the limits of document 01 ("01" below), each with the number and the place that 01's
// table of refusals gives it, or 0 and 0 where it is accepted. A line is written for each: what was tried and what was
// answered, and "WRONG" where 01 says otherwise. Cases stand line by line where each has a reason of its own.
#![tactic(auto)]

ghost use Rattle.std.specs.Prelude.{◌<◌, ◌≤◌};

use console::Out;
use refusal::Refusal;
use std::fmt;
use std::fmt::Display;
use trials::{store, store_settings};

// Where words of a capture stand.
const TOTAL: u32 = 0;

const SETTINGS_COUNT: u32 = 4;

const SETTINGS_OFFSET: u32 = 8;

const EVENTS_COUNT: u32 = 12;

const EVENTS_OFFSET: u32 = 16;

const EDITION: u32 = 20;

const LANE: u32 = 24;

const MODE: u32 = 36;

const T_RCD: u32 = 40;

const T_RP: u32 = 44;

const T_RAS: u32 = 48;

const T_RC: u32 = 52;

const T_MRD: u32 = 72;

const T_REFI: u32 = 76;

const T_XP: u32 = 80;

const T_XSR: u32 = 84;

const CYCLE_0: u32 = 80;

const PINS_0: u32 = 84;

const CYCLE_1: u32 = 88;

const PINS_1: u32 = 92;

const CYCLE_2: u32 = 96;

const PINS_2: u32 = 100;

const CYCLE_7999: u32 = 64_072;

const PINS_7999: u32 = 64_076;

// Behind every capture.
const NOWHERE: u32 = 100_000;

// The settings of 01's cases but for tRAS and tRC, so that each may be changed alone and contradict no other.
const SETTINGS: [u32; settings::COUNT] = [1, 13, 10, 0x32, 3, 3, 10_000, 1, 2, 3, 1, 12, 2, 1000];

// Whether what was tried is accepted.
type Answer = Result<(), Refusal>;

// ---- captures that are right but for a word or two

// Where events start behind so many settings.
fn events_at(count: u32) -> u32
    ensures { result ≤ 88 }
{
    if count == 16 {
        return 88;
    }
    80
}

// As many events as a capture of `size` bytes has room for.
fn room(size: u32, events: u32) -> u32 {
    if size < events {
        return 0;
    }
    (size - events) / 8
}

fn store_header(out: &mut [u8], size: u32, count: u32) {
    store(out, TOTAL, size);
    store(out, SETTINGS_COUNT, count);
    store(out, SETTINGS_OFFSET, 24);
    store(out, EVENTS_COUNT, room(size, events_at(count)));
    store(out, EVENTS_OFFSET, events_at(count));
    store(out, EDITION, 0);
}

// Event i is a NOP (CS# low, RAS#, CAS# and WE# high) at cycle 10 i: its number says where it stands and when it is.
fn store_events(out: &mut [u8], events: u32)
    requires { events ≤ 88 }
{
    for i in 0..8_001 {
        store(out, events + 8 * i, 10 * i);
        store(out, events + 4 + 8 * i, 0x000E_0000);
    }
}

fn store_capture(out: &mut [u8], size: u32, count: u32) {
    store_header(out, size, count);
    store_settings(out, &SETTINGS);
    store(out, T_XP, 2); // the events behind fourteen settings are stored over these two
    store(out, T_XSR, 20);
    store_events(out, events_at(count));
}

fn opened(count: u32, size: u32, at: u32, word: u32, other: u32, second: u32) -> Answer {
    let mut buffer = [0u8; 65_536];
    store_capture(&mut buffer, size, count);
    store(&mut buffer, at, word);
    store(&mut buffer, other, second);
    let n = buffer.len().min(size as usize);
    capture::open(&buffer[..n]).map(|_| ())
}

// ---- lines

// What was changed in a capture, if anything was.
#[derive(Clone, Copy)]
struct Change {
    at: u32,
    word: u32,
}

impl Display for Change {
    fn fmt<W: fmt::Write>(&self, f: &mut fmt::Formatter<W>) -> fmt::Result {
        if self.at == NOWHERE {
            return Ok(());
        }
        write!(f, ", byte {} word {}", self.at, self.word)
    }
}

// What was answered, and the number and the place that 01 has, 0 and 0 of what is accepted.
// What is wanted stands as number and place, as the table of refusals has it, apart from `Refusal`.
#[derive(Clone, Copy)]
struct Told {
    got: Answer,
    number: u32,
    place: u32,
}

impl Told {
    fn is_right(&self) -> bool {
        match self.got {
            Ok(()) => self.number == 0 && self.place == 0,
            Err(refusal) => refusal.number() == self.number && refusal.place() == self.place,
        }
    }
}

impl Display for Told {
    fn fmt<W: fmt::Write>(&self, f: &mut fmt::Formatter<W>) -> fmt::Result {
        match self.got {
            Ok(()) => write!(f, "accepted")?,
            Err(refusal) => write!(f, "{refusal}")?,
        }
        if !self.is_right() {
            write!(f, " WRONG")?;
        }
        Ok(())
    }
}

fn twice_changed(
    to: &mut Out,
    size: u32,
    at: u32,
    word: u32,
    other: u32,
    second: u32,
    number: u32,
    place: u32,
) {
    let first = Change { at, word };
    let then = Change {
        at: other,
        word: second,
    };
    let got = opened(14, size, at, word, other, second);
    writeln!(
        to,
        "{size} bytes{first}{then}: {}",
        Told { got, number, place }
    );
}

fn changed(to: &mut Out, size: u32, at: u32, word: u32, number: u32, place: u32) {
    twice_changed(to, size, at, word, NOWHERE, 0, number, place);
}

fn unchanged(to: &mut Out, size: u32, number: u32, place: u32) {
    twice_changed(to, size, NOWHERE, 0, NOWHERE, 0, number, place);
}

// ---- refusal 1: "capture under 80 or over 64,080 bytes, or not of its stated total", place 0

fn lengths(to: &mut Out) {
    unchanged(to, 0, 1, 0);
    unchanged(to, 79, 1, 0); // states 79
    unchanged(to, 80, 0, 0); // no events
    unchanged(to, 88, 0, 0); // one event
    unchanged(to, 64_080, 0, 0); // 8,000 events
    unchanged(to, 64_081, 1, 0); // states 64,081
    unchanged(to, 64_088, 1, 0); // states 8,001 events too, and length is tried first
    changed(to, 80, TOTAL, 79, 1, 0);
    changed(to, 80, TOTAL, 81, 1, 0);
    changed(to, 80, TOTAL, 0, 1, 0);
    changed(to, 81, TOTAL, 80, 1, 0);
    changed(to, 64_080, TOTAL, 64_079, 1, 0);
}

// ---- refusal 2: "another header word is not as above, or the total is not 80 + 8N", place 0

fn header_words(to: &mut Out) {
    for (at, below, above) in [
        (SETTINGS_COUNT, 13, 15),
        (SETTINGS_OFFSET, 23, 25),
        (EVENTS_OFFSET, 79, 81),
    ] {
        changed(to, 80, at, below, 2, 0);
        changed(to, 80, at, above, 2, 0);
    }
    changed(to, 80, EDITION, 1, 0, 0); // the newer edition
    changed(to, 80, EDITION, 2, 2, 0);
    changed(to, 80, EDITION, 0x8000_0000, 2, 0);
}

fn event_counts(to: &mut Out) {
    unchanged(to, 81, 2, 0); // 81 is not 80
    unchanged(to, 87, 2, 0);
    changed(to, 80, EVENTS_COUNT, 1, 2, 0); // 80 is not 88
    changed(to, 88, EVENTS_COUNT, 0, 2, 0);
    changed(to, 64_080, EVENTS_COUNT, 7_999, 2, 0);
    changed(to, 64_080, EVENTS_COUNT, 8_001, 2, 0);
    changed(to, 80, EVENTS_COUNT, 0x2000_0000, 2, 0); // 8N is 2^32, which is 0 in 32 bits
}

// ---- refusal 4: "pin bits 20-31 set, or a cycle too large or not above the one before", place the lowest event.
// Three events are at cycles 0, 10 and 20.

fn pins(to: &mut Out) {
    changed(to, 104, PINS_1, 0, 0, 0);
    changed(to, 104, PINS_1, 0x000F_FFFF, 0, 0); // bits 0 to 19
    // Bits go by their numbers: each word is 1, shifted by one of them.
    for bit in 20u32..32 {
        changed(to, 104, PINS_1, 1 << bit, 4, 1);
    }
}

fn rising_cycles(to: &mut Out) {
    changed(to, 104, CYCLE_0, 9, 0, 0); // nothing stands before the first event
    changed(to, 104, CYCLE_0, 10, 4, 1); // the second is equal
    changed(to, 104, CYCLE_1, 1, 0, 0); // one above the first
    changed(to, 104, CYCLE_1, 0, 4, 1); // equal
    changed(to, 104, CYCLE_1, 20, 4, 2); // the third is equal
    changed(to, 104, CYCLE_2, 11, 0, 0);
    changed(to, 104, CYCLE_2, 10, 4, 2); // equal
    changed(to, 104, CYCLE_2, 9, 4, 2); // falling
    twice_changed(to, 104, CYCLE_0, 30, CYCLE_1, 40, 4, 2); // the third alone is falling
}

fn large_cycles(to: &mut Out) {
    changed(to, 104, CYCLE_2, 2_000_000_000, 0, 0); // "at most 2,000,000,000"
    changed(to, 104, CYCLE_2, 2_000_000_001, 4, 2);
    changed(to, 104, CYCLE_2, 0xFFFF_FFFF, 4, 2);
    changed(to, 104, CYCLE_0, 2_000_000_000, 4, 1); // it fits, and the second is below it
    changed(to, 104, CYCLE_0, 2_000_000_001, 4, 0);
    twice_changed(
        to,
        104,
        CYCLE_1,
        1_999_999_999,
        CYCLE_2,
        2_000_000_000,
        0,
        0,
    );
    twice_changed(
        to,
        104,
        CYCLE_1,
        2_000_000_000,
        CYCLE_2,
        2_000_000_001,
        4,
        2,
    );
}

fn first_and_last_events(to: &mut Out) {
    changed(to, 104, PINS_0, 0x0010_0000, 4, 0);
    changed(to, 104, PINS_2, 0x0010_0000, 4, 2);
    changed(to, 64_080, PINS_7999, 0x0010_0000, 4, 7_999);
    changed(to, 64_080, CYCLE_7999, 79_981, 0, 0); // event 7,998 is at 79,980
    changed(to, 64_080, CYCLE_7999, 79_980, 4, 7_999);
}

// ---- several faults: "tried in this order; the first that applies is given"

fn numbers_in_order(to: &mut Out) {
    changed(to, 79, SETTINGS_COUNT, 13, 1, 0);
    twice_changed(to, 80, TOTAL, 81, SETTINGS_COUNT, 13, 1, 0);
    twice_changed(to, 64_088, LANE, 0, PINS_0, 0x0010_0000, 1, 0);
    twice_changed(to, 80, EDITION, 2, LANE, 0, 2, 0);
    twice_changed(to, 80, EDITION, 1, LANE, 0, 3, 0);
    twice_changed(to, 104, EVENTS_COUNT, 2, PINS_0, 0x0010_0000, 2, 0);
    twice_changed(to, 104, LANE, 3, PINS_0, 0x0010_0000, 3, 0);
    twice_changed(to, 104, T_REFI, 0, PINS_0, 0x0010_0000, 3, 13);
}

// "lowest such setting", by range or by the mode word alike; "lowest event"
fn lowest_places(to: &mut Out) {
    twice_changed(to, 104, T_RCD, 0, LANE, 0, 3, 0);
    twice_changed(to, 104, T_REFI, 0, T_MRD, 0, 3, 12);
    twice_changed(to, 104, T_RCD, 0, MODE, 0x02, 3, 3);
    twice_changed(to, 104, T_RCD, 0, MODE, 0x80, 3, 3);
    twice_changed(to, 104, PINS_2, 0x0010_0000, PINS_0, 0x0010_0000, 4, 0);
    twice_changed(to, 104, PINS_2, 0x0010_0000, CYCLE_1, 0, 4, 1);
    twice_changed(to, 104, CYCLE_2, 9, PINS_1, 0x0010_0000, 4, 1);
    twice_changed(to, 104, CYCLE_2, 9, PINS_2, 0x0010_0000, 4, 2);
    twice_changed(to, 104, CYCLE_2, 0, CYCLE_1, 0, 4, 1);
    twice_changed(to, 104, CYCLE_2, 9, CYCLE_0, 2_000_000_001, 4, 0);
}

// ---- refusal 3: "a setting out of range, or the mode word not valid by rule 2", place the setting;
// in a list and in a capture

// Here and below a setting's number is asked to be below 14, as an index is.
fn checked(i: u32, word: u32) -> Answer
    requires { i < 14 }
{
    let mut list = SETTINGS;
    list[i as usize] = word;
    settings::check(&list)
}

fn setting(to: &mut Out, i: u32, word: u32, number: u32, place: u32)
    requires { i < 14 }
{
    let listed = Told {
        got: checked(i, word),
        number,
        place,
    };
    let captured = Told {
        got: opened(14, 104, LANE + 4 * i, word, NOWHERE, 0),
        number,
        place,
    };
    writeln!(
        to,
        "setting {i} is {word}: list {listed}, capture {captured}"
    );
}

// At the limits of a row and on either side of them.
fn row(to: &mut Out, i: u32, below: u32, least: u32, most: u32, above: u32)
    requires { i < 14 }
{
    setting(to, i, below, 3, i);
    setting(to, i, least, 0, 0);
    setting(to, i, most, 0, 0);
    setting(to, i, above, 3, i);
}

// The table of 01 but for row 3.
fn rows(to: &mut Out) {
    row(to, 0, 0, 1, 2, 3);
    row(to, 1, 11, 12, 14, 15);
    row(to, 2, 7, 8, 11, 12);
    // Settings go by their numbers.
    for i in 4..13 {
        row(to, i, 0, 1, 10_000, 10_001);
    }
    row(to, 13, 0, 1, 1_000_000, 1_000_001);
}

// Words of row 3, of which all fit or none.
fn modes(to: &mut Out, words: &[u32], fit: bool) {
    let (number, place) = if fit { (0, 0) } else { (3, 3) };
    for word in words {
        setting(to, 3, *word, number, place);
    }
}

// Row 3: from 0 to 127, and "bits 0-2 are 1, 2, 3, 4; bit 3 is 0 sequential, 1 interleaved; bits 4-6 are 2 or 3".
fn burst_lengths(to: &mut Out) {
    modes(to, &[0x20], false);
    modes(to, &[0x21, 0x22, 0x23, 0x24], true);
    modes(to, &[0x25, 0x27, 0x28], false);
    modes(to, &[0x29, 0x3C], true);
}

fn latencies(to: &mut Out) {
    modes(to, &[0x02, 0x12], false);
    modes(to, &[0x22, 0x32], true);
    modes(to, &[0x42, 0x52, 0x62, 0x72], false);
}

// The last two are 0x32 with bit 7 and with bit 31.
fn mode_range(to: &mut Out) {
    modes(to, &[0, 127, 128, 0xB2, 0x8000_0032], false);
}

// ---- refusal 2 of a list: "a settings list not of 14 words", before refusal 3

fn list(to: &mut Out, words: &[u32], number: u32, place: u32) {
    let got = settings::check(words);
    writeln!(
        to,
        "list of {} zeros: {}",
        words.len(),
        Told { got, number, place }
    );
}

fn lists(to: &mut Out) {
    list(to, &[], 2, 0);
    list(to, &[0u32; 13], 2, 0);
    list(to, &[0u32; settings::COUNT], 3, 0);
    list(to, &[0u32; 15], 2, 0);
    list(to, &[0u32; settings::SLEEPING], 2, 0);
}

// ---- sixteen settings (K1): "events from byte 88, total 88 + 8N, lengths 88 and 64,088 in refusal 1", and bit 20 is CKE

fn sleeping(to: &mut Out, size: u32, at: u32, word: u32, number: u32, place: u32) {
    let got = opened(16, size, at, word, NOWHERE, 0);
    let change = Change { at, word };
    writeln!(
        to,
        "16 settings, {size} bytes{change}: {}",
        Told { got, number, place }
    );
}

fn sleeping_lengths(to: &mut Out) {
    sleeping(to, 80, NOWHERE, 0, 1, 0); // under 88
    sleeping(to, 87, NOWHERE, 0, 1, 0);
    sleeping(to, 88, NOWHERE, 0, 0, 0); // no events
    sleeping(to, 96, NOWHERE, 0, 0, 0); // one event
    sleeping(to, 64_088, NOWHERE, 0, 0, 0); // 8,000 events
    sleeping(to, 64_089, NOWHERE, 0, 1, 0);
    sleeping(to, 64_096, NOWHERE, 0, 1, 0); // 8,001 events
    sleeping(to, 88, TOTAL, 87, 1, 0);
}

fn sleeping_headers(to: &mut Out) {
    sleeping(to, 89, NOWHERE, 0, 2, 0); // 89 is not 88
    sleeping(to, 88, EVENTS_COUNT, 1, 2, 0);
    sleeping(to, 88, EVENTS_OFFSET, 80, 2, 0);
    sleeping(to, 88, SETTINGS_OFFSET, 32, 2, 0);
    sleeping(to, 88, SETTINGS_COUNT, 14, 2, 0); // 88 is room for an event behind 14 settings, and none is stated
    sleeping(to, 88, SETTINGS_COUNT, 15, 2, 0); // the lengths are those of 14 settings
    sleeping(to, 88, SETTINGS_COUNT, 17, 2, 0);
    sleeping(to, 64_088, SETTINGS_COUNT, 15, 1, 0);
    sleeping(to, 88, EDITION, 1, 0, 0);
    sleeping(to, 88, EDITION, 2, 2, 0);
}

// tXP and tXSR from 1 to 10,000.
fn sleeping_settings(to: &mut Out) {
    for (at, place) in [(T_XP, 14), (T_XSR, 15)] {
        sleeping(to, 88, at, 0, 3, place);
        sleeping(to, 88, at, 1, 0, 0);
        sleeping(to, 88, at, 10_000, 0, 0);
        sleeping(to, 88, at, 10_001, 3, place);
    }
}

// The second of three events has its pins at byte 100.
fn sleeping_pins(to: &mut Out) {
    sleeping(to, 112, 100, 0x001F_FFFF, 0, 0); // bits 0 to 20
    // Bits go by their numbers, as above.
    for bit in 21u32..32 {
        sleeping(to, 112, 100, 1 << bit, 4, 1);
    }
}

// ---- refusal 3 of settings that contradict each other (K5): tRC above tRAS + tRP, place 7, where each is in its range and
// before events are looked at. Lists, and captures of three events, with 14 settings and with 16.

fn timed_capture(count: u32, times: [u32; 3], at: u32, word: u32) -> Answer {
    let mut buffer = [0u8; 65_536];
    let size = events_at(count) + 24;
    store_capture(&mut buffer, size, count);
    store(&mut buffer, T_RP, times[0]);
    store(&mut buffer, T_RAS, times[1]);
    store(&mut buffer, T_RC, times[2]);
    store(&mut buffer, at, word);
    let n = buffer.len().min(size as usize);
    capture::open(&buffer[..n]).map(|_| ())
}

fn timed_list(times: [u32; 3]) -> Answer {
    let mut list = SETTINGS;
    list[settings::places::T_RP] = times[0];
    list[settings::places::T_RAS] = times[1];
    list[settings::places::T_RC] = times[2];
    settings::check(&list)
}

fn together(to: &mut Out, times: [u32; 3], number: u32, place: u32) {
    let told = |got: Answer| Told { got, number, place };
    let list = told(timed_list(times));
    let short = told(timed_capture(14, times, NOWHERE, 0));
    let long = told(timed_capture(16, times, NOWHERE, 0));
    let [rp, ras, rc] = times;
    writeln!(
        to,
        "tRP {rp}, tRAS {ras}, tRC {rc}: list {list}, capture {short}, of 16 settings {long}"
    );
}

// One more word is changed.
fn together_with(
    to: &mut Out,
    count: u32,
    times: [u32; 3],
    at: u32,
    word: u32,
    number: u32,
    place: u32,
) {
    let [rp, ras, rc] = times;
    let change = Change { at, word };
    let got = timed_capture(count, times, at, word);
    writeln!(
        to,
        "{count} settings, tRP {rp}, tRAS {ras}, tRC {rc}{change}: {}",
        Told { got, number, place }
    );
}

fn contradictions(to: &mut Out) {
    together(to, [3, 7, 10], 0, 0);
    together(to, [3, 7, 11], 3, 7);
    together(to, [1, 1, 2], 0, 0);
    together(to, [1, 1, 3], 3, 7);
    together(to, [1, 9_999, 10_000], 0, 0);
    together(to, [1, 9_998, 10_000], 3, 7);
    together(to, [9_999, 1, 10_000], 0, 0);
    together(to, [9_998, 1, 10_000], 3, 7);
    together(to, [10_000, 10_000, 10_000], 0, 0);
    together(to, [10_000, 10_000, 10_001], 3, 7); // out of its range
    together(to, [0xFFFF_FFFF, 7, 7], 3, 5); // in 32 bits the sum is 6
}

fn contradictions_and_other_faults(to: &mut Out) {
    let times = [3, 7, 11];
    together_with(to, 14, times, LANE, 0, 3, 0);
    together_with(to, 14, times, MODE, 0x02, 3, 3);
    together_with(to, 14, times, T_RP, 0, 3, 5);
    together_with(to, 14, times, T_REFI, 0, 3, 13);
    together_with(to, 16, times, T_XP, 0, 3, 14);
    together_with(to, 16, times, T_XSR, 0, 3, 15);
    together_with(to, 14, times, PINS_0, 0x0010_0000, 3, 7);
    together_with(to, 14, times, CYCLE_1, 0, 3, 7);
    together_with(to, 16, times, PINS_1, 0x0020_0000, 3, 7); // behind 16 settings those of event 0
    together_with(to, 14, times, EDITION, 2, 2, 0);
    together_with(to, 14, times, TOTAL, 0, 1, 0);
}

fn main(rt: HostRuntime) {
    let mut to = Out::new(rt.stdout());
    lengths(&mut to);
    header_words(&mut to);
    event_counts(&mut to);
    pins(&mut to);
    rising_cycles(&mut to);
    large_cycles(&mut to);
    first_and_last_events(&mut to);
    numbers_in_order(&mut to);
    lowest_places(&mut to);
    lists(&mut to);
    rows(&mut to);
    burst_lengths(&mut to);
    latencies(&mut to);
    mode_range(&mut to);
    sleeping_lengths(&mut to);
    sleeping_headers(&mut to);
    sleeping_settings(&mut to);
    sleeping_pins(&mut to);
    contradictions(&mut to);
    contradictions_and_other_faults(&mut to);
}
