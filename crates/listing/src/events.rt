// The lines of events.
ghost use Rattle.std.specs.Prelude.{◌≡◌, ◌+◌, ◌-◌, ◌<◌, min};
ghost use Rattle.listing.specs.Kinds.{command_kind_of, kind_of};

use crate::command::Command;
use crate::open::Open;
use browser::Event;
use capture::held::Events;
use console::Out;
use settings::Settings;

// How many events are listed before the broken one, and the broken one with those behind it.
const BEFORE: u32 = 8;

const FROM_BROKEN: u32 = 5;

// Kinds of events; those below are commands with CKE high. A kind is a number, since it is the place of its last event in an
// array (`last_of_each`), and specs/Kinds has them as numbers.
const FALL: usize = 6;

const RISE: usize = 7;

const OTHER: usize = 8;

// ---- events of a capture

// Event i of those whose bytes these are; zeros where there is none. Of what is refused too, of which the reader of `browser` knows
// no count.
fn event_at(bytes: &[u8], i: u32) -> Event {
    let at = i as usize;
    if bytes.len() < 8 * at + 8 {
        return Event { cycle: 0, pins: 0 };
    }
    Event {
        cycle: capture::cycle_at(bytes, at),
        pins: capture::pins_at(bytes, at),
    }
}

// Of what is no capture, the bytes behind settings and header.
fn bytes_behind(refused: &[u8]) -> &[u8] {
    if refused.len() < capture::EVENTS || refused.len() < capture::events_start(refused) as usize {
        return &[];
    }
    capture::event_bytes(refused)
}

// ---- lines

fn print_event(out: &mut Out, settings: &Settings, mark: &str, i: u32, event: Event) {
    let Event { cycle, pins } = event;
    writeln!(
        out,
        "{mark} event {i} cycle {cycle} {}",
        Command { settings, pins }
    );
}

fn print_words(out: &mut Out, mark: &str, i: u32, event: Event) {
    let Event { cycle, pins } = event;
    writeln!(out, "{mark} event {i} words {cycle:#010x} {pins:#010x}");
}

// The event that was refused, and the one that its cycle has to be above.
pub fn print_refused(out: &mut Out, refused: &[u8], i: u32) {
    let bytes = bytes_behind(refused);
    if 0 < i {
        print_words(out, " ", i - 1, event_at(bytes, i - 1));
    }
    print_words(out, ">", i, event_at(bytes, i));
}

// ---- the events before those listed

// ACTIVE by its bank, AUTO REFRESH, MODE REGISTER SET, CKE falling and CKE rising, and the others.
fn kind(before: u32, pins: u32) -> usize
    ensures { (result ≡ kind_of before pins) × (result < 9) }
{
    if pins::low(pins) {
        return if pins::low(before) { OTHER } else { FALL };
    }
    if pins::low(before) {
        return RISE;
    }
    command_kind(pins)
}

fn command_kind(pins: u32) -> usize
    ensures { (result ≡ command_kind_of pins) × (result < 9) }
{
    let asked = pins::code(pins);
    if asked == pins::ACTIVE {
        return pins::bank(pins);
    }
    if asked == pins::REFRESH {
        return 4;
    }
    if asked == pins::MODE_SET {
        return 5;
    }
    OTHER
}

// The pins of the event before event i; CKE is high before the first.
fn pins_before(bytes: &[u8], i: u32) -> u32 {
    if i == 0 {
        return 0;
    }
    event_at(bytes, i - 1).pins
}

fn kind_at(bytes: &[u8], i: u32) -> usize
    ensures { result < 9 }
{
    kind(pins_before(bytes, i), event_at(bytes, i).pins)
}

// The last event of each kind before event `end`; `end` where there is none. This loop and the two below go over numbers and
// not over events: the number is kept, compared and printed, and an event's kind depends on the event before it.
fn last_of_each(bytes: &[u8], end: u32) -> [u32; 9] {
    let mut last = [end; 9];
    for i in 0..end {
        last[kind_at(bytes, i)] = i;
    }
    last
}

fn print_earlier(out: &mut Out, settings: &Settings, bytes: &[u8], end: u32) {
    let last = last_of_each(bytes, end);
    for i in 0..end {
        let kind = kind_at(bytes, i);
        if kind != OTHER && last[kind] == i {
            print_event(out, settings, "^", i, event_at(bytes, i));
        }
    }
}

// ---- the events around the broken one

// A judged event has the rows beside it that stand open after it.
fn print_judged(out: &mut Out, settings: &Settings, i: u32, event: Event, open: Open<'_>) {
    let Event { cycle, pins } = event;
    let command = Command { settings, pins };
    writeln!(out, "  event {i} cycle {cycle} {command}{open}");
}

pub fn print_around(out: &mut Out, settings: &Settings, events: Events<'_>, broken: u32) {
    let first = broken.saturating_sub(BEFORE);
    let end = broken.saturating_add(FROM_BROKEN).min(events.count);
    print_earlier(out, settings, events.bytes, first);
    for i in first..end {
        let event = event_at(events.bytes, i);
        if i < broken {
            print_judged(out, settings, i, event, Open { events, n: i + 1 });
        } else {
            let mark = if i == broken { ">" } else { " " };
            print_event(out, settings, mark, i, event);
        }
    }
}
