// The browser's reader: it holds a capture and a position, and sees the event that stands there.
#![tactic(auto)]

ghost use Rattle.std.specs.Prelude.{◌≡◌, ◌+◌, ◌*◌, ◌≤◌, ◌<◌, ◌^◌, length};
ghost use Rattle.reading.specs.Capture.{capture_size, count_in, event_count};
ghost use Rattle.std.specs.Iterator.{YieldsFirst, item_count};
ghost use Rattle.browser.specs.Browsed.{seen_among, seen_at, events_left};

// An event as it is seen.
#[derive(Clone, Copy, Debug, PartialEq, Eq)]
pub struct Event {
    pub cycle: u32,
    pub pins: u32,
}

// The events that a capture states, whatever they are: the bytes from where the first starts, of which event i stands at 8 i, and
// how many there are. Those of an accepted capture are `capture::held::Events`, whose cycles are known to rise; these are of
// any bytes that are as long as they say.
#[derive(Clone, Copy)]
pub struct Stated<'a> {
    pub bytes: &'a [u8],
    pub count: u32,
    ghost held: { 8 * count ≤ length bytes.now },
}

// The decoder: event `at`, or nothing behind the last.
pub fn event_at(events: &Stated, at: usize) -> Option<Event>
    ensures { result ≡ seen_among events.now.bytes.now events.now.count at }
{
    if at < events.count as usize {
        let cycle = capture::cycle_at(events.bytes, at);
        let pins = capture::pins_at(events.bytes, at);
        return Some(Event { cycle, pins });
    }
    None
}

#[derive(Clone, Copy, Drop)]
pub struct Reader<'a> {
    pub capture: &'a [u8],
    pub at: usize,
}

// A reader before the first event.
pub fn start<'a>(capture: &'a [u8]) -> Reader<'a>
    ensures { (result.capture ≡ capture.entry) × (result.at ≡ 0) }
{
    Reader { capture, at: 0 }
}

// The event where the reader stands, in a capture that is as long as its header says. That is asked here and not by the type,
// since a reader starts on any bytes.
pub fn next<'a>(r: Reader<'a>) -> Option<Event>
    requires { capture_size (count_in r.capture.now) (event_count r.capture.now) ≤ length r.capture.now }
    ensures { result ≡ seen_at r.entry.capture.now r.entry.at }
{
    let bytes = capture::event_bytes(r.capture);
    let count = capture::event_count(r.capture);
    event_at(&Stated { bytes, count }, r.at)
}

// The reader behind that event.
pub fn onward<'a>(r: Reader<'a>) -> Reader<'a>
    requires { r.at + 1 < 2 ^ 64 }
    ensures { (result.capture ≡ r.entry.capture) × (result.at ≡ r.entry.at + 1) }
{
    Reader {
        capture: r.capture,
        at: r.at + 1,
    }
}

// The events from there on, one after the other.
impl<'a> Iterator for Reader<'a> {
    type Item = Event;

    ghost can_next = { λ r. capture_size (count_in r.capture.now) (event_count r.capture.now) ≤ length r.capture.now };

    ghost next_gives = { YieldsFirst events_left };

    ghost remaining = { item_count events_left };

    fn next(&mut self) -> Option<Event> {
        let event = next(*self)?;
        *self = onward(*self);
        Some(event)
    }
}
