// A capture with its addresses blanked, written into a lent buffer.
#![tactic(auto)]

ghost use Rattle.std.specs.Prelude.{◌≡◌, ◌≤◌, ◌<◌, ◌++◌, length, drop};
ghost use Rattle.std.proofs.lemmas.List.Edits.{sets};
ghost use Rattle.reading.specs.Settings.{settings_of};
ghost use Rattle.reading.specs.Blank.{names_row, blank_pins, blank_outcome};
ghost use Rattle.refusal.specs.Refusal.{told};
ghost use Rattle.hidden.specs.Meaning.{blanked_events, Writable};

use capture::held::Events;
use deadlines::sums;
use refusal::Refusal;
use settings::Settings;
use settings::places::ROW_BITS;

// ACTIVE names a row, here one that the part has.
fn names_row(s: &Settings, w: u32) -> bool
    requires { (settings_of s.now).row_bits < 32 }
    ensures { result ≡ names_row (settings_of s.now) w }
{
    pins::code(w) == pins::ACTIVE && pins::address(w) < sums::rows(s[ROW_BITS])
}

// The pins of an event, those at 0 that may be hidden.
fn blank_pins(s: &Settings, w: u32) -> u32
    requires { (settings_of s.now).row_bits < 32 }
    ensures { result ≡ blank_pins (settings_of s.now) w }
{
    let above = w / pins::BANK * pins::BANK;
    if pins::gives_burst(w) {
        return above + w / 1024 % 2 * 1024;
    }
    if names_row(s, w) {
        return above;
    }
    w
}

// What stands before the events, as it stands. By number: a copy of the whole would want a function of the C library,
// of which the archive wants none that moves bytes.
fn copy(front: &[u8], out: &mut [u8])
    requires { length front.now ≤ length out.old }
    ensures { out.new ≡ sets out.old 0 front.now }
{
    for i in 0..front.len() {
        out[i] = front[i];
    }
}

// The events, blanked, from out[at] on. The walk asks for their numbers: by them it stores.
fn write_events(s: &Settings, events: &Events, out: &mut [u8], at: usize)
    requires { Writable s.now events.now.count out.old at }
    ensures { out.new ≡ sets out.old at (blanked_events (settings_of s.now) events.now.bytes.now events.now.count) }
{
    for i in 0..events.count {
        let here = at + 8 * (i as usize);
        let pins = blank_pins(s, events.pins(i));
        words::put_word(out, here, events.cycle(i));
        words::put_word(out, here + 4, pins);
    }
}

// These bytes as a capture, blanked; bytes behind it in the buffer stay.
pub fn blank(capture: &[u8], out: &mut [u8]) -> Result<u32, Refusal>
    ensures result_value { told (λ n. n) result ≡ (blank_outcome capture.now out.old).answer }
    ensures out_after { out.new ≡ (blank_outcome capture.now out.old).buffer }
{
    let opened = capture::open(capture)?;
    let size = capture.len() as u32;
    if out.len() < capture.len() {
        return Err(Refusal::Room(size));
    }
    let start = capture::events_start(capture) as usize;
    copy(&capture[..start], out);
    write_events(&opened.settings, &opened.events, out, start);
    Ok(size)
}
