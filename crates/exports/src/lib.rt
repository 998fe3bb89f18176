// Exports of the handheld analyser: read into a capture, and written from one.
#![tactic(auto)]

ghost use Rattle.std.specs.Prelude.{◌≡◌, ℕ, Bool, ◌+◌, ◌*◌, ◌%◌, ◌^◌, ◌≤◌, ◌<◌, ◌++◌, map, length};
ghost use Rattle.std.proofs.lemmas.List.Edits.{sets};
ghost use Rattle.reading.specs.Search.{count, lowest};
ghost use Rattle.reading.specs.Words.{word_bytes, half_bytes};
ghost use Rattle.reading.specs.Capture.{last_cycle};
ghost use Rattle.reading.specs.Export.{most_records, stamp_at, record_pins, around, apart, stands, bad_export, read_outcome, between, nop, bridged, export_of, write_outcome};
ghost use Rattle.words.specs.Found.{place_of};
ghost use Rattle.refusal.specs.Refusal.{told};
ghost use Rattle.exports.specs.Meaning.{too_high, records_in, Readable, Fillable, filled, filling, Given, events_in, Writable, Bridging, too_far, stored, storing};

use capture::front;
use capture::held::Events;
use refusal::Refusal;

const NEWEST_EDITION: u32 = 1;

// Pin words are below this: above the pins, bits are zero.
const PINS: u32 = 1 << 20;

// A record is a stamp of two bytes, and behind it the pins.
pub const RECORD: usize = 6;

const STAMP: usize = 2;

const MOST_RECORDS: usize = 8_000;

// The first record that there may not be.
const TOO_MANY: u32 = MOST_RECORDS as u32;

// The bytes of the longest export, and of the longest capture that is read from one.
pub const LONGEST: usize = RECORD * MOST_RECORDS;

pub const LONGEST_READ: usize = capture::EVENTS + 8 * MOST_RECORDS;

// The furthest that a stamp can tell, where it goes round, and the pins of a NOP.
const REACH: u32 = 65_535;

const AROUND: u32 = 65_536;

const NOP: u32 = 0xE_0000;

// ---- from an export to a capture

// The bytes of an export, and how many records it has.
#[derive(Clone, Copy)]
struct Export<'a> {
    bytes: &'a [u8],
    count: usize,
    ghost held: { 6 * count ≤ length bytes.now },
}

// A record's number is asked to be below the count, as an event's of `Events` is.
impl<'a> Export<'a> {
    fn stamp(&self, i: usize) -> u16
        requires { i < self.now.count }
        ensures { result ≡ stamp_at self.now.bytes.now i }
    {
        words::half_at(self.bytes, RECORD * i)
    }

    fn pins(&self, i: usize) -> u32
        requires { i < self.now.count }
        ensures { result ≡ record_pins self.now.bytes.now i }
    {
        words::word_at(self.bytes, RECORD * i + STAMP)
    }

    // Its stamp is that of the record before.
    fn stands(&self, i: usize) -> bool
        requires { i < self.now.count }
        ensures { result ≡ stands self.now.bytes.now i }
    {
        if i == 0 {
            return false;
        }
        self.stamp(i) == self.stamp(i - 1)
    }

    // Its pins are none that there are.
    fn too_high(&self, i: usize) -> bool
        requires { i < self.now.count }
        ensures { result ≡ too_high self.now.bytes.now i }
    {
        PINS <= self.pins(i)
    }
}

// The lowest of n records that a test names, by its number. A loop and no `find`: what that says of its test is not what callers
// ask, and the number is what is answered.
fn lowest<F: Fn(usize) -> bool>(n: usize, test: F) -> Option<u32>
    requires few { n < 2 ^ 32 }
    requires each { (i : ℕ) → i < n → F.pre test i }
    ensures { (f : ℕ → Bool) → ((i : ℕ) (r : Bool) → i < n → F.post test i r → r ≡ f i) → place_of result ≡ lowest f n }
{
    'records: for i in 0..n {
        if test(i) {
            return Some(i as u32);
        }
    }
    None
}

// Refusal 11.
fn bad_export(records: &[u8]) -> Option<u32>
    ensures { place_of result ≡ bad_export records.now }
{
    let n = records.len() / RECORD;
    if records.len() % RECORD != 0 {
        return Some(0);
    }
    if MOST_RECORDS < n {
        return Some(TOO_MANY);
    }
    let held = Export {
        bytes: records,
        count: n,
    };
    lowest(n, |i| held.stands(i))
}

// The cycle of a record, from that of the record before and both stamps.
fn next_cycle(cycle: u32, before: u16, stamp: u16) -> u32
    requires { cycle ≤ last_cycle }
    ensures { result ≡ cycle + apart before stamp }
{
    let gone = stamp.wrapping_sub(before);
    cycle + u32::from(gone)
}

fn put_event(out: &mut [u8], at: usize, cycle: u32, pins: u32)
    requires { at + 8 ≤ length out.old }
    ensures { out.new ≡ sets out.old at (word_bytes cycle ++ word_bytes pins) }
{
    words::put_word(out, at, cycle);
    words::put_word(out, at + 4, pins);
}

// Stores records as events behind the front of a capture. The walk asks for their numbers: by them it reads and
// stores.
fn put_events(records: &Export<'_>, out: &mut [u8])
    requires { Readable records.now.bytes.now records.now.count out.old }
    ensures { out.new ≡ sets out.old 80 (records_in records.now.bytes.now records.now.count) }
{
    let mut cycle = 0u32;
    let mut before = 0u16;
    'records: for i in 0..records.count {
        let stamp = records.stamp(i);
        cycle = next_cycle(cycle, before, stamp);
        before = stamp;
        put_event(out, capture::EVENTS + 8 * i, cycle, records.pins(i));
    }
}

// Their capture, if the buffer holds it.
fn fill(
    records: &Export<'_>,
    settings: &[u32],
    edition: u32,
    out: &mut [u8],
) -> Result<u32, Refusal>
    requires { Fillable records.now.bytes.now settings.now records.now.count }
    ensures value { result ≡ filled out.old records.now.count }
    ensures out_after { out.new ≡ filling records.now.bytes.now settings.now edition records.now.count out.old }
{
    let n = records.count as u32;
    let bytes = front::size(n);
    if out.len() < bytes as usize {
        return Err(Refusal::Room(bytes));
    }
    front::put(settings, edition, n, out);
    put_events(records, out);
    Ok(bytes)
}

// These records as a capture of these settings and this edition; bytes behind it in the buffer stay.
pub fn read(records: &[u8], settings: &[u32], edition: u32, out: &mut [u8]) -> Result<u32, Refusal>
    ensures result_value { told (λ n. n) result ≡ (read_outcome records.now settings.now edition out.old).answer }
    ensures out_after { out.new ≡ (read_outcome records.now settings.now edition out.old).buffer }
{
    if NEWEST_EDITION < edition {
        return Err(Refusal::Header);
    }
    settings::check(settings)?;
    if let Some(place) = bad_export(records) {
        return Err(Refusal::Export(place));
    }
    let n = records.len() / RECORD;
    let held = Export {
        bytes: records,
        count: n,
    };
    if let Some(place) = lowest(n, |i| held.too_high(i)) {
        return Err(Refusal::Event(place));
    }
    fill(&held, settings, edition, out)
}

// ---- from a capture to an export

// How many NOPs stand between a record at cycle `last` and one at t.
fn nops_between(last: u32, t: u32) -> u32
    ensures { result ≡ between last t }
{
    if t <= last {
        return 0;
    }
    let apart = t - last - 1;
    if apart < REACH {
        return 0;
    }
    apart / REACH
}

// How many records the events take. Each takes at most 30,519, so that their number fits. `Events` hands them out by number.
fn records_needed(events: &Events) -> u32
    requires { Given events.now.bytes.now events.now.count }
    ensures { result ≡ length (bridged (events_in events.now.bytes.now events.now.count)) }
{
    let mut needed = 0u32;
    let mut last = 0u32;
    'events: for i in 0..events.count {
        let t = events.cycle(i);
        needed = needed + nops_between(last, t) + 1;
        last = t;
    }
    needed
}

// Refusal 12 of events that take so many records.
fn too_far(events: &Events, records: u32) -> bool
    requires given { Given events.now.bytes.now events.now.count }
    requires records_value { records ≡ length (bridged (events_in events.now.bytes.now events.now.count)) }
    ensures { result ≡ too_far (events_in events.now.bytes.now events.now.count) }
{
    if events.count == 0 {
        return false;
    }
    if REACH < events.cycle(0) {
        return true;
    }
    TOO_MANY < records
}

fn put_record(out: &mut [u8], at: usize, cycle: u32, pins: u32)
    requires { at + 6 ≤ length out.old }
    ensures { out.new ≡ sets out.old at (half_bytes (cycle % around) ++ word_bytes pins) }
{
    words::put_half(out, at, (cycle % AROUND) as u16);
    words::put_word(out, at + STAMP, pins);
}

// Stores k NOPs, one every 65,535 cycles behind cycle `last`, each at its number's place.
fn put_nops(out: &mut [u8], at: usize, last: u32, k: u32)
    requires { Bridging last k out.old at }
    ensures { out.new ≡ sets out.old at (export_of (map (nop last) (count 0 k))) }
{
    let mut cycle = last;
    'nops: for j in 0..(k as usize) {
        cycle = cycle + REACH;
        put_record(out, at + RECORD * j, cycle, NOP);
    }
}

// Stores the records of the events, which `Events` hands out by number.
fn put_export(events: &Events, out: &mut [u8])
    requires { Writable events.now.bytes.now events.now.count out.old }
    ensures { out.new ≡ sets out.old 0 (export_of (bridged (events_in events.now.bytes.now events.now.count))) }
{
    let mut at = 0usize;
    let mut last = 0u32;
    'events: for i in 0..events.count {
        let t = events.cycle(i);
        let k = nops_between(last, t);
        put_nops(out, at, last, k);
        let here = at + RECORD * (k as usize);
        put_record(out, here, t, events.pins(i));
        at = here + RECORD;
        last = t;
    }
}

// The export of events that take so many records, if the buffer holds it.
fn store(events: &Events, records: u32, out: &mut [u8]) -> Result<u32, Refusal>
    requires given { Given events.now.bytes.now events.now.count }
    requires records_value { records ≡ length (bridged (events_in events.now.bytes.now events.now.count)) }
    requires records_le_most_records { records ≤ most_records }
    ensures value { result ≡ stored out.old records }
    ensures out_after { out.new ≡ storing (events_in events.now.bytes.now events.now.count) records out.old }
{
    let size = (RECORD as u32) * records;
    if out.len() < size as usize {
        return Err(Refusal::Room(size));
    }
    put_export(events, out);
    Ok(size)
}

// This capture as an export, with NOPs where events are further apart than stamps can tell; bytes behind it in the buffer
// stay.
pub fn write(capture: &[u8], out: &mut [u8]) -> Result<u32, Refusal>
    ensures result_value { told (λ n. n) result ≡ (write_outcome capture.now out.old).answer }
    ensures out_after { out.new ≡ (write_outcome capture.now out.old).buffer }
{
    let opened = capture::open(capture)?;
    // With sleep there are more settings, and events start further behind.
    if capture::EVENTS < capture::events_start(capture) as usize {
        return Err(Refusal::Distance);
    }
    let records = records_needed(&opened.events);
    if too_far(&opened.events, records) {
        return Err(Refusal::Distance);
    }
    store(&opened.events, records, out)
}
