// The openings of the banks of a clean capture: how many each has, their words for the index, and how a bank stands after an
// event. A row is open from its ACTIVE on, until a PRECHARGE or auto precharge closes its bank.
#![tactic(auto)]

ghost use Rattle.std.specs.Prelude.{◌≡◌, [], ◌∷◌, ◌+◌, ◌*◌, ◌≤◌, ◌<◌, length};
ghost use Rattle.std.proofs.lemmas.List.Edits.{sets};
ghost use Rattle.reading.specs.Capture.{capture_size, count_in, event_count};
ghost use Rattle.reading.specs.Openings.{opening_words};
ghost use Rattle.rows.specs.Walks.{opens_bank, closes_bank, Room, none_yet, noted_pins, tallied_from, stood_of, stand_after, Begun, ended, ended_by, events_among, opened_by, opened_by_all};

use browser::Stated;

// How many openings each bank has.
#[derive(Clone, Copy)]
pub struct Tally {
    pub counts: [u32; 4],
}

// A row that stands open, and the event since which it does. A bank without one is idle.
#[derive(Clone, Copy, Debug, PartialEq, Eq)]
pub struct OpenRow {
    pub row: u32,
    pub first: u32,
}

// ---- how many there are

fn none_yet() -> Tally
    ensures { result ≡ none_yet }
{
    Tally { counts: [0; 4] }
}

// One more of its bank, if it is an ACTIVE.
fn noted_pins(t: Tally, w: u32) -> Tally
    requires { Room t }
    ensures { result ≡ noted_pins t w }
{
    if pins::code(w) != pins::ACTIVE {
        return t;
    }
    let bank = pins::bank(w);
    let mut counts = t.counts;
    let before = counts[bank];
    counts[bank] = before + 1;
    Tally { counts }
}

// The openings of the first n events, whatever the header states: a walk with a reader in its hand.
pub fn count(capture: &[u8], n: u32) -> Tally
    requires { capture_size (count_in capture.now) (event_count capture.now) ≤ length capture.now }
    ensures { result ≡ tallied_from capture.now none_yet 0 n }
{
    let mut t = none_yet();
    for event in browser::start(capture).take(n as usize) {
        t = noted_pins(t, event.pins);
    }
    t
}

// ---- what an event does to a bank

fn opens(bank: usize, w: u32) -> bool
    ensures { result ≡ opens_bank bank w }
{
    if pins::code(w) != pins::ACTIVE {
        return false;
    }
    bank == pins::bank(w)
}

// A PRECHARGE of the bank or of all, or READ or WRITE of it with auto precharge.
fn closes(bank: usize, w: u32) -> bool
    ensures { result ≡ closes_bank bank w }
{
    if beats::shuts_bank(bank, w) {
        return true;
    }
    if !pins::gives_burst(w) {
        return false;
    }
    if bank != pins::bank(w) {
        return false;
    }
    pins::ten(w)
}

// How the bank stands after event i.
fn stood(x: Option<OpenRow>, bank: usize, i: u32, w: u32) -> Option<OpenRow>
    ensures { result ≡ stood_of bank x i w }
{
    if opens(bank, w) {
        let row = pins::address(w);
        return Some(OpenRow { row, first: i });
    }
    if closes(bank, w) {
        return None;
    }
    x
}

// How it stands after the first n events: here and below n is asked to be no more than there are, as where a slice is cut.
// The walk asks for their numbers: one of them is where the row was opened.
pub fn stands(events: &Stated, bank: usize, n: u32) -> Option<OpenRow>
    requires { n ≤ events.now.count }
    ensures { result ≡ stand_after bank (events_among events.now.bytes.now n) }
{
    let mut x = None;
    for i in 0..n {
        x = stood(x, bank, i, capture::pins_at(events.bytes, i as usize));
    }
    x
}

// ---- the words of the index

fn write_opening(index: &mut [u32], next: usize, row: u32, first: u32, last: u32)
    requires { next + 3 ≤ length index.old }
    ensures { index.new ≡ sets index.old next (row ∷ first ∷ last ∷ []) }
{
    index[next] = row;
    index[next + 1] = first;
    index[next + 2] = last;
}

// The opening that event `end` ends, if the bank was open, and where the next is written.
fn write_ended(index: &mut [u32], next: usize, x: Option<OpenRow>, end: u32) -> usize
    requires { Begun x end × (next + 3 * length (ended x end) ≤ length index.old) }
    ensures value { result ≡ next + 3 * length (ended x end) }
    ensures index_after { index.new ≡ sets index.old next (opening_words (ended x end)) }
{
    let Some(open) = x else {
        return next;
    };
    write_opening(index, next, open.row, open.first, end - 1);
    next + 3
}

// The same of event i, if it closes the bank.
fn write_closed(
    index: &mut [u32],
    next: usize,
    x: Option<OpenRow>,
    bank: usize,
    i: u32,
    w: u32,
) -> usize
    requires { Begun x i × (next + 3 * length (ended_by bank x i w) ≤ length index.old) }
    ensures value { result ≡ next + 3 * length (ended_by bank x i w) }
    ensures index_after { index.new ≡ sets index.old next (opening_words (ended_by bank x i w)) }
{
    if !closes(bank, w) {
        return next;
    }
    write_ended(index, next, x, i)
}

// The openings of a bank, from index[from] on, and where the next bank's are written. The walk asks for the events' numbers: the
// index tells them.
fn write_bank(events: &Stated, n: u32, bank: usize, index: &mut [u32], from: usize) -> usize
    requires there { n ≤ events.now.count }
    requires n_in_bounds { from + 3 * length (opened_by bank (events_among events.now.bytes.now n)) ≤ length index.old }
    ensures value { result ≡ from + 3 * length (opened_by bank (events_among events.now.bytes.now n)) }
    ensures index_after { index.new ≡ sets index.old from (opening_words (opened_by bank (events_among events.now.bytes.now n))) }
{
    let mut x = None;
    let mut next = from;
    for i in 0..n {
        let w = capture::pins_at(events.bytes, i as usize);
        next = write_closed(index, next, x, bank, i, w);
        x = stood(x, bank, i, w);
    }
    write_ended(index, next, x, n)
}

// All of them, bank 0's first: by number, which says what pins name a bank.
pub fn write(events: &Stated, n: u32, index: &mut [u32])
    requires there { n ≤ events.now.count }
    requires n_in_bounds { 3 * length (opened_by_all (events_among events.now.bytes.now n)) ≤ length index.old }
    ensures { index.new ≡ sets index.old 0 (opening_words (opened_by_all (events_among events.now.bytes.now n))) }
{
    let mut next = 0;
    for bank in 0..4 {
        next = write_bank(events, n, bank, index, next);
    }
}
