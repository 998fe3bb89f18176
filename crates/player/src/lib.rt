// The bench player: a clean capture played against a window of lent cells. It knows the judge, the bursts and their cells by
// what these promise, and no rule, step or deadline.
#![tactic(auto)]

ghost use Rattle.std.specs.Prelude.{◌≡◌, true, map, ◌+◌, ◌*◌, ◌%◌, ◌^◌, ◌≤◌, ◌<◌, length};
ghost use Rattle.std.proofs.Math.Option.{none};
ghost use Rattle.std.proofs.lemmas.List.Edits.{sets};
ghost use Rattle.reading.specs.Search.{count, every};
ghost use Rattle.reading.specs.Settings.{settings_of};
ghost use Rattle.reading.specs.Memory.{merged};
ghost use Rattle.reading.specs.Player.{window_fits, in_window, datum_at, data_of, unplayable, played_on, playing, plays, play_outcome};
ghost use Rattle.refusal.specs.Refusal.{told};
ghost use Rattle.judge.specs.Meaning.{events_in};
ghost use Rattle.beats.specs.Rows.{Sized, beat_cells};
ghost use Rattle.cells.specs.Meaning.{given_means};
ghost use Rattle.cells.specs.Telling.{judged_by, bursts, given, Before};
ghost use Rattle.player.specs.Playing.{datum, laned, lanes_by, cell_of, cells_of, stored_from, shown_at, words_read, Coded, tried};

use beats::Burst;
use cells::held::{Clean, State};
use judge::Verdict;
use refusal::Refusal;
use settings::places::LANE;
use settings::{Settings, mode};

// The most words that a window may have.
pub const MOST_WINDOW: usize = 16_384;

// ---- words and their lanes: a lane of the new word where its mask bit is 0

fn lane<const K: u32>(old: u32, word: u32, mask: u32) -> u32
    requires { K < 4 }
    ensures { result ≡ laned K old word mask }
{
    if mask / (1 << K) % 2 != 0 {
        return old;
    }
    let unit = 1 << (8 * K);
    (old / unit / 256 * 256 + word / unit % 256) * unit + old % unit
}

// The lanes that the lane code has; above them a word stays.
fn merge(code: u32, old: u32, word: u32, mask: u32) -> u32
    ensures { result ≡ merged (lanes_by code) (datum word mask) old }
{
    let low = lane::<1>(lane::<0>(old, word, mask), word, mask);
    if code == 1 {
        return low;
    }
    lane::<3>(lane::<2>(low, word, mask), word, mask)
}

// A word as it is read: above its lanes there are zeros.
fn shown(lane: u32, word: u32) -> u32
    ensures { result ≡ word % 2 ^ (8 * lanes_by lane) }
{
    if lane == 1 {
        return word % 65536;
    }
    word
}

// ---- the window

// It is not too large, and does not leave the part. Casts: by `u64::from` the proof does not close.
fn window_fits(s: &Settings, first: u32, size: usize) -> bool
    requires { Sized (settings_of s.now) }
    ensures { result ≡ window_fits (settings_of s.now) first size }
{
    if MOST_WINDOW < size {
        return false;
    }
    let bank = beats::first_cell(s, 1, 0);
    (first as u64) + (size as u64) <= 4 * (bank as u64)
}

fn holds(first: u32, size: usize, cell: u32) -> bool
    ensures { result ≡ in_window first size cell }
{
    if cell < first {
        return false;
    }
    ((cell - first) as usize) < size
}

// It holds the cells of a burst's beats. Here and below the burst is copied, to be kept in registers, and a loop goes
// by the number of the beat, since its cell and its words are told by that.
fn holds_burst(first: u32, size: usize, burst: &Burst) -> bool
    ensures { result ≡ every (in_window first size) (cells_of burst.now) }
{
    let own = *burst;
    'beats: for beat in 0..2 * own.pairs {
        if holds(first, size, own.cell(beat)) {
            continue 'beats;
        }
        return false;
    }
    true
}

// Stores the words of a burst's beats, from word and mask number `taken` on.
fn store(window: &mut [u32], first: u32, lane: u32, burst: &Burst, writes: &[u32], taken: usize)
    requires inside { every (in_window first (length window.old)) (cells_of burst.now) ≡ true }
    requires supplied { 2 * (taken + 2 * burst.now.pairs) ≤ length writes.now }
    ensures { window.new ≡ stored_from (lanes_by lane) first (cell_of burst.now) (λ j. datum_at writes.now (taken + j)) (2 * burst.now.pairs) 0
        window.old }
{
    let own = *burst;
    for beat in 0..2 * own.pairs {
        let at = (own.cell(beat) - first) as usize;
        let pair = 2 * (taken + beat as usize);
        window[at] = merge(lane, window[at], writes[pair], writes[pair + 1]);
    }
}

// Reads the words of a burst's beats, to reads[next] and behind it.
fn fetch(reads: &mut [u32], next: usize, window: &[u32], first: u32, lane: u32, burst: &Burst)
    requires inside { every (in_window first (length window.now)) (cells_of burst.now) ≡ true }
    requires room { next + 2 * burst.now.pairs ≤ length reads.old }
    ensures { reads.new ≡ sets reads.old next
        (map (λ j. shown_at lane first window.now (cell_of burst.now j)) (count 0 (2 * burst.now.pairs))) }
{
    let mut to = next;
    let own = *burst;
    for beat in 0..2 * own.pairs {
        let at = (own.cell(beat) - first) as usize;
        reads[to] = shown(lane, window[at]);
        to += 1;
    }
}

// ---- the two walks. Each goes by the events' numbers: a burst is asked for by that of its event, and a refusal
// tells it. They are two loops: one walk that is lent what to do with a burst is no plainer, since each carries other
// things along, and says what they are behind each event. Window and first cell come apart, as the caller lends them.

// The burst that event i gives, if it gives one; first cells and mode word go on behind the event.
#[inline(always)]
fn turn(clean: &Clean<'_>, i: u32, state: &mut State) -> Option<Burst>
    requires within { i < clean.now.opened.events.count }
    requires before { Before clean.now i state.old.firsts state.old.mode }
    ensures given_value { given_means result ≡ given clean.now i }
    ensures behind { Before clean.now (i + 1) state.new.firsts state.new.mode }
{
    let Some(burst) = clean.burst_at(i, state) else {
        cells::passed(&clean.opened.settings, clean.opened.events.bytes, i, state);
        return None;
    };
    Some(burst)
}

// Refusal 15 by the lowest event, or how many words are read; `supply` words have a mask.
fn attempt(clean: &Clean<'_>, first: u32, size: usize, supply: usize) -> Result<u32, Refusal>
    ensures { told (λ n. n) result ≡
        tried (judged_by clean.now) (events_in clean.now.opened.events.bytes.now clean.now.opened.events.count) first size supply 0 (bursts clean.now) }
{
    let mut state = clean.start();
    let mut left = supply;
    let mut read: u32 = 0;
    'events: for i in 0..clean.opened.events.count {
        let Some(burst) = turn(clean, i, &mut state) else {
            continue 'events;
        };
        if !holds_burst(first, size, &burst) {
            return Err(Refusal::Window(i));
        }
        if !burst.writes {
            read += 2 * burst.pairs;
            continue 'events;
        }
        let length = mode::burst_length(burst.mode) as usize;
        if left < length {
            return Err(Refusal::Window(i));
        }
        left -= length;
    }
    Ok(read)
}

// Plays what can be played, where there is room for the words that are read.
fn run(clean: &Clean<'_>, first: u32, window: &mut [u32], writes: &[u32], reads: &mut [u32])
    requires coded { Coded (judged_by clean.now) }
    requires playable { unplayable (judged_by clean.now) first (length window.old) (length (data_of writes.now)) (bursts clean.now) ≡ none }
    requires room { words_read (bursts clean.now) ≤ length reads.old }
    ensures window_after { window.new ≡ map
        (played_on (judged_by clean.now) (events_in clean.now.opened.events.bytes.now clean.now.opened.events.count) first window.old writes.now).contents
        (count first (length window.old)) }
    ensures reads_after { reads.new ≡ sets reads.old 0
        (played_on (judged_by clean.now) (events_in clean.now.opened.events.bytes.now clean.now.opened.events.count) first window.old writes.now).returned }
{
    let lane = clean.opened.settings[LANE];
    let mut state = clean.start();
    let mut taken: usize = 0;
    let mut next: usize = 0;
    'events: for i in 0..clean.opened.events.count {
        let Some(burst) = turn(clean, i, &mut state) else {
            continue 'events;
        };
        if burst.writes {
            store(window, first, lane, &burst, writes, taken);
            taken += mode::burst_length(burst.mode) as usize;
            continue 'events;
        }
        fetch(reads, next, window, first, lane, &burst);
        next += 2 * (burst.pairs as usize);
    }
}

// ---- the call

// Refusals 15 and 7, in this order; else the play. Out of `play`, so that its frame does not lie below the judging.
#[inline(never)]
fn play_on(
    clean: &Clean<'_>,
    first: u32,
    window: &mut [u32],
    writes: &[u32],
    reads: &mut [u32],
) -> Result<u32, Refusal>
    requires { Coded (judged_by clean.now) }
    ensures result_value { told (λ n. n) result ≡ (plays first window.old reads.old
        (playing (judged_by clean.now) (events_in clean.now.opened.events.bytes.now clean.now.opened.events.count) first window.old writes.now
        (length reads.old))).answer }
    ensures window_after { window.new ≡ (plays first window.old reads.old
        (playing (judged_by clean.now) (events_in clean.now.opened.events.bytes.now clean.now.opened.events.count) first window.old writes.now
        (length reads.old))).window }
    ensures reads_after { reads.new ≡ (plays first window.old reads.old
        (playing (judged_by clean.now) (events_in clean.now.opened.events.bytes.now clean.now.opened.events.count) first window.old writes.now
        (length reads.old))).reads }
{
    if !window_fits(&clean.opened.settings, first, window.len()) {
        return Err(Refusal::Window(0));
    }
    let read = attempt(clean, first, window.len(), writes.len() / 2)?;
    if reads.len() < read as usize {
        return Err(Refusal::Room(read));
    }
    run(clean, first, window, writes, reads);
    Ok(read)
}

// These bytes as a capture, played on the window from cell `first` on with the words and masks of `writes`.
pub fn play(
    capture: &[u8],
    first: u32,
    window: &mut [u32],
    writes: &[u32],
    reads: &mut [u32],
) -> Result<u32, Refusal>
    ensures result_value { told (λ n. n) result ≡ (play_outcome capture.now first window.old writes.now reads.old).answer }
    ensures window_after { window.new ≡ (play_outcome capture.now first window.old writes.now reads.old).window }
    ensures reads_after { reads.new ≡ (play_outcome capture.now first window.old writes.now reads.old).reads }
{
    match judge::judge(capture)? {
        Verdict::Broken { event, .. } => Err(Refusal::Broken(event)),
        Verdict::Clean { .. } => play_on(&Clean::judged(capture), first, window, writes, reads),
    }
}
