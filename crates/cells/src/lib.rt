// The burst list: the cells of every kept beat of a clean capture, written into a lent buffer.
#![tactic(auto)]

pub mod held;

ghost use Rattle.std.specs.Prelude.{◌≡◌, Bool, true, false, cond, ◌+◌, ◌*◌, ◌≤◌, ◌<◌, eqb, length};
ghost use Rattle.std.proofs.lemmas.List.Edits.{sets};
ghost use Rattle.words.specs.Found.{place_of};
ghost use Rattle.reading.specs.Settings.{settings_of, newer};
ghost use Rattle.reading.specs.Bursts.{reads};
ghost use Rattle.reading.specs.Cells.{beats_by};
ghost use Rattle.reading.specs.Verdict.{verdict_of};
ghost use Rattle.reading.specs.Verdict as verdict;
ghost use Rattle.reading.specs.Answers.{verdict_in, cells_outcome, not_clean};
ghost use Rattle.refusal.specs.Refusal.{told};
ghost use Rattle.capture.specs.Calls.{Accepted};
ghost use Rattle.capture.specs.Holding.{Holds};
ghost use Rattle.pins.specs.Pins.{code_of};
ghost use Rattle.beats.specs.Kept.{at, behind, kept_of};
ghost use Rattle.beats.specs.Rows.{Sized};
ghost use Rattle.judge.specs.Meaning.{events_in};
ghost use Rattle.cells.specs.Meaning.{Listable, At, given_means, lacking_in, listing};
ghost use Rattle.cells.specs.Telling.{judged_by, bursts, cells, given, KeepsPair, Before};

use beats::Burst;
use capture::held::{Events, Opened};
use deadlines::sums;
use held::{Beats, Clean, State};
use judge::Verdict;
use refusal::Refusal;
use settings::Settings;
use settings::places::{EDITION, MODE};

// The first event that breaks a rule.
fn first_broken(opened: &Opened<'_>) -> Option<u32>
    requires { Listable opened.now.settings opened.now.events.bytes.now opened.now.events.count }
    ensures { place_of result ≡
        not_clean (verdict_of (settings_of opened.now.settings) (events_in opened.now.events.bytes.now opened.now.events.count)) }
{
    let s = &opened.settings;
    let events = opened.events;
    let mut deadlines = effects::start(s);
    let mut pace = sums::pace(s[MODE]);
    match judge::walk(s, &mut deadlines, &mut pace, events.bytes, events.count) {
        Verdict::Broken { event, .. } => Some(event),
        Verdict::Clean { .. } => None,
    }
}

// So many beats if the pins ask for the command, else none.
fn beats_by(w: u32, code: u32, beats: u32) -> u32
    ensures { result ≡ cond (eqb (code_of w) code) beats 0 }
{
    if pins::code(w) == code { beats } else { 0 }
}

// First cells and mode word behind event i, whatever it gives. It asks for no more than the event's own bytes.
pub fn passed(s: &Settings, bytes: &[u8], i: u32, state: &mut State)
    requires sized { Sized (settings_of s.now) × (8 * i + 8 ≤ length bytes.now) }
    requires at { At (settings_of s.now) bytes.now i state.old.firsts state.old.mode }
    ensures { At (settings_of s.now) bytes.now (i + 1) state.new.firsts state.new.mode }
{
    let word = capture::pins_at(bytes, i as usize);
    beats::open_row(s, &mut state.firsts, word);
    state.mode = beats::mode_after(state.mode, word);
}

// Walks over its events go by number: whoever asks for a burst looks ahead from its event.
impl<'a> Clean<'a> {
    // That of a capture that was judged clean.
    pub fn judged(capture: &'a [u8]) -> Clean<'a>
        requires accepted { Accepted capture.now }
        requires clean { verdict_in capture.now ≡ verdict.clean }
        ensures { Holds capture.now result.opened }
    {
        let bytes = capture::event_bytes(capture);
        let count = capture::event_count(capture);
        let opened = Opened {
            settings: capture::settings_in(capture),
            events: Events { bytes, count },
        };
        Clean { opened }
    }

    // First cells and mode word before the first event.
    pub fn start(&self) -> State
        ensures { Before self.now 0 result.firsts result.mode }
    {
        let firsts = beats::first_cells(&self.opened.settings);
        State {
            firsts,
            mode: self.opened.settings[MODE],
        }
    }

    // The pairs of event i; where NEWER is false, in edition 0. This, `step` and `burst_at` are put in place: a call of them costs
    // every event ten to fifty instructions (docs/DECISIONS.md, C19). That the constant fits the settings is a clause: a type
    // that says so would be built in `list` alone, and taken apart in each of these.
    #[inline(always)]
    fn pairs<const NEWER: bool>(&self, i: u32, mode: u32) -> u32
        requires within { i < self.now.opened.events.count }
        requires edition { NEWER ≡ false → newer (judged_by self.now) ≡ false }
        requires keeps_pair { KeepsPair self.now i mode }
        ensures { result ≡ kept_of (judged_by self.now) mode (at self.now.opened.events i) (behind self.now.opened.events i) }
    {
        let events = &self.opened.events;
        if NEWER && beats::interruptible(&self.opened.settings, events.pins(i)) {
            return beats::interrupted(&self.opened.settings, events, i, mode);
        }
        beats::kept(events, i, mode)
    }

    // The burst that event i gives, if it gives one; where NEWER is false, in edition 0. The mode word is handed over by itself:
    // beside first cells that are chosen by number it would be kept in memory, which costs the writing loop two instructions
    // an event.
    #[inline(always)]
    fn step<const NEWER: bool>(&self, i: u32, firsts: &[u32; 4], mode: u32) -> Option<Burst>
        requires within { i < self.now.opened.events.count }
        requires edition { NEWER ≡ false → newer (judged_by self.now) ≡ false }
        requires before { Before self.now i firsts.now mode }
        ensures { given_means result ≡ given self.now i }
    {
        let w = self.opened.events.pins(i);
        if !pins::gives_burst(w) {
            return None;
        }
        let bank = pins::bank(w);
        let pairs = self.pairs::<NEWER>(i, mode);
        Some(Burst {
            writes: pins::code(w) == pins::WRITE,
            first: firsts[bank],
            mode,
            column: beats::column(&self.opened.settings, w),
            pairs,
        })
    }

    // The same in any edition, for whoever walks over the events.
    #[inline(always)]
    pub fn burst_at(&self, i: u32, state: &State) -> Option<Burst>
        requires within { i < self.now.opened.events.count }
        requires before { Before self.now i state.now.firsts state.now.mode }
        ensures { given_means result ≡ given self.now i }
    {
        self.step::<true>(i, &state.firsts, state.mode)
    }

    // How many beats are read, and how many written: two for each pair that a burst keeps.
    pub fn kept_beats(&self) -> Beats
        ensures read_value { result.read ≡ beats_by reads (bursts self.now) }
        ensures written_value { result.written ≡ beats_by (λ x. x.writes) (bursts self.now) }
    {
        let mut mode = self.opened.settings[MODE];
        let mut read = 0;
        let mut written = 0;
        'events: for i in 0..self.opened.events.count {
            let w = self.opened.events.pins(i);
            let beats = 2 * self.pairs::<true>(i, mode);
            read += beats_by(w, pins::READ, beats);
            written += beats_by(w, pins::WRITE, beats);
            mode = beats::mode_after(mode, w);
        }
        Beats { read, written }
    }

    // The cells that are needed, where the buffer has room for fewer. Sixteen a command are enough, and then nothing is counted.
    fn lacking(&self, room: usize) -> Option<u32>
        ensures { place_of result ≡ lacking_in room (length (cells self.now)) }
    {
        if (16 * self.opened.events.count) as usize <= room {
            return None;
        }
        let kept = self.kept_beats();
        let cells = kept.read + kept.written;
        if room < cells as usize {
            return Some(cells);
        }
        None
    }

    // An event that gives no burst: ACTIVE opens its row; MODE REGISTER SET changes the mode word, which is answered.
    fn pass(&self, i: u32, firsts: &mut [u32; 4], mode: u32) -> u32
        requires within { i < self.now.opened.events.count }
        requires before { Before self.now i firsts.old mode }
        ensures { Before self.now (i + 1) firsts.new result }
    {
        let w = self.opened.events.pins(i);
        if pins::code(w) == pins::ACTIVE {
            beats::open_row(&self.opened.settings, firsts, w);
            return mode;
        }
        beats::mode_after(mode, w)
    }

    // Writes the cells from out[0] on, and says how many; where NEWER is false, in edition 0. There is a loop for each edition,
    // since a call of `interrupted` in a loop takes registers from every event (docs/DECISIONS.md, C19).
    fn write<const NEWER: bool>(&self, out: &mut [u32]) -> u32
        requires room { length (cells self.now) ≤ length out.old }
        requires edition { NEWER ≡ false → newer (judged_by self.now) ≡ false }
        ensures value { result ≡ length (cells self.now) }
        ensures out_after { out.new ≡ sets out.old 0 (cells self.now) }
    {
        let clean = *self;
        let State {
            mut firsts,
            mut mode,
        } = clean.start();
        let mut next: usize = 0;
        'bursts: for i in 0..clean.opened.events.count {
            let Some(burst) = clean.step::<NEWER>(i, &firsts, mode) else {
                mode = clean.pass(i, &mut firsts, mode);
                continue 'bursts;
            };
            burst.write(out, next);
            next += 2 * (burst.pairs as usize);
        }
        next as u32
    }
}

// Refusals 8 and 7, in this order; else the cells.
fn list(opened: &Opened<'_>, out: &mut [u32]) -> Result<u32, Refusal>
    requires { Listable opened.now.settings opened.now.events.bytes.now opened.now.events.count }
    ensures result_value { told (λ n. n) result ≡
        (listing (settings_of opened.now.settings) opened.now.events.bytes.now opened.now.events.count out.old).answer }
    ensures out_after { out.new ≡
        (listing (settings_of opened.now.settings) opened.now.events.bytes.now opened.now.events.count out.old).buffer }
{
    if let Some(event) = first_broken(opened) {
        return Err(Refusal::Broken(event));
    }
    let clean = Clean { opened: *opened };
    if let Some(cells) = clean.lacking(out.len()) {
        return Err(Refusal::Room(cells));
    }
    if opened.settings[EDITION] == 1 {
        return Ok(clean.write::<true>(out));
    }
    Ok(clean.write::<false>(out))
}

// The cells of the bursts in these bytes as a capture; what lies behind them in the buffer stays.
pub fn burst_cells(capture: &[u8], out: &mut [u32]) -> Result<u32, Refusal>
    ensures result_value { told (λ n. n) result ≡ (cells_outcome capture.now out.old).answer }
    ensures out_after { out.new ≡ (cells_outcome capture.now out.old).buffer }
{
    let opened = capture::open(capture)?;
    list(&opened, out)
}
