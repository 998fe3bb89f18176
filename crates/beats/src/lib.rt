// Bursts by arithmetic: the columns and cells of their beats, and the pairs that they keep, found by looking ahead.
#![tactic(auto)]

ghost use Rattle.std.specs.Prelude.{ℕ, Bool, ◌≡◌, true, false, cond, ◌+◌, ◌-◌, ◌*◌, ◌^◌, ◌%◌, ◌≤◌, ◌<◌, length, eqb};
ghost use Rattle.std.proofs.lemmas.List.Edits.{sets};
ghost use Rattle.reading.specs.Search.{lesser};
ghost use Rattle.reading.specs.Settings.{settings_of};
ghost use Rattle.reading.specs.Bursts.{column_of, beat_column};
ghost use Rattle.pins.specs.Pins.{code_of, bank_of, address_of, mode_after};
ghost use Rattle.beats.specs.Kept.{at, behind, names_bank, shuts_bank, cuts_burst, cut_ahead, next_leaves, takes_bank, row_leaves, interrupted_ahead, kept_whole};
ghost use Rattle.beats.specs.Ahead.{found, first_ahead, ends_row};
ghost use Rattle.beats.specs.Kept as is;
ghost use Rattle.beats.specs.Rows.{Sized, InRow, InBlock, place_in, first_in_row, first_cells, cells_opened, block_cells, beat_cells};

use capture::held::Events;
use deadlines::sums::{after2, data_after, past};
use settings::places::{COLUMN_BITS, EDITION, ROW_BITS, T_WR, T_WTR};
use settings::{Settings, mode};

// ---- what the pins of an event are to a burst

// With A10 high PRECHARGE names all banks.
fn names_bank(bank: usize, w: u32) -> bool
    ensures { result ≡ names_bank bank w }
{
    pins::ten(w) || bank == pins::bank(w)
}

// A PRECHARGE of the bank, or of all.
pub fn shuts_bank(bank: usize, w: u32) -> bool
    ensures { result ≡ shuts_bank bank w }
{
    pins::code(w) == pins::PRECHARGE && names_bank(bank, w)
}

fn cuts_burst(burst: u32, w: u32) -> bool
    ensures { result ≡ cuts_burst burst w }
{
    let asked = pins::code(w);
    if pins::code(burst) == pins::WRITE {
        return asked == pins::WRITE;
    }
    asked == pins::READ || asked == pins::TERMINATE || shuts_bank(pins::bank(burst), w)
}

// After these a PRECHARGE of the bank does nothing to a write that was given there before.
fn takes_bank(bank: usize, w: u32) -> bool
    ensures { result ≡ takes_bank bank w }
{
    let asked = pins::code(w);
    bank == pins::bank(w)
        && (asked == pins::ACTIVE || asked == pins::WRITE || asked == pins::READ && pins::ten(w))
}

// Any of these: the row of a write is not its own behind it.
fn ends_row(bank: usize, w: u32) -> bool
    ensures { result ≡ ends_row bank w }
{
    shuts_bank(bank, w) || takes_bank(bank, w)
}

// MODE REGISTER SET with 00 replaces the mode word at once.
pub fn mode_after(mode: u32, w: u32) -> u32
    ensures { result ≡ mode_after mode w }
{
    if pins::code(w) != pins::MODE_SET {
        return mode;
    }
    if pins::bank(w) != 0 {
        return mode;
    }
    pins::address(w)
}

// ---- columns and cells

fn power(bits: u32) -> u32
    requires { bits < 32 }
    ensures { result ≡ 2 ^ bits }
{
    1 << bits
}

// A0-A9, cut to the column bits; with 11 column bits, A11 is column bit 10.
pub fn column(s: &Settings, w: u32) -> u32
    requires { Sized (settings_of s.now) }
    ensures { result ≡ column_of (settings_of s.now) (address_of w) }
{
    let a = pins::address(w);
    (a % 1024 + 1024 * (a / 2048 % 2)) % power(s[COLUMN_BITS])
}

// The number of a row's first cell. A clause and no type for bank and row: five of six calls name them by numbers.
pub fn first_cell(s: &Settings, bank: u32, row: u32) -> u32
    requires { Sized (settings_of s.now) × ((bank < 4) × (row < 16384)) }
    ensures { result ≡ first_in_row (settings_of s.now) bank row }
{
    (bank * power(s[ROW_BITS]) + row) * power(s[COLUMN_BITS])
}

// The first cell of each bank's row, before any ACTIVE.
pub fn first_cells(s: &Settings) -> [u32; 4]
    requires { Sized (settings_of s.now) }
    ensures { result ≡ first_cells (settings_of s.now) 0 0 0 0 }
{
    [
        first_cell(s, 0, 0),
        first_cell(s, 1, 0),
        first_cell(s, 2, 0),
        first_cell(s, 3, 0),
    ]
}

// ACTIVE opens its bank on its row.
pub fn open_row(s: &Settings, firsts: &mut [u32; 4], w: u32)
    requires { Sized (settings_of s.now) }
    ensures { firsts.new ≡ cells_opened (settings_of s.now) firsts.old w }
{
    if pins::code(w) != pins::ACTIVE {
        return;
    }
    let bank = pins::bank(w);
    let row = pins::address(w);
    firsts[bank] = first_cell(s, bank as u32, row);
}

// The place of a beat in a block of some size, in either order.
#[inline(always)]
fn place(interleaved: bool, size: u32, column: u32, beat: u32) -> u32
    requires size_bound { (0 < size) × (size ≤ 128) }
    requires column_bound { (column < 2048) × (beat < 128) }
    ensures value { result ≡ place_in interleaved size column beat }
    ensures short { result < 128 }
{
    if interleaved {
        return column % size ^ beat;
    }
    (column + beat) % size
}

// Writes the cells of 2 x `pairs` beats from out[at] on; `block` is the first cell of their block.
fn write_cells(
    out: &mut [u32],
    at: usize,
    block: u32,
    interleaved: bool,
    size: u32,
    column: u32,
    pairs: u32,
)
    requires in_block { InBlock block size column pairs }
    requires pairs_in_bounds { at + 2 * pairs ≤ length out.old }
    ensures { out.new ≡ sets out.old at (block_cells interleaved block size column (2 * pairs)) }
{
    let cells = &mut out[at..at + 2 * (pairs as usize)];
    for (beat, cell) in cells.iter_mut().enumerate() {
        *cell = block + place(interleaved, size, column, beat as u32);
    }
}

// A burst: the first cell of its row, the mode word of its event, its column, and the pairs that it keeps in the end.
#[derive(Clone, Copy)]
pub struct Burst {
    pub writes: bool,
    pub first: u32,
    pub mode: u32,
    pub column: u32,
    pub pairs: u32,
    ghost in_row: { InRow first column pairs },
}

impl Burst {
    // Writes the cells of its beats from out[at] on.
    pub fn write(&self, out: &mut [u32], at: usize)
        requires { at + 2 * self.now.pairs ≤ length out.old }
        ensures { out.new ≡ sets out.old at (beat_cells self.now.first self.now.mode self.now.column (2 * self.now.pairs)) }
    {
        let length = mode::burst_length(self.mode);
        let block = self.first + self.column / length * length;
        let interleaved = mode::interleaved(self.mode);
        write_cells(out, at, block, interleaved, length, self.column, self.pairs);
    }

    // The cell of one beat.
    #[inline(always)]
    pub fn cell(&self, beat: u32) -> u32
        requires { beat < 128 }
        ensures { result ≡ self.now.first + beat_column self.now.mode self.now.column beat }
    {
        beat_cell(self.first, self.mode, self.column, beat)
    }
}

// The cell of one beat, in the row whose first cell is `first`. In place, what is the same for every beat is reckoned once.
#[inline(always)]
pub fn beat_cell(first: u32, mode: u32, column: u32, beat: u32) -> u32
    requires { (first < 2 ^ 27) × ((column < 2048) × (beat < 128)) }
    ensures { result ≡ first + beat_column mode column beat }
{
    let length = mode::burst_length(mode);
    let block = first + column / length * length;
    block + place(mode::interleaved(mode), length, column, beat)
}

// ---- kept pairs

// Cycle and pins of the first event behind event i, before cycle `end`, that the test names by its pins. The search
// begins behind an event, so it goes by number.
#[inline(always)]
fn first_ahead<F: Fn(u32) -> bool>(
    events: &Events<'_>,
    i: u32,
    end: u64,
    test: F,
) -> Option<(u32, u32)>
    requires within { i < events.now.count }
    requires each { (w : ℕ) → F.pre test w }
    ensures { (f : ℕ → Bool) → ((w : ℕ) (r : Bool) → F.post test w r → r ≡ f w) →
        found result ≡ first_ahead end f (behind events.now i) }
{
    let n = events.count;
    'later: for j in i + 1..n {
        let t = events.cycle(j);
        if past(end, t) {
            return None;
        }
        let w = events.pins(j);
        if test(w) {
            return Some((t, w));
        }
    }
    None
}

// The pairs of the burst at event i, by the events that can cut it: those before k + h. Cycles rise, so the first event
// that cuts it leaves it the fewest pairs.
fn look_ahead(events: &Events<'_>, i: u32, mode: u32) -> u32
    requires { i < events.now.count }
    ensures { result ≡ cut_ahead mode (at events.now i) (behind events.now i) }
{
    let burst = events.pins(i);
    let k = events.cycle(i);
    let half = mode::half(mode);
    let end = k + half;
    let Some((t, _)) = first_ahead(events, i, end as u64, |w| cuts_burst(burst, w)) else {
        return half;
    };
    t - k
}

// Of some pairs those before cycle t, the first of them at `from`. A cast, here and in the looks ahead: by `u64::from` their
// proofs do not close.
fn before(pairs: u32, t: u32, from: u64) -> u32
    ensures { result ≡ lesser pairs (t - from) }
{
    (pairs as u64).min((t as u64).saturating_sub(from)) as u32
}

// Of a write at event i that can be interrupted, the pairs that the first READ or WRITE behind it leaves. Far enough behind it
// none takes any.
fn next_leaves(s: &Settings, events: &Events<'_>, i: u32, pairs: u32) -> u32
    requires { i < events.now.count }
    ensures { result ≡ next_leaves (settings_of s.now) (at events.now i).cycle pairs (behind events.now i) }
{
    let k = events.cycle(i);
    let reach = data_after(k, pairs, s[T_WTR]);
    let Some((t, w)) = first_ahead(events, i, reach, |w| pins::gives_burst(w)) else {
        return pairs;
    };
    left_by(s, k, pairs, t, w)
}

fn left_by(s: &Settings, k: u32, pairs: u32, t: u32, w: u32) -> u32
    ensures { result ≡ lesser pairs (t - cond (eqb (code_of w) 10) (k + 1 + (settings_of s.now).t_wtr) k) }
{
    if pins::code(w) == pins::READ {
        return before(pairs, t, after2(k, 1, s[T_WTR]));
    }
    before(pairs, t, k as u64)
}

// The same of the first event that ends its row, or takes it.
fn row_leaves(s: &Settings, events: &Events<'_>, i: u32, pairs: u32) -> u32
    requires { i < events.now.count }
    ensures { result ≡ row_leaves (settings_of s.now) (bank_of (at events.now i).pins) (at events.now i).cycle pairs
        (behind events.now i) }
{
    let k = events.cycle(i);
    let bank = pins::bank(events.pins(i));
    let reach = data_after(k, pairs, s[T_WR]);
    let Some((t, w)) = first_ahead(events, i, reach, |w| ends_row(bank, w)) else {
        return pairs;
    };
    if shuts_bank(bank, w) {
        return before(pairs, t, after2(k, 1, s[T_WR]));
    }
    pairs
}

// In the newer edition READ and PRECHARGE interrupt a write without auto precharge.
pub fn interruptible(s: &Settings, w: u32) -> bool
    ensures { result ≡ is.interruptible (settings_of s.now) w }
{
    s[EDITION] == 1 && pins::code(w) == pins::WRITE && !pins::ten(w)
}

// The pairs that such a write of event i keeps in the end. In a clean capture it keeps one at least, so the search ends where
// one is left.
pub fn interrupted(s: &Settings, events: &Events<'_>, i: u32, mode: u32) -> u32
    requires within { i < events.now.count }
    requires bound { 1 ≤ interrupted_ahead (settings_of s.now) mode (at events.now i) (behind events.now i) }
    ensures { result ≡ interrupted_ahead (settings_of s.now) mode (at events.now i) (behind events.now i) }
{
    let half = mode::half(mode);
    if half == 1 {
        return half;
    }
    let next = next_leaves(s, events, i, half);
    if next == 1 {
        return next;
    }
    next.min(row_leaves(s, events, i, half))
}

// The pairs that the burst of event i keeps in the end, where it is none of these; none if the event gives no burst.
pub fn kept(events: &Events<'_>, i: u32, mode: u32) -> u32
    requires { i < events.now.count }
    ensures { result ≡ kept_whole mode (at events.now i) (behind events.now i) }
{
    let w = events.pins(i);
    if !pins::gives_burst(w) {
        return 0;
    }
    // before the test: the compiler puts the look ahead in place here, which needs it too
    let half = mode::half(mode);
    if pins::ten(w) {
        return half;
    }
    look_ahead(events, i, mode)
}
