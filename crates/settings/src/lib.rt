// The settings of a board: their places, their limits, and the list of words that holds them.
#![tactic(auto)]

pub mod mode;
pub mod places;

ghost use Rattle.std.specs.Prelude.{◌≡◌, ◌≤◌, ◌<◌, length};
ghost use Rattle.words.specs.Found.{place_of};
ghost use Rattle.refusal.specs.Refusal.{passed};
ghost use Rattle.reading.specs.Mode.{mode_word};
ghost use Rattle.reading.specs.Settings.{setting_fits};
ghost use Rattle.settings.specs.Meaning.{checked, bad_among};

use places::{T_RAS, T_RC, T_RP};
use refusal::Refusal;

// How many settings there are, and how many with those of sleep.
pub const COUNT: usize = 14;

pub const SLEEPING: usize = 16;

// All of them, those of sleep 0 where there is none, and behind them the edition by which a board is judged.
pub const HELD: usize = SLEEPING + 1;

pub type Settings = [u32; HELD];

// The least and the most that a setting may be.
#[derive(Clone, Copy)]
struct Limits(u32, u32);

const LIMITS: [Limits; SLEEPING] = [
    Limits(1, 2), // lane code
    Limits(12, 14), // row bits
    Limits(8, 11), // column bits
    Limits(0, 127), // mode word
    Limits(1, 10_000), // tRCD
    Limits(1, 10_000), // tRP
    Limits(1, 10_000), // tRAS
    Limits(1, 10_000), // tRC
    Limits(1, 10_000), // tRRD
    Limits(1, 10_000), // tWR
    Limits(1, 10_000), // tWTR
    Limits(1, 10_000), // tRFC
    Limits(1, 10_000), // tMRD
    Limits(1, 1_000_000), // tREFI
    Limits(1, 10_000), // tXP
    Limits(1, 10_000), // tXSR
];

// Rule 2's test of a mode word.
pub fn mode_word(w: u32) -> bool
    ensures { result ≡ mode_word w }
{
    let length = w % 8;
    let latency = mode::latency(w);
    1 <= length && length <= 4 && 2 <= latency && latency <= 3 && w < 128
}

// Word w may be setting i.
pub fn setting_fits(i: usize, w: u32) -> bool
    requires { i < 16 }
    ensures { result ≡ setting_fits i w }
{
    let row = LIMITS[i];
    if w < row.0 {
        return false;
    }
    if row.1 < w {
        return false;
    }
    if i == places::MODE {
        return mode_word(w);
    }
    true
}

// The lowest of n settings that is out of its row's limits or no mode word; where all fit, a tRC above tRAS + tRP. A rule of the
// project: one walk over the constant table. It goes by number, which names the row and is the place that is answered; n comes
// apart, since the words behind the settings are held too.
pub fn lowest_bad(words: &[u32], n: usize) -> Option<u32>
    requires { (14 ≤ n) × (n ≤ 16) × (n ≤ length words.now) }
    ensures { place_of result ≡ bad_among words.now n }
{
    'settings: for i in 0..n {
        if setting_fits(i, words[i]) {
            continue 'settings;
        }
        return Some(i as u32);
    }
    if words[T_RAS] + words[T_RP] < words[T_RC] {
        return Some(T_RC as u32);
    }
    None
}

// Refusals 2 and 3 of a list of settings.
pub fn check(words: &[u32]) -> Result<(), Refusal>
    ensures { passed result ≡ checked words.now }
{
    if words.len() != COUNT {
        return Err(Refusal::Header);
    }
    let Some(place) = lowest_bad(words, COUNT) else {
        return Ok(());
    };
    Err(Refusal::Setting(place))
}
