// The lines of the settings.
ghost use Rattle.std.specs.Prelude.{◌≡◌, ◌≤◌};
ghost use Rattle.reading.specs.Settings.{settings_of, newer as is_newer};
ghost use Rattle.wording.specs.Values.{shown, is_sleeping};

use console::Out;
use settings::places::{EDITION, MODE, T_RAS, T_RC, T_RP, T_XP};
use settings::{COUNT, HELD, SLEEPING, Settings, mode};

// The names of the settings, in their order.
const NAMES: [&str; SLEEPING] = [
    "lane code",
    "row bits",
    "column bits",
    "mode word",
    "tRCD",
    "tRP",
    "tRAS",
    "tRC",
    "tRRD",
    "tWR",
    "tWTR",
    "tRFC",
    "tMRD",
    "tREFI",
    "tXP",
    "tXSR",
];

// The settings and the edition; zeros where there is no room for them, as in no capture whose settings were looked at.
pub fn settings_of(capture: &[u8]) -> Settings
    ensures { result ≡ shown capture.now }
{
    if capture.len() < capture::EVENTS {
        return [0; HELD];
    }
    if capture.len() < capture::events_start(capture) as usize {
        return [0; HELD];
    }
    capture::settings_in(capture)
}

fn print_setting(out: &mut Out, i: usize, name: &str, word: u32) {
    if i == MODE {
        write!(out, "setting {i} {name} {word:#04x}");
    } else {
        write!(out, "setting {i} {name} {word}");
    }
}

fn print_mode(out: &mut Out, mode: u32) {
    let order = if mode::interleaved(mode) {
        "interleaved"
    } else {
        "sequential"
    };
    write!(
        out,
        ", burst length {}, {order}, CAS latency {}",
        mode::burst_length(mode),
        mode::latency(mode)
    );
}

// No capture with sleep has a tXP of 0.
pub fn sleeps(settings: &Settings) -> bool
    ensures { result ≡ is_sleeping (settings_of settings.now) }
{
    settings[T_XP] != 0
}

// The edition of the newer sheets.
pub fn newer(settings: &Settings) -> bool
    ensures { result ≡ is_newer (settings_of settings.now) }
{
    settings[EDITION] == 1
}

fn shown_count(settings: &Settings) -> usize
    ensures { result ≤ 16 }
{
    if sleeps(settings) { SLEEPING } else { COUNT }
}

pub fn print_settings(out: &mut Out, settings: &Settings) {
    let named = NAMES.iter().zip(settings).take(shown_count(settings));
    for (i, (name, word)) in named.enumerate() {
        print_setting(out, i, name, *word);
        if i == MODE {
            print_mode(out, *word);
        }
        writeln!(out);
    }
    if newer(settings) {
        writeln!(out, "edition 1: READ and PRECHARGE may cut a write short");
    }
}

fn print_contradiction(out: &mut Out, settings: &Settings) {
    writeln!(
        out,
        "settings 5, 6 and 7 contradict each other: tRC ({}) is above tRAS ({}) + tRP ({})",
        settings[T_RC], settings[T_RAS], settings[T_RP]
    );
}

// The setting that was refused; a tRC in its range was refused because of tRAS and tRP.
pub fn print_refused(out: &mut Out, capture: &[u8], i: u32) {
    let settings = settings_of(capture);
    let i = i as usize;
    if SLEEPING <= i {
        return;
    }
    print_setting(out, i, NAMES[i], settings[i]);
    writeln!(out);
    if i == T_RC && settings::setting_fits(T_RC, settings[T_RC]) {
        print_contradiction(out, &settings);
    }
}
