// The front of a capture that is written: header and settings.
ghost use Rattle.std.specs.Prelude.{◌≡◌, ◌++◌, ◌≤◌, length};
ghost use Rattle.std.proofs.lemmas.List.Edits.{sets};
ghost use Rattle.reading.specs.Words.{bytes_of};
ghost use Rattle.reading.specs.Settings.{settings_count};
ghost use Rattle.reading.specs.Capture.{most_events, capture_size};
ghost use Rattle.reading.specs.Schedule.{header_of};
ghost use Rattle.capture.specs.Meaning.{Fronted};

use crate::{EVENTS, SETTINGS};
use settings::COUNT;

// How many settings there are, where they start and where the events do, as header words.
const STATED: u32 = COUNT as u32;

const FIRST_SETTING: u32 = SETTINGS as u32;

const FIRST_EVENT: u32 = EVENTS as u32;

// The bytes of a capture of n events.
pub fn size(n: u32) -> u32
    requires { n ≤ most_events }
    ensures { result ≡ capture_size settings_count n }
{
    FIRST_EVENT + 8 * n
}

// Stores header and settings of a capture of n events; every byte behind them stays.
pub fn put(settings: &[u32], edition: u32, n: u32, out: &mut [u8])
    requires { Fronted settings.now n out.old }
    ensures { out.new ≡
        sets out.old 0 (bytes_of (header_of edition (length settings.now) n ++ settings.now)) }
{
    let head = [size(n), STATED, FIRST_SETTING, n, FIRST_EVENT, edition];
    words::put_words(out, 0, &head);
    words::put_words(out, SETTINGS, settings);
}
