// An export of the handheld analyser as a capture on standard output. Its settings and its edition are those of another
// capture, of which header and settings alone are looked at. What is refused has no output: that is told on standard error,
// so that it is never taken for a capture.
#![tactic(auto)]

ghost use Rattle.std.specs.Prelude.{◌≤◌, length, IfOk};

use console::program::{Program, Source};
use console::{Failure, arguments, program, read_input};
use settings::COUNT;
use settings::places::EDITION;

const FROM_EXPORT: Program<'static> = Program {
    name: b"from_export",
    help: b"usage: from_export SETTINGS [FILE]

Writes the records of a handheld analyser to standard output as a capture of a
Mobile DDR bus. SETTINGS is a capture of fourteen settings: header and settings
are read, which are its first 80 bytes, and what follows may be anything. What
is refused has no output, and standard error says `refused NUMBER place PLACE`.
",
    undone: b"nothing was written",
    option: None,
    names: 2,
};

// Header and settings of a capture, and eight bytes behind them: those of sixteen settings have room too.
const FRONT: usize = capture::EVENTS + 8;

// One record more than there may be, so that a longer export is seen to have too many.
const RECORDS: usize = exports::LONGEST + exports::RECORD;

// So often is the rest of an export that is too long read, a longest export at a time; no file is so long. Rounds are
// counted, since every loop has to end.
const ROUNDS: u64 = 0x1_0000_0000;

// These records under the settings and the edition of a capture that begins so.
fn convert(rt: &HostRuntime, front: &[u8; FRONT], records: &[u8]) {
    let held = capture::settings_in(front);
    let edition = held[EDITION];
    let mut room = [0u8; exports::LONGEST_READ];
    match exports::read(records, &held[..COUNT], edition, &mut room) {
        Ok(bytes) => FROM_EXPORT.write(rt, &room[..bytes as usize]),
        Err(refusal) => FROM_EXPORT.refuse(rt, refusal),
    }
}

// ---- an export that has too many records

// How many bytes more there are, a longest export at most, of which nothing is kept.
fn passed(from: &mut Source) -> Result<usize, Failure> {
    let mut room = [0u8; exports::LONGEST];
    read_input(from, &mut room)
}

// Whether what lies behind the records that are kept ends with a record: whether the length of the whole is a multiple of six.
fn ends_whole(from: &mut Source) -> Result<bool, Failure> {
    for round in 0..ROUNDS {
        let size = passed(from)?;
        if size % exports::RECORD != 0 {
            return Ok(false);
        }
        if size < exports::LONGEST {
            return Ok(true);
        }
    }
    Ok(true)
}

// Those of the bytes that were read that tell what the whole export tells: all, or where there are too many records and it does not
// end with one, a byte less.
fn told<'r>(records: &'r [u8], from: &mut Source) -> Result<&'r [u8], Failure>
    ensures { IfOk result (λ told. length told.now ≤ 48006) }
{
    if records.len() < RECORDS {
        return Ok(records);
    }
    let end = if ends_whole(from)? {
        RECORDS
    } else {
        RECORDS - 1
    };
    Ok(&records[..end])
}

// The records of an export, or of one that is too long as many as show that.
fn read_records<'r>(from: &mut Source, room: &'r mut [u8; RECORDS]) -> Result<&'r [u8], Failure> {
    let room = &mut room[..];
    let size = read_input(from, room)?;
    told(&room[..size], from)
}

// The export that an argument names, under the settings and the edition of a capture that begins so.
fn run(rt: &HostRuntime, front: &[u8; FRONT], export: Option<usize>) {
    let Some(mut from) = FROM_EXPORT.open(rt, export) else {
        return;
    };
    let mut room = [0u8; RECORDS];
    match read_records(&mut from, &mut room) {
        Ok(records) => convert(rt, front, records),
        Err(why) => FROM_EXPORT.complain_unread(rt, &from, why),
    }
}

// ---- the settings

// Whether these bytes begin a capture of fourteen settings: how many there are, and where they and the events start. Its
// length and its count of events are not looked at.
fn begins_capture(front: &[u8; FRONT]) -> bool {
    words::word_at(front, 4) == COUNT as u32
        && words::word_at(front, 8) == capture::SETTINGS as u32
        && words::word_at(front, 16) == capture::EVENTS as u32
}

// Whether an argument names a file that begins such a capture; if not, that is told.
fn read_front(rt: &HostRuntime, place: Option<usize>, front: &mut [u8; FRONT]) -> bool {
    let Some(read) = FROM_EXPORT.read(rt, place, front) else {
        return false;
    };
    let long = capture::EVENTS <= read.len();
    if !long || !begins_capture(front) {
        let shown = place.filter(|_| !program::standard(rt, place));
        FROM_EXPORT.complain_of(rt, shown, b" is no capture of fourteen settings");
        return false;
    }
    true
}

fn main(rt: HostRuntime) {
    if !FROM_EXPORT.begin(&rt) {
        return;
    }
    let settings = arguments::name(&rt, 0);
    let export = arguments::name(&rt, 1);
    if program::standard(&rt, settings) && program::standard(&rt, export) {
        FROM_EXPORT.complain_of(&rt, None, b" cannot be both files, see --help");
        return;
    }
    let mut front = [0u8; FRONT];
    if read_front(&rt, settings, &mut front) {
        run(&rt, &front, export);
    }
}
