// Schedules of small and of the longest lists, by both row policies, each judged by the judge: case m of document 01 ("01"
// below), and lists whose schedules are worked out beside them, for 01's settings: tRCD 3, tRP 3, tRAS 7, tRC 10, tRFC 12,
// bursts of 2 pairs.
#![tactic(auto)]

use console::Out;
use judge::Verdict;
use refusal::Refusal;
use schedule::{CLOSED_ROWS, OPEN_ROWS};

// A request to write, to which the cell is added.
const WRITE: u32 = 0x8000_0000;

// The first cell of bank 1, with 13 row bits and 10 column bits.
const BANK_1: u32 = 8_388_608;

// The requests of case m.
const CASE_M: [u32; 4] = [5, WRITE | BANK_1, 5, BANK_1];

const TEN_TIMES_M: [[u32; 4]; 10] = [CASE_M; 10];

// The settings of 01's cases but for tREFI.
fn settings(refi: u32) -> [u32; settings::COUNT] {
    [1, 13, 10, 0x32, 3, 3, 7, 10, 2, 3, 1, 12, 2, refi]
}

fn load(capture: &[u8], at: u32) -> u32 {
    let place = at as usize;
    if capture.len() < 4 {
        return 0;
    }
    if capture.len() - 4 < place {
        return 0;
    }
    words::word_at(capture, place)
}

// ---- lines

// A PRECHARGE of all banks has A10 high and every other address pin low.
fn command(pins: u32) -> &'static str {
    match pins::code(pins) {
        pins::ACTIVE => "ACTIVE",
        pins::READ => "READ",
        pins::WRITE => "WRITE",
        pins::PRECHARGE if pins::address(pins) == 1_024 => "PRECHARGE all",
        pins::PRECHARGE => "PRECHARGE",
        pins::REFRESH => "AUTO REFRESH",
        _ => "WRONG",
    }
}

fn print_event(to: &mut Out, capture: &[u8], i: u32) {
    if 8_000 < i {
        return;
    }
    let cycle = load(capture, 80 + 8 * i);
    let pins = load(capture, 84 + 8 * i);
    write!(to, "{} {cycle}", command(pins));
}

// The first nine events, by their numbers, as each is printed by its number.
fn print_events(to: &mut Out, capture: &[u8]) {
    for i in 0..load(capture, 12).min(9) {
        write!(to, ", ");
        print_event(to, capture, i);
    }
}

// The last event, if the first nine are not all.
fn print_last(to: &mut Out, capture: &[u8]) {
    let n = load(capture, 12);
    if n <= 9 || 8_000 < n {
        return;
    }
    write!(to, " .. ");
    print_event(to, capture, n - 1);
}

fn print_judged(to: &mut Out, capture: &[u8]) {
    match judge::judge(capture) {
        Err(_) => write!(to, ", WRONG: refused"),
        Ok(Verdict::Clean { judged, .. }) => write!(to, ", clean, judged {judged}"),
        Ok(Verdict::Broken { .. }) => write!(to, ", WRONG: broken"),
    }
}

fn print_written(to: &mut Out, out: &[u8], bytes: u32) {
    let n = out.len().min(bytes as usize);
    let capture = &out[..n];
    write!(to, "bytes {bytes}");
    print_judged(to, capture);
    print_events(to, capture);
    print_last(to, capture);
}

fn print_scheduled(to: &mut Out, name: &str, answer: Result<u32, Refusal>, out: &[u8]) {
    write!(to, "{name}: ");
    match answer {
        Ok(bytes) => print_written(to, out, bytes),
        Err(refusal) => write!(to, "{refusal}"),
    }
    writeln!(to);
}

// A buffer that was filled with 9.
fn print_nines(to: &mut Out, name: &str, rest: &[u8]) {
    if rest.iter().all(|byte| *byte == 9) {
        writeln!(to, "{name}: as it was");
    } else {
        writeln!(to, "{name}: WRONG");
    }
}

// ---- lists

// With tREFI 4 nine are owed at 36, behind all of it; with tREFI 2 at 18, and the third request would end behind that.
fn print_case_m(to: &mut Out) {
    let mut out = [0u8; 200];
    let loose = schedule::schedule(&settings(4), &CASE_M, CLOSED_ROWS, &mut out);
    print_scheduled(to, "case m, tREFI 4", loose, &out);
    let tight = schedule::schedule(&settings(2), &CASE_M, CLOSED_ROWS, &mut out);
    print_scheduled(to, "case m, tREFI 2", tight, &out);
}

// Its list ten times over. With tREFI 24 the first AUTO REFRESH comes at 215, before request 38 and so behind 76 events.
fn print_case_m_ten_times(to: &mut Out) {
    let requests = TEN_TIMES_M.as_flattened();
    let mut out = [0u8; 1_000];
    let paid = schedule::schedule(&settings(24), requests, CLOSED_ROWS, &mut out);
    print_scheduled(to, "ten times over, tREFI 24", paid, &out);
    write!(to, "its event 76: ");
    print_event(to, &out, 76);
    writeln!(to);
    let late = schedule::schedule(&settings(16), requests, CLOSED_ROWS, &mut out);
    print_scheduled(to, "ten times over, tREFI 16", late, &out);
}

// ACTIVE 0 and READ 3 close bank 0 at 7, so that an AUTO REFRESH may come at 10: with tREFI 2 five are owed then, with
// tREFI 1 ten. AUTO REFRESH 0 pays nothing; with ACTIVE 12 and READ 15 the next may come at 22.
fn print_few(to: &mut Out) {
    let mut out = [9u8; 100];
    let none = schedule::schedule(&settings(1), &[], CLOSED_ROWS, &mut out);
    print_scheduled(to, "no request, tREFI 1", none, &out);
    let one = schedule::schedule(&settings(2), &[5], CLOSED_ROWS, &mut out);
    print_scheduled(to, "one request, tREFI 2", one, &out);
    print_nines(to, "four bytes behind it", &out[96..]);
    let late = schedule::schedule(&settings(1), &[5], CLOSED_ROWS, &mut out);
    print_scheduled(to, "one request, tREFI 1", late, &out);
}

// One byte too few, a word too many, settings that are wrong, and a cell behind the last.
fn print_refused(to: &mut Out) {
    let mut out = [9u8; 95];
    let short = schedule::schedule(&settings(10), &[5], CLOSED_ROWS, &mut out);
    print_scheduled(to, "95 bytes for one request", short, &out);
    let count = schedule::schedule(&[0u32; 15], &[5], CLOSED_ROWS, &mut out);
    print_scheduled(to, "15 settings", count, &out);
    let never = schedule::schedule(&settings(0), &[5], CLOSED_ROWS, &mut out);
    print_scheduled(to, "tREFI 0", never, &out);
    let cell = schedule::schedule(&settings(10), &[5, 4 * BANK_1], CLOSED_ROWS, &mut out);
    print_scheduled(to, "the second cell is none", cell, &out);
    print_nines(to, "the buffer", &out);
}

// Each request reads cell 5. Alone it takes the bank for 10 cycles: ACTIVE at 10 i, READ at 10 i + 3, the last at 19,993.
// With an AUTO REFRESH it takes 22: 12, and 10. With tREFI 22 nine are owed at 198, so the first AUTO REFRESH comes before
// request 19, at 190, and one before each from there on: at 190 + 22 k, READ 15 behind it, the last at 43,765; 4,000 events
// and 1,981. With tREFI 21 it begins with request 18 at 180; after request 18 + k an AUTO REFRESH may come at 202 + 22 k, and
// nine are owed at 210 + 21 k: too late for k = 8.
fn print_longest(to: &mut Out) {
    let requests = [5u32; 2_000];
    let mut out = [0u8; 48_080];
    let loose = schedule::schedule(&settings(1_000_000), &requests, CLOSED_ROWS, &mut out);
    print_scheduled(to, "2000 requests, tREFI 1000000", loose, &out);
    let tight = schedule::schedule(&settings(22), &requests, CLOSED_ROWS, &mut out);
    print_scheduled(to, "2000 requests, tREFI 22", tight, &out);
    let late = schedule::schedule(&settings(21), &requests, CLOSED_ROWS, &mut out);
    print_scheduled(to, "2000 requests, tREFI 21", late, &out);
}

fn print_too_many(to: &mut Out) {
    let requests = [5u32; 2_001];
    let mut out = [9u8; 100];
    let loose = schedule::schedule(&settings(1_000_000), &requests, CLOSED_ROWS, &mut out);
    print_scheduled(to, "2001 requests, tREFI 1000000", loose, &out);
    let tight = schedule::schedule(&settings(21), &requests, CLOSED_ROWS, &mut out);
    print_scheduled(to, "2001 requests, tREFI 21", tight, &out);
}

// ---- rows left open

// The second requests of both banks find their rows open. Ten times over the last event is at 131, with closed rows at 252.
fn print_open_case_m(to: &mut Out) {
    let mut out = [0u8; 1_000];
    let once = schedule::schedule(&settings(4), &CASE_M, OPEN_ROWS, &mut out);
    print_scheduled(to, "open rows, case m", once, &out);
    let requests = TEN_TIMES_M.as_flattened();
    let ten_times = schedule::schedule(&settings(24), requests, OPEN_ROWS, &mut out);
    print_scheduled(to, "open rows, ten times over", ten_times, &out);
}

// Another row is closed at tRAS, and after a write when its data are tWR old; no burst is cut by its like, and a WRITE waits
// until the data of a READ have left the bus.
fn print_open_rows(to: &mut Out) {
    let mut out = [0u8; 200];
    let read = schedule::schedule(&settings(1_000), &[5, 1_024], OPEN_ROWS, &mut out);
    print_scheduled(to, "open rows, another row", read, &out);
    let written = schedule::schedule(&settings(1_000), &[WRITE | 5, 1_024], OPEN_ROWS, &mut out);
    print_scheduled(to, "open rows, another row behind a write", written, &out);
    let mixed = [WRITE | 5, WRITE | 5, 5, WRITE | 5];
    let row = schedule::schedule(&settings(1_000), &mixed, OPEN_ROWS, &mut out);
    print_scheduled(to, "open rows, one row", row, &out);
}

// Events go by their numbers here, as in the line.
fn print_around_refresh(to: &mut Out, capture: &[u8]) {
    write!(to, "from event 104 on:");
    for i in 104..110 {
        write!(to, " ");
        print_event(to, capture, i);
    }
    writeln!(to);
}

// READ 3, 5 and so on to 209, which is request 103. The next at 211 would keep PRECHARGE all from coming before 213, AUTO
// REFRESH at 216, where nine are owed. So these come first, at 211 and 214, and the row is opened anew.
fn print_open_refresh(to: &mut Out) {
    let mut out = [0u8; 1_000];
    let paid = schedule::schedule(&settings(24), &[5u32; 106], OPEN_ROWS, &mut out);
    print_scheduled(to, "open rows, 106 requests, tREFI 24", paid, &out);
    print_around_refresh(to, &out);
    let two = schedule::schedule(&settings(2), &[5u32; 9], OPEN_ROWS, &mut out);
    print_scheduled(to, "open rows, tREFI 2", two, &out);
    let three = schedule::schedule(&settings(3), &[5u32; 12], OPEN_ROWS, &mut out);
    print_scheduled(to, "open rows, tREFI 3", three, &out);
}

// No such policy: before a request that is none, behind the settings.
fn print_no_policy(to: &mut Out) {
    let mut out = [9u8; 95];
    let policy = schedule::schedule(&settings(10), &[4 * BANK_1], 2, &mut out);
    print_scheduled(to, "policy 2", policy, &out);
    let count = schedule::schedule(&[], &[5], 2, &mut out);
    print_scheduled(to, "policy 2, no settings", count, &out);
    print_nines(to, "the buffer", &out);
}

// ACTIVE 0, READ 3 and one every other cycle, the last at 3 + 2 x 1,999.
fn print_open_longest(to: &mut Out) {
    let mut out = [0u8; 64_080];
    let loose = schedule::schedule(&settings(1_000_000), &[5u32; 2_000], OPEN_ROWS, &mut out);
    print_scheduled(to, "open rows, 2000 requests", loose, &out);
}

fn main(rt: HostRuntime) {
    let mut to = Out::new(rt.stdout());
    print_case_m(&mut to);
    print_case_m_ten_times(&mut to);
    print_few(&mut to);
    print_refused(&mut to);
    print_longest(&mut to);
    print_too_many(&mut to);
    print_open_case_m(&mut to);
    print_open_rows(&mut to);
    print_open_refresh(&mut to);
    print_no_policy(&mut to);
    print_open_longest(&mut to);
}
