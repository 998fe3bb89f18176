// What a broken rule asks, in a sentence with the settings that it looks at.
use crate::values::{newer, sleeps};
use console::Out;
use rules::Rule;
use settings::Settings;
use settings::places::{
    ROW_BITS, T_MRD, T_RAS, T_RCD, T_REFI, T_RFC, T_RP, T_RRD, T_WR, T_WTR, T_XP, T_XSR,
};

fn ask_after_refresh_and_mode_set(out: &mut Out, settings: &Settings) {
    if sleeps(settings) {
        write!(
            out,
            "a command, or CKE falling, at least tRFC ({}) cycles after the last AUTO REFRESH with CKE high",
            settings[T_RFC]
        );
    } else {
        write!(
            out,
            "a command at least tRFC ({}) cycles after the last AUTO REFRESH",
            settings[T_RFC]
        );
    }
    write!(
        out,
        " and tMRD ({}) after the last MODE REGISTER SET",
        settings[T_MRD]
    );
}

fn ask_of_refresh(out: &mut Out, settings: &Settings) {
    if sleeps(settings) {
        write!(
            out,
            "at every event but in self refresh at most eight AUTO REFRESHes are owed, one for each tREFI ({}) cycles since the start or the end of self refresh",
            settings[T_REFI]
        );
        return;
    }
    write!(
        out,
        "at every event at most eight AUTO REFRESHes are owed, one for each tREFI ({}) cycles",
        settings[T_REFI]
    );
}

fn ask_of_sleep(out: &mut Out, settings: &Settings) {
    write!(
        out,
        "CKE falls with NOP, DESELECT or AUTO REFRESH after the data of reads and writes, stays low and rises with NOP or DESELECT; the next fall or command waits tXP ({}) cycles from the end of power-down",
        settings[T_XP]
    );
    write!(
        out,
        ", tXSR ({}) from that of self refresh",
        settings[T_XSR]
    );
}

fn ask_after_row_written(out: &mut Out, settings: &Settings) {
    if newer(settings) {
        write!(
            out,
            "PRECHARGE at least tWR ({}) + 2 cycles after the last WRITE to each row that it closes",
            settings[T_WR]
        );
        return;
    }
    write!(
        out,
        "PRECHARGE at least tWR ({}) cycles after the last write data of each row that it closes",
        settings[T_WR]
    );
}

fn ask_after_write(out: &mut Out, settings: &Settings) {
    if newer(settings) {
        write!(
            out,
            "READ at least tWTR ({}) + 2 cycles after the last WRITE, of whatever bank; after one with auto precharge, tWTR after its last write data",
            settings[T_WTR]
        );
        return;
    }
    write!(
        out,
        "READ at least tWTR ({}) cycles after the last write data, of whatever bank",
        settings[T_WTR]
    );
}

// First the rules of rows.
fn ask_of(out: &mut Out, settings: &Settings, rule: Rule) {
    match rule {
        Rule::Row => write!(
            out,
            "the row of an ACTIVE fits in the row bits ({}); its pins above them are low",
            settings[ROW_BITS]
        ),
        Rule::ModeWord => write!(
            out,
            "MODE REGISTER SET writes a burst length of 2 to 16 and a CAS latency of 2 or 3, with A7 to A13 low, to register 00, or anything to register 10"
        ),
        Rule::BankState => write!(
            out,
            "ACTIVE finds its bank idle, READ and WRITE find theirs open, AUTO REFRESH and MODE REGISTER SET find all idle"
        ),
        Rule::Busy => ask_after_refresh_and_mode_set(out, settings),
        Rule::Precharge => write!(
            out,
            "ACTIVE at least tRP ({}) cycles after its bank's precharge; AUTO REFRESH and MODE REGISTER SET after every bank's",
            settings[T_RP]
        ),
        Rule::RowCycle => write!(out, "nothing is asked by this number"),
        Rule::OtherActive => write!(
            out,
            "ACTIVE at least tRRD ({}) cycles after the last ACTIVE of another bank",
            settings[T_RRD]
        ),
        _ => ask_of_bursts(out, settings, rule),
    }
}

fn ask_of_bursts(out: &mut Out, settings: &Settings, rule: Rule) {
    match rule {
        Rule::RowToColumn => write!(
            out,
            "READ or WRITE at least tRCD ({}) cycles after the bank's ACTIVE",
            settings[T_RCD]
        ),
        Rule::RowHeld => write!(
            out,
            "PRECHARGE at least tRAS ({}) cycles after the ACTIVE of each row that it closes",
            settings[T_RAS]
        ),
        Rule::WriteRecovery => ask_after_row_written(out, settings),
        Rule::WriteToRead => ask_after_write(out, settings),
        Rule::Bus => write!(
            out,
            "WRITE, AUTO REFRESH or MODE REGISTER SET not before the data of the last READ has left the bus"
        ),
        Rule::AutoPrecharge => write!(
            out,
            "READ does not cut a read with auto precharge, WRITE not a write with auto precharge, BURST TERMINATE neither such a read nor any write"
        ),
        Rule::Refresh => ask_of_refresh(out, settings),
        Rule::Sleep => ask_of_sleep(out, settings),
        // What the others ask is said above.
        _ => {}
    }
}

pub fn print_asked(out: &mut Out, settings: &Settings, rule: Rule) {
    write!(out, "rule {}: ", rule.number());
    ask_of(out, settings, rule);
    writeln!(out);
}
