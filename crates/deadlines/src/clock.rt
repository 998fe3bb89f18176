// The refresh clock as a deadline: the first cycle at which rule 14 is broken, because nine AUTO REFRESHes are owed.
ghost use Rattle.std.specs.Prelude.{◌≡◌, cond, ◌+◌, ◌*◌, leb};
ghost use Rattle.reading.specs.Settings.{settings_of};
ghost use Rattle.deadlines.specs.Deadlines.{overdue_from, overdue_after};

use settings::Settings;
use settings::places::T_REFI;

// Above every cycle: in self refresh rule 14 is never broken.
pub const FAR: u64 = 4_294_967_296;

// What counts from cycle t.
pub fn overdue_from(s: &Settings, t: u32) -> u64
    ensures { result ≡ overdue_from (settings_of s.now) t }
{
    nine_after(t, s[T_REFI])
}

// An AUTO REFRESH at t pays one that is owed.
pub fn overdue_after(s: &Settings, t: u32, due: u64) -> u64
    ensures { result ≡ overdue_after (settings_of s.now) t due }
{
    put_off(t, s[T_REFI], due)
}

fn nine_after(t: u32, refi: u32) -> u64
    ensures { result ≡ t + 9 * refi }
{
    u64::from(t) + 9 * u64::from(refi)
}

fn put_off(t: u32, refi: u32, due: u64) -> u64
    ensures { result ≡ cond (leb due (t + 8 * refi)) (due + refi) due }
{
    if due <= u64::from(t) + 8 * u64::from(refi) {
        return due + u64::from(refi);
    }
    due
}
