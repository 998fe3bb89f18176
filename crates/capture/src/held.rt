// What an accepted capture holds.
ghost use Rattle.std.specs.Prelude.{ℕ, ◌≡◌, true, ◌*◌, ◌≤◌, ◌<◌, length};
ghost use Rattle.reading.specs.Capture.{event_at, cycle_fits};

use settings::Settings;

// The bytes from where the first starts, of which event i stands at 8 i; and how many events there are. Their cycles rise.
#[derive(Clone, Copy)]
pub struct Events<'a> {
    pub bytes: &'a [u8],
    pub count: u32,
    ghost held: { 8 * count ≤ length bytes.now },
    ghost rise: { (i : ℕ) → i < count → cycle_fits bytes.now i ≡ true },
}

// An event's number is asked to be below the count, as an index of a slice is below its length.
impl<'a> Events<'a> {
    pub fn cycle(&self, i: u32) -> u32
        requires { i < self.now.count }
        ensures { result ≡ (event_at self.now.bytes.now i).cycle }
    {
        words::word_at(self.bytes, 8 * i as usize)
    }

    pub fn pins(&self, i: u32) -> u32
        requires { i < self.now.count }
        ensures { result ≡ (event_at self.now.bytes.now i).pins }
    {
        words::word_at(self.bytes, 8 * i as usize + 4)
    }
}

// The settings and the edition by which it is judged, and its events.
#[derive(Clone, Copy)]
pub struct Opened<'a> {
    pub settings: Settings,
    pub events: Events<'a>,
}
