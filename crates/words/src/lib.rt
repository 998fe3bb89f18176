// Little-endian words of 32 bits, and of 16, in a slice of bytes.
#![tactic(auto)]

ghost use Rattle.std.specs.Prelude.{◌≡◌, ◌&&◌, ◌+◌, ◌*◌, ◌≤◌, ◌<◌, length, take};
ghost use Rattle.std.proofs.lemmas.List.Edits.{sets};
ghost use Rattle.reading.specs.Words.{word_at, word_bytes, bytes_of, half_at, half_bytes};

// Without a branch, for a walk over what most often fits.
pub fn both(a: bool, b: bool) -> bool
    ensures { result ≡ (a && b) }
{
    a & b
}

// The word whose lowest byte stands at `at`.
pub fn word_at(s: &[u8], at: usize) -> u32
    requires { at + 4 ≤ length s.now }
    ensures { result ≡ word_at s.now at }
{
    u32::from_le_bytes([s[at], s[at + 1], s[at + 2], s[at + 3]])
}

// Stores `w` in the four bytes from `at` on; every other byte stays.
pub fn put_word(out: &mut [u8], at: usize, w: u32)
    requires { at + 4 ≤ length out.old }
    ensures { out.new ≡ sets out.old at (word_bytes w) }
{
    let [lowest, low, high, highest] = w.to_le_bytes();
    out[at] = lowest;
    out[at + 1] = low;
    out[at + 2] = high;
    out[at + 3] = highest;
}

// Stores the words of the list in a row from byte `at` on; every other byte stays.
pub fn put_words(out: &mut [u8], at: usize, list: &[u32])
    requires { at + 4 * length list.now ≤ length out.old }
    ensures { out.new ≡ sets out.old at (bytes_of list.now) }
{
    'words: for (i, w) in list.iter().enumerate() {
        put_word(out, at + 4 * i, *w);
    }
}

// The word of 16 bits whose lowest byte stands at `at`.
pub fn half_at(s: &[u8], at: usize) -> u16
    requires { at + 2 ≤ length s.now }
    ensures { result ≡ half_at s.now at }
{
    u16::from_le_bytes([s[at], s[at + 1]])
}

// Stores `w` in the two bytes from `at` on; every other byte stays.
pub fn put_half(out: &mut [u8], at: usize, w: u16)
    requires { at + 2 ≤ length out.old }
    ensures { out.new ≡ sets out.old at (half_bytes w) }
{
    let [low, high] = w.to_le_bytes();
    out[at] = low;
    out[at + 1] = high;
}
