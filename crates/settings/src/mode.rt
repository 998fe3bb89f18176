// A mode word, read: burst length, order, latency.
ghost use Rattle.std.specs.Prelude.{◌≡◌};
ghost use Rattle.reading.specs.Mode.{BL, h, CL};
ghost use Rattle.reading.specs.Mode as is;

// BL, the beats of a burst.
pub fn burst_length(mode: u32) -> u32
    ensures { result ≡ BL mode }
{
    1 << (mode % 8)
}

// h, the pairs of a burst.
pub fn half(mode: u32) -> u32
    ensures { result ≡ h mode }
{
    burst_length(mode) / 2
}

pub fn interleaved(mode: u32) -> bool
    ensures { result ≡ is.interleaved mode }
{
    mode / 8 % 2 == 1
}

// CL.
pub fn latency(mode: u32) -> u32
    ensures { result ≡ CL mode }
{
    mode / 16 % 8
}
