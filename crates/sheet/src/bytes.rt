// Numbers in a slice of bytes, the low byte first.
ghost use Rattle.std.specs.Prelude.{◌≡◌, ◌+◌, ◌%◌, ◌<◌, length};
ghost use Rattle.sheet.specs.Bytes.{u16_at, u32_at, i16_at, put16};
ghost use Rattle.sheet.specs.Reads.{ExcessIs};

use crate::lag::{excess_of, lag_of};

pub fn u16_at(s: &[u8], at: usize) -> u32
    requires { at + 1 < length s.now }
    ensures { (result ≡ u16_at s.now at) × (result < 65536) }
{
    u32::from(u16::from_le_bytes([s[at], s[at + 1]]))
}

pub fn u32_at(s: &[u8], at: usize) -> u32
    requires { at + 3 < length s.now }
    ensures { result ≡ u32_at s.now at }
{
    u32::from_le_bytes([s[at], s[at + 1], s[at + 2], s[at + 3]])
}

// The excess number of the i16 at a place.
pub fn excess_at(s: &[u8], at: usize) -> u32
    requires { at + 1 < length s.now }
    ensures { ExcessIs (i16_at s.now at) result }
{
    excess_of(i16::from_le_bytes([s[at], s[at + 1]]))
}

pub fn put_u16(s: &mut [u8], at: usize, x: u32)
    requires { (at + 1 < length s.old) × (x < 65536) }
    ensures { s.new ≡ put16 s.old at x }
{
    let [low, high, _, _] = x.to_le_bytes();
    s[at] = low;
    s[at + 1] = high;
}

// The i16 whose excess number is e.
pub fn put_lag(s: &mut [u8], at: usize, e: u32)
    requires { (at + 1 < length s.old) × (e < 65536) }
    ensures { s.new ≡ put16 s.old at ((e + 32768) % 65536) }
{
    let [low, high] = lag_of(e).to_le_bytes();
    s[at] = low;
    s[at + 1] = high;
}
