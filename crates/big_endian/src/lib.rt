// Big-endian numbers in a slice of bytes.
#![tactic(auto)]

ghost use Rattle.std.specs.Prelude.{◌≡◌, [], ◌∷◌, ◌+◌, ◌^◌, ◌<◌, ◌≤◌, length, get_or};
ghost use Rattle.arith.specs.Lists.{over};
ghost use Rattle.rules.specs.Fields.{number_at, number_bytes};
ghost use Rattle.rules.specs.Header.{u16_at, u32_at, u16_bytes, u32_bytes};
ghost use Rattle.big_endian.specs.Width.{Width};

pub fn u8_at(s: &[u8], at: usize) -> u64
    requires { at < length s.now }
    ensures { (result ≡ get_or s.now at 0) × (result < 256) }
{
    u64::from(s[at])
}

// The byte at a place, or 0 past the end.
pub fn u8_or_zero(s: &[u8], at: usize) -> u64
    ensures { (result ≡ get_or s.now at 0) × (result < 256) }
{
    s.get(at).map_or(0, |&byte| u64::from(byte))
}

pub fn u16_at(s: &[u8], at: usize) -> u64
    requires { at + 2 ≤ length s.now }
    ensures { (result ≡ u16_at s.now at) × (result < 65536) }
{
    u64::from(u16::from_be_bytes([s[at], s[at + 1]]))
}

pub fn u32_at(s: &[u8], at: usize) -> u64
    requires { at + 4 ≤ length s.now }
    ensures { (result ≡ u32_at s.now at) × (result < 4294967296) }
{
    u64::from(u32::from_be_bytes([s[at], s[at + 1], s[at + 2], s[at + 3]]))
}

// The number of so many bytes, whatever the width.
pub fn number_at(s: &[u8], at: usize, width: usize) -> u64
    requires { Width width × (at + width ≤ length s.now) }
    ensures { result ≡ number_at s.now at width }
{
    match width {
        1 => u8_at(s, at),
        2 => u16_at(s, at),
        _ => u32_at(s, at),
    }
}

pub fn put_u8(out: &mut [u8], at: usize, n: u64)
    requires { (at < length out.old) × (n < 256) }
    ensures { out.new ≡ over at (n ∷ []) out.old }
{
    out[at] = n as u8;
}

pub fn put_u16(out: &mut [u8], at: usize, n: u64)
    requires { at + 2 ≤ length out.old }
    ensures { out.new ≡ over at (u16_bytes n) out.old }
{
    out[at..at + 2].copy_from_slice(&((n % 65536) as u16).to_be_bytes());
}

pub fn put_u32(out: &mut [u8], at: usize, n: u64)
    requires { at + 4 ≤ length out.old }
    ensures { out.new ≡ over at (u32_bytes n) out.old }
{
    out[at..at + 4].copy_from_slice(&((n % 4294967296) as u32).to_be_bytes());
}

pub fn put_number(out: &mut [u8], at: usize, width: usize, n: u64)
    requires { Width width × (at + width ≤ length out.old) × (n < 256 ^ width) }
    ensures { out.new ≡ over at (number_bytes width n) out.old }
{
    match width {
        1 => put_u8(out, at, n),
        2 => put_u16(out, at, n),
        _ => put_u32(out, at, n),
    }
}
