// Text written over a lent slice of bytes, from a place on. Each writer answers the place after what it wrote.
#![tactic(auto)]

ghost use Rattle.std.specs.Prelude.{[], ◌∷◌, ◌++◌, ◌≡◌, ◌+◌, ◌-◌, ◌<◌, ◌≤◌, length, take, drop};
ghost use Rattle.rules.specs.Text.{decimal, signed_decimal, space};
ghost use Rattle.text.specs.Wrote.{Wrote};

pub fn put_byte(out: &mut [u8], place: usize, byte: u8) -> usize
    requires { place < length out.old }
    ensures { Wrote place (byte ∷ []) out.old out.new result }
{
    out[place] = byte;
    place + 1
}

pub fn put_bytes(out: &mut [u8], place: usize, bytes: &[u8]) -> usize
    requires { place + length bytes.now ≤ length out.old }
    ensures { Wrote place bytes.now out.old out.new result }
{
    let end = place + bytes.len();
    out[place..end].copy_from_slice(bytes);
    end
}

// The digits of a number, with no zero in front.
pub fn put_decimal(out: &mut [u8], place: usize, n: u64) -> usize
    requires { place + length (decimal n) ≤ length out.old }
    ensures { Wrote place (decimal n) out.old out.new result }
{
    if n < 10 {
        return put_byte(out, place, b'0' + n as u8);
    }
    let end = put_decimal(out, place, n / 10);
    put_byte(out, end, b'0' + (n % 10) as u8)
}

// The digits of a number, after a minus if it is below 0.
fn put_signed(out: &mut [u8], place: usize, x: i64) -> usize
    requires { place + length (signed_decimal x) ≤ length out.old }
    ensures { Wrote place (signed_decimal x) out.old out.new result }
{
    let n = x.unsigned_abs();
    if x < 0 {
        let digits = put_byte(out, place, b'-');
        return put_decimal(out, digits, n);
    }
    put_decimal(out, place, n)
}

// A space and a number, which take at most 21 places.
pub fn put_field(out: &mut [u8], place: usize, n: u64) -> usize
    requires { place + 21 ≤ length out.old }
    ensures { Wrote place (space ∷ decimal n) out.old out.new result × (result ≤ place + 21) }
{
    let digits = put_byte(out, place, b' ');
    put_decimal(out, digits, n)
}

// A space and a signed number, which take at most 21 places.
pub fn put_signed_field(out: &mut [u8], place: usize, x: i64) -> usize
    requires { place + 21 ≤ length out.old }
    ensures { Wrote place (space ∷ signed_decimal x) out.old out.new result × (result ≤ place + 21) }
{
    let digits = put_byte(out, place, b' ');
    put_signed(out, digits, x)
}

// The bytes from a place to end, moved to the front; those behind them stay.
pub fn shift(bytes: &mut [u8], from: usize, end: usize)
    requires { (from ≤ end) × (end ≤ length bytes.old) }
    ensures { bytes.new ≡ take (end - from) (drop from bytes.old) ++ drop (end - from) bytes.old }
{
    bytes.copy_within(from..end, 0);
}
