// Places of a lent table set to zero.
ghost use Rattle.std.specs.Prelude.{◌≡◌, ◌+◌, ◌≤◌, length, replicate, pos};
ghost use Rattle.arith.specs.Lists.{over};

pub fn clear_rows(rows: &mut [i64])
    ensures { rows.new ≡ replicate (length rows.old) (pos 0) }
{
    rows.fill(0);
}

// Sets so many places to zero, from one on.
pub fn clear_at(places: &mut [u64], at: usize, count: usize)
    requires { at + count ≤ length places.old }
    ensures { places.new ≡ over at (replicate count 0) places.old }
{
    places[at..at + count].fill(0);
}
