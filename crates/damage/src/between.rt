// Whether a number lies between two limits, by one comparison.
ghost use Rattle.std.specs.Prelude.{◌≡◌, ◌≤◌};
ghost use Rattle.damage.specs.Orders.{between};

// From `first` up to but not including `end`: what is below `first` wraps to a large number.
pub fn is_between(x: u64, first: u64, end: u64) -> bool
    requires { first ≤ end }
    ensures { result ≡ between first end x }
{
    x.wrapping_sub(first) < end - first
}
