// Buy and sell, in a record and in the book.
#![tactic(auto)]

ghost use Rattle.std.specs.Prelude.{◌≡◌, ◌<◌};
ghost use Rattle.rules.specs.Sides.{side_number, side_of, same_side, other_side};

use rules::Side;

pub fn side_of(n: u64) -> Side
    ensures { result ≡ side_of n }
{
    if n == 0 { Side::Buy } else { Side::Sell }
}

// The number of a side, which fits a byte.
pub fn side_number(side: Side) -> u64
    ensures { (result ≡ side_number side) × (result < 256) }
{
    match side {
        Side::Buy => 0,
        Side::Sell => 1,
    }
}

pub fn is_same_side(a: Side, b: Side) -> bool
    ensures { result ≡ same_side a b }
{
    a == b
}

pub fn other_side(side: Side) -> Side
    ensures { result ≡ other_side side }
{
    match side {
        Side::Buy => Side::Sell,
        Side::Sell => Side::Buy,
    }
}
