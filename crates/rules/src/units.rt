// The quantities of the trade, each a type of its own, so that a price never reaches a lots column.
ghost use Rattle.std.specs.Prelude.{◌≡◌, ◌*◌, ◌^◌, ◌≤◌, ◌<◌, pos, nat_abs, ◌*ℤ◌};
ghost use Rattle.rules.specs.Ranges.{most_price, most_lots_run};

// A number of lots: of an order, a leg or a deal, and M. One lot is 0.1 MWh in every hour of a contract's period.
#[derive(Clone, Copy, PartialEq, Eq)]
pub struct Lots(pub u64);

// Lots with the sign of their side, above 0 for a buy: the lots of a row and of a deal line.
#[derive(Clone, Copy, PartialEq, Eq)]
pub struct SignedLots(pub i64);

// A price, in kuruş per MWh: of an order, a leg, a deal or a line, the GGF, low and high.
#[derive(Clone, Copy, PartialEq, Eq)]
pub struct Kurus(pub u64);

// Lots times price, in tenths of a kuruş for each delivery hour: V.
#[derive(Clone, Copy, PartialEq, Eq)]
pub struct Worth(pub u64);

// Signed lots times price, in the same unit: the value of a row.
#[derive(Clone, Copy, PartialEq, Eq)]
pub struct Value(pub i64);

// A day, counted from day 0, 1 January 2020.
#[derive(Clone, Copy, PartialEq, Eq)]
pub struct DayNo(pub u64);

impl Lots {
    pub fn times(self, price: Kurus) -> Worth
        requires { self.0 * price.0 < 2 ^ 64 }
        ensures { result.0 ≡ self.0 * price.0 }
    {
        Worth(self.0 * price.0)
    }
}

impl SignedLots {
    pub fn times(self, price: Kurus) -> Value
        requires { (nat_abs self.0 ≤ most_lots_run) × (price.0 ≤ most_price) }
        ensures { result.0 ≡ self.0 *ℤ pos price.0 }
    {
        let kurus = price.0 as i64;
        Value(self.0 * kurus)
    }
}
