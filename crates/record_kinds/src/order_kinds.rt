// An order kind by its number.
ghost use Rattle.std.specs.Prelude.{◌≡◌, ◌<◌};
ghost use Rattle.rules.specs.Records.{order_kind_number, order_kind_of};

use rules::OrderKind;

pub fn order_kind_of(b: u64) -> OrderKind
    ensures { result ≡ order_kind_of b }
{
    match b {
        0 => OrderKind::Resting,
        1 => OrderKind::Oeye,
        _ => OrderKind::Teye,
    }
}

// The number of an order kind, which fits a byte.
pub fn order_kind_number(kind: OrderKind) -> u64
    ensures { (result ≡ order_kind_number kind) × (result < 256) }
{
    match kind {
        OrderKind::Resting => 0,
        OrderKind::Oeye => 1,
        OrderKind::Teye => 2,
    }
}
