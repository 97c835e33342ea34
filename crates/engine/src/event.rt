// A record that was read, handed to the code of its kind.
ghost use Rattle.std.specs.Prelude.{◌≡◌, Some};
ghost use Rattle.rules.specs.Records.{legs_of, read_of};
ghost use Rattle.rules.specs.Refusals.{event_spec};
ghost use Rattle.tables.specs.Fit.{Fits, members_in};
ghost use Rattle.tables.specs.Lent.{tables_of, SameTables};

use crate::legs::apply_legs;
use rules::{Event, Refusal};
use tables::LentTables;

// Each kind is lent the tables that it touches, all of them long enough and not damaged.
pub fn apply_event(tables: &mut LentTables<'_>, event: Event, bytes: &[u8]) -> Result<u64, Refusal>
    requires { Fits (tables_of tables.old) × (read_of (members_in tables.old.head.now) bytes.now ≡ Some event) }
    ensures answer { record { answer = result; after = tables_of tables.new } ≡ event_spec (tables_of tables.old) event (legs_of bytes.now) }
    ensures same { SameTables tables.old tables.new }
{
    match event {
        Event::Submit(e) => submit::apply(tables, e),
        Event::Cancel(e) => cancel::apply(tables.head, tables.book, e),
        Event::DayLimits(e) => {
            // Beside a field that is written the check takes no field as `&[u64]`.
            let head = &mut *tables.head;
            day_limits::apply(head, tables.prices, e)
        }
        Event::Proposal(count) => apply_legs(tables, count, bytes),
        Event::Default(member) => default::apply(tables.head, tables.book, member),
        Event::CloseOut(e) => {
            // Beside a field that is written the check takes no field as `&[u64]`.
            let prices = &mut *tables.prices;
            close_out::apply(
                tables.head,
                prices,
                tables.lots,
                tables.value,
                tables.lines,
                e,
            )
        }
        Event::CloseOfDay(time) => close_of_day::apply(
            tables.head,
            tables.prices,
            tables.lots,
            tables.value,
            tables.book,
            time,
        ),
    }
}
