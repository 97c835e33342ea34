// A proposal's legs, read from the record's bytes and handed to the proposal's code.
ghost use Rattle.std.specs.Prelude.{◌≡◌};
ghost use Rattle.rules.specs.declared.event.Event.TheVariants.{Proposal};
ghost use Rattle.rules.specs.Records.{legs_of, read_of};
ghost use Rattle.rules.specs.Refusals.{proposal_spec};
ghost use Rattle.tables.specs.Fit.{Fits, members_in};
ghost use Rattle.tables.specs.Lent.{tables_of, SameTables};

use rules::Refusal;
use tables::LentTables;

pub fn apply_legs(tables: &mut LentTables<'_>, count: u64, bytes: &[u8]) -> Result<u64, Refusal>
    requires { Fits (tables_of tables.old) × (read_of (members_in tables.old.head.now) bytes.now ≡ Some (Proposal count)) }
    ensures answer { record { answer = result; after = tables_of tables.new } ≡ proposal_spec (tables_of tables.old) (legs_of bytes.now) }
    ensures same { SameTables tables.old tables.new }
{
    let legs = &codec::read_legs(bytes)[..count as usize];
    // Beside a field that is written the check takes no field as `&[u64]`.
    let prices = &mut *tables.prices;
    proposal::apply(
        tables.head,
        prices,
        tables.lots,
        tables.value,
        tables.book,
        tables.lines,
        legs,
    )
}
