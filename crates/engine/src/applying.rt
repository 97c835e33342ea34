// One record applied to the lent tables.
ghost use Rattle.tables.specs.Lent.{tables_of, SameTables};
ghost use Rattle.engine.specs.Runs.{Applies};

use crate::event::apply_event;
use rules::Refusal;
use rules::layout::MEMBERS;
use tables::LentTables;

// One record applied, whatever the tables hold and whatever its bytes. The tables are tested before the record is read.
pub fn apply(tables: &mut LentTables<'_>, bytes: &[u8]) -> Result<u64, Refusal>
    ensures answer { Applies (tables_of tables.old) bytes.now result (tables_of tables.new) }
    ensures same { SameTables tables.old tables.new }
{
    if damage::is_unsound(
        tables.head(),
        tables.prices(),
        tables.lots(),
        tables.value(),
        tables.book(),
        tables.lines(),
    ) {
        return Err(Refusal::TableUnsound);
    }
    match codec::read_record(tables.head[MEMBERS], bytes) {
        Some(event) => apply_event(tables, event, bytes),
        None => Err(Refusal::RecordUnsound),
    }
}
