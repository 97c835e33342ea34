// The header of a journal: a ledger is made, or the journal turned back.
ghost use Rattle.std.specs.Prelude.{◌≡◌, ◌+◌, ◌≤◌, ◌<◌, length};
ghost use Rattle.printing.specs.Room.{line_room};
ghost use Rattle.rules.specs.Header.{header_length, length_of_header};
ghost use Rattle.rules.specs.Ledger.{head_length};
ghost use Rattle.tables.specs.Lent.{tables_of, SameTables};
ghost use Rattle.journal.specs.declared.stage.Stage.TheVariants.{Header};
ghost use Rattle.journal.specs.Stages.{Advanced};

use crate::stage::{Progress, Stage, Wants};
use big_endian::u8_or_zero;
use header::{HOLIDAY_COUNT_BYTE, MEMBERS_BYTE, header_length};
use printing::{put_head, put_refusal};
use reply::reply_of;
use tables::LentTables;

const ACCEPTED: u64 = 0;

const HEADER_NUMBER: u64 = 0;

// How many bytes the header takes that the bytes begin with.
fn length_of(bytes: &[u8]) -> usize
    ensures { (result ≡ header_length bytes.now) × (result ≤ length_of_header 255 255) }
{
    let members = u8_or_zero(bytes, MEMBERS_BYTE);
    let holidays = u8_or_zero(bytes, HOLIDAY_COUNT_BYTE);
    header_length(members, holidays) as usize
}

// Reads the header and makes a ledger. Where the header is cut, more bytes are asked for, if any can come.
pub fn begin(
    bytes: &[u8],
    is_last: bool,
    out: &mut [u8],
    filled: usize,
    tables: &mut LentTables<'_>,
) -> Progress
    requires { (filled + line_room ≤ length out.old) × (head_length ≤ length tables.old.head.now) }
    ensures begun { Advanced Header (tables_of tables.old) bytes.now is_last filled out.old out.new (tables_of tables.new) result }
    ensures same { SameTables tables.old tables.new }
{
    let length = length_of(bytes);
    if !is_last & (bytes.len() < length) {
        return Progress {
            used: 0,
            end: filled,
            stage: Stage::Header,
            wants: Wants::Bytes,
        };
    }
    // Beside a field that is written the check takes no field as `&[u64]`.
    let book = &mut *tables.book;
    let answer = engine::make(
        tables.head,
        tables.prices,
        tables.lots,
        tables.value,
        book,
        bytes,
    );
    let reply = reply_of(answer);
    if reply.number == ACCEPTED {
        return Progress {
            used: length,
            end: put_head(out, filled, tables.head()),
            stage: Stage::Records {
                counted: 0,
                accepted: 0,
            },
            wants: Wants::Nothing,
        };
    }
    Progress {
        used: 0,
        end: put_refusal(out, filled, HEADER_NUMBER, reply.number),
        stage: Stage::HeaderUnsound,
        wants: Wants::Nothing,
    }
}
