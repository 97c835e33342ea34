// The lines that the journal program prints, over a lent slice of bytes. Each writer answers the place after its line.
#![tactic(auto)]

ghost use mathlib.Core.List.{map, flat_map};
ghost use Rattle.std.specs.Prelude.{◌+◌, ◌*◌, ◌≤◌, length};
ghost use Rattle.rules.specs.Journal.{head_text, deal_text, refusal_text, end_text};
ghost use Rattle.rules.specs.Ledger.{Tables, line_width, head_length, with_head, first_lines};
ghost use Rattle.rules.specs.Text.{decimal, line_text};
ghost use Rattle.text.specs.Wrote.{Wrote};
ghost use Rattle.printing.specs.Room.{line_room};

use rules::layout::{
    DAY, FIRST_YEAR, LINE_CONTRACT, LINE_LOTS, LINE_MEMBER, LINE_PRICE, LINE_WIDTH, LOTS_RUN,
    MEMBERS,
};
use text::{put_byte, put_field, put_signed_field};

// The most bytes of a line: a letter, four fields of 21 bytes and the end of the line.
pub const LINE_ROOM: usize = 86;

// A letter and at most four fields.
fn put_line(out: &mut [u8], place: usize, letter: u8, fields: &[u64]) -> usize
    requires { (place + line_room ≤ length out.old) × (length fields.now ≤ 4) }
    ensures { Wrote place (line_text letter (map decimal fields.now)) out.old out.new result × (result ≤ place + line_room) }
{
    let mut end = put_byte(out, place, letter);
    for field in fields {
        end = put_field(out, end, *field);
    }
    put_byte(out, end, b'\n')
}

// H: first year, day, members.
pub fn put_head(out: &mut [u8], place: usize, head: &[u64]) -> usize
    requires { (place + line_room ≤ length out.old) × (head_length ≤ length head.now) }
    ensures { ((t : Tables) → Wrote place (head_text (with_head head.now t)) out.old out.new result) × (result ≤ place + line_room) }
{
    put_line(
        out,
        place,
        b'H',
        &[head[FIRST_YEAR], head[DAY], head[MEMBERS]],
    )
}

// R: the record, counted from 1, and the number of the cause.
pub fn put_refusal(out: &mut [u8], place: usize, record: u64, number: u64) -> usize
    requires { place + line_room ≤ length out.old }
    ensures { Wrote place (refusal_text «record» number) out.old out.new result × (result ≤ place + line_room) }
{
    put_line(out, place, b'R', &[record, number])
}

// E: accepted, refused, lots run.
pub fn put_end(out: &mut [u8], place: usize, counted: u64, accepted: u64, head: &[u64]) -> usize
    requires { (place + line_room ≤ length out.old) × (accepted ≤ counted) × (head_length ≤ length head.now) }
    ensures { ((t : Tables) → Wrote place (end_text counted accepted (with_head head.now t)) out.old out.new result) × (result ≤ place + line_room) }
{
    put_line(
        out,
        place,
        b'E',
        &[accepted, counted - accepted, head[LOTS_RUN]],
    )
}

// D: member, contract, lots, price.
fn put_deal(
    out: &mut [u8],
    place: usize,
    member: u64,
    contract: u64,
    lots: i64,
    price: u64,
) -> usize
    requires { place + line_room ≤ length out.old }
    ensures { Wrote place (deal_text (record { member = member; contract = contract; lots = lots; price = price })) out.old out.new result × (result ≤ place + line_room) }
{
    let end = put_byte(out, place, b'D');
    let end = put_field(out, end, member);
    let end = put_field(out, end, contract);
    let end = put_signed_field(out, end, lots);
    let end = put_field(out, end, price);
    put_byte(out, end, b'\n')
}

// The first deal lines of a line table.
pub fn put_deals(out: &mut [u8], place: usize, lines: &[i64], count: usize) -> usize
    requires { (place + line_room * count ≤ length out.old) × (count * line_width ≤ length lines.now) }
    ensures { Wrote place (flat_map deal_text (first_lines count lines.now)) out.old out.new result × (result ≤ place + line_room * count) }
{
    let mut end = place;
    // By number, as first_lines reads them: a chunk of the table would be read by the same four names.
    for i in 0..count {
        let line = i * LINE_WIDTH;
        end = put_deal(
            out,
            end,
            lines[line + LINE_MEMBER].unsigned_abs(),
            lines[line + LINE_CONTRACT].unsigned_abs(),
            lines[line + LINE_LOTS],
            lines[line + LINE_PRICE].unsigned_abs(),
        );
    }
    end
}
