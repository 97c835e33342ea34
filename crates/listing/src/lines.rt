// Fields and faults in words, and the lines of a header and of a record.
ghost use Rattle.std.specs.Prelude.{◌≡◌, ◌∷◌, ◌++◌, ◌+◌, ◌*◌, ◌^◌, ◌≤◌, ◌<◌, length};
ghost use Rattle.rules.specs.Text.{space, decimal};
ghost use Rattle.listing_words.specs.Fields.{fields_in, header_fault, fault_of, fault_place};
ghost use Rattle.listing.specs.Lines.{ListedAs, FieldsListed};
ghost use Rattle.listing_numbers.specs.Numbers.{price_text, contract_text};
ghost use Rattle.listing_numbers.specs.Short.{Short};
ghost use Rattle.listing.specs.Sizes.{most_bytes, line_room};
ghost use Rattle.listing_words.specs.Words.{name_of, field_words, hint, out_of_range, reason, fault_text, fault_words, record_line, header_line};

use crate::ranges::{
    does_pass, is_within, number_at, other_way_round, quantity_of, range_of, verdict_of,
};
use crate::shapes::{FIXED_FIELDS, count_of_kind, field_at};
use big_endian::u8_or_zero;
use header::{HOLIDAY_COUNT_BYTE, MEMBERS_BYTE};
use listing_numbers::{put_contract, put_price, put_time};
use listing_words::{
    Quantity, Range, Shape, Verdict, kind_word, name_of, order_kind_word, put_word, side_word,
};
use record_kinds::places::{KIND_BYTE, PROPOSAL_LEGS_BYTE};
use record_kinds::width_of;
use rules::Field;
use text::{put_byte, put_bytes, put_decimal, put_field};

// A field's name and its number. This and the next two stay apart: one for all would take the number's writer as a
// closure, and the bytes that it needs as a parameter, to save one line in each.
fn put_named(out: &mut [u8], place: usize, field: Field, number: u64) -> usize
    requires { place + 45 ≤ length out.old }
    ensures { Short 45 place (name_of field ++ (space ∷ decimal number)) out.old out.new result }
{
    let i = put_word(out, place, name_of(field));
    put_field(out, i, number)
}

fn put_priced(out: &mut [u8], place: usize, field: Field, kurus: u64) -> usize
    requires { place + 48 ≤ length out.old }
    ensures { Short 48 place (name_of field ++ (space ∷ price_text kurus)) out.old out.new result }
{
    let i = put_word(out, place, name_of(field));
    put_price(out, i, kurus)
}

fn put_named_contract(
    out: &mut [u8],
    place: usize,
    field: Field,
    first_year: u64,
    contract: u64,
) -> usize
    requires { (place + 71 ≤ length out.old) × (first_year ≤ 2 ^ 32) × (contract < 2 ^ 32) }
    ensures { Short 71 place (name_of field ++ contract_text first_year contract) out.old out.new result }
{
    let i = put_word(out, place, name_of(field));
    put_contract(out, i, first_year, contract)
}

fn put_quantity(out: &mut [u8], place: usize, first_year: u64, field: Field, number: u64) -> usize
    requires { (place + 80 ≤ length out.old) × (first_year ≤ 2 ^ 32) × (number < 2 ^ 32) }
    ensures { Short 80 place (field_words first_year field number) out.old out.new result }
{
    let quantity = quantity_of(field);
    match quantity {
        Quantity::Letter => put_byte(out, place, (number % 256) as u8),
        Quantity::Number => put_named(out, place, field, number),
        Quantity::StartDayNumber => put_named(out, place, field, number),
        Quantity::HolidayNumber => put_named(out, place, field, number),
        Quantity::KindNumber => put_word(out, place, kind_word(number)),
        Quantity::SideNumber => put_word(out, place, side_word(number)),
        Quantity::OrderKindNumber => put_word(out, place, order_kind_word(number)),
        Quantity::Seconds => put_time(out, place, number),
        Quantity::ContractNumber => put_named_contract(out, place, field, first_year, number),
        Quantity::Kurus => put_priced(out, place, field, number),
    }
}

// What the bytes say the other way round, where that is in range.
fn put_hint(out: &mut [u8], place: usize, range: Range, size: usize, number: u64) -> usize
    requires { place + 45 ≤ length out.old }
    ensures { Short 45 place (hint range size number) out.old out.new result }
{
    let turned = other_way_round(size, number);
    if is_within(range, turned) {
        let i = put_bytes(out, place, b"; the other way round");
        return put_field(out, i, turned);
    }
    place
}

fn put_out_of_range(out: &mut [u8], place: usize, range: Range, size: usize, number: u64) -> usize
    requires { place + 118 ≤ length out.old }
    ensures { Short 118 place (out_of_range range size number) out.old out.new result }
{
    let i = put_field(out, place, number);
    let i = put_bytes(out, i, b" out of");
    let i = put_field(out, i, range.least);
    let i = put_bytes(out, i, b" to");
    let i = put_field(out, i, range.most);
    put_hint(out, i, range, size, number)
}

fn put_reason(
    out: &mut [u8],
    place: usize,
    range: Range,
    size: usize,
    number: u64,
    verdict: Verdict,
) -> usize
    requires { place + 118 ≤ length out.old }
    ensures { Short 118 place (reason range size number verdict) out.old out.new result }
{
    match verdict {
        Verdict::Passes => place,
        Verdict::Cut => put_bytes(out, place, b" cut off"),
        Verdict::OutOfRange => put_out_of_range(out, place, range, size, number),
        Verdict::NoBusinessDay => {
            let i = put_field(out, place, number);
            put_bytes(out, i, b" is no business day")
        }
        Verdict::OnStartDay => {
            let i = put_field(out, place, number);
            put_bytes(out, i, b" is the start day")
        }
    }
}

// Where a fault is found; that of a field that is cut, where the bytes end.
fn fault_place(bytes: &[u8], place: usize, verdict: Verdict) -> u64
    ensures { result ≡ fault_place bytes.now place verdict }
{
    match verdict {
        Verdict::Cut => bytes.len() as u64,
        Verdict::Passes | Verdict::OutOfRange | Verdict::NoBusinessDay | Verdict::OnStartDay =>
            place as u64,
    }
}

fn put_fault_text(
    out: &mut [u8],
    place: usize,
    byte: u64,
    field: Field,
    range: Range,
    size: usize,
    number: u64,
    verdict: Verdict,
) -> usize
    requires { place + 170 ≤ length out.old }
    ensures { Short 170 place (fault_text byte field (reason range size number verdict)) out.old out.new result }
{
    let i = put_bytes(out, place, b"; byte");
    let i = put_field(out, i, byte);
    let i = put_byte(out, i, b':');
    let i = put_word(out, i, name_of(field));
    put_reason(out, i, range, size, number, verdict)
}

fn put_fault(
    members: u64,
    bytes: &[u8],
    base: u64,
    at: usize,
    field: Field,
    out: &mut [u8],
    place: usize,
) -> usize
    requires { (place + 170 ≤ length out.old) × (at ≤ length bytes.now) × (length bytes.now ≤ most_bytes) × (base ≤ 2 ^ 62) }
    ensures { Short 170 place (fault_words base members bytes.now at field) out.old out.new result }
{
    let verdict = verdict_of(members, bytes, at, field);
    let range = range_of(members, bytes, at, field);
    let size = width_of(field);
    let number = number_at(bytes, at, size);
    let byte = base + fault_place(bytes, at, verdict);
    put_fault_text(out, place, byte, field, range, size, number, verdict)
}

// No Result: a line with a fault is written too, and ends as any other.
#[derive(Clone, Copy)]
pub struct Listed {
    // The place after what was written.
    pub end: usize,
    // Whether no field is at fault.
    pub is_sound: bool,
}

// The fields of a shape one after the other, up to the first that is at fault.
fn put_fields(
    shape: Shape,
    count: u64,
    members: u64,
    first_year: u64,
    base: u64,
    bytes: &[u8],
    out: &mut [u8],
    start: usize,
) -> Listed
    requires count_value { (count ≡ length (fields_in shape)) × (start + (80 * count + 170) ≤ length out.old) × (length bytes.now ≤ most_bytes) }
    requires first_year_bound { (first_year ≤ 2 ^ 32) × (base ≤ 2 ^ 62) × (count ≤ 767) }
    ensures { FieldsListed count start first_year base members bytes.now shape out.old out.new result }
{
    let mut place: usize = 0;
    let mut end = start;
    for i in 0..count {
        let field = field_at(shape, i);
        if !does_pass(verdict_of(members, bytes, place, field)) {
            return Listed {
                end: put_fault(members, bytes, base, place, field, out, end),
                is_sound: false,
            };
        }
        let size = width_of(field);
        end = put_quantity(out, end, first_year, field, number_at(bytes, place, size));
        place += size;
    }
    Listed {
        end,
        is_sound: true,
    }
}

// The most bytes of a line.
pub const ROOM: usize = 62000;

pub fn put_header_line(bytes: &[u8], out: &mut [u8], start: usize) -> Listed
    requires { (start + line_room ≤ length out.old) × (length bytes.now ≤ most_bytes) }
    ensures { ListedAs line_room start (header_line bytes.now) (header_fault bytes.now) out.old out.new result }
{
    let members = u8_or_zero(bytes, MEMBERS_BYTE);
    let holidays = u8_or_zero(bytes, HOLIDAY_COUNT_BYTE);
    let count = FIXED_FIELDS + (holidays + members);
    let shape = Shape::Header { holidays, members };
    let listed = put_fields(shape, count, 0, 0, 0, bytes, out, start);
    Listed {
        end: put_byte(out, listed.end, b'\n'),
        ..listed
    }
}

// Writes the line of the record that the bytes are, with its number, counted from 1; base bytes come before it.
pub fn put_record_line(
    members: u64,
    first_year: u64,
    number: u64,
    base: u64,
    bytes: &[u8],
    out: &mut [u8],
    start: usize,
) -> Listed
    requires line_room_in_bounds { (start + line_room ≤ length out.old) × (length bytes.now ≤ most_bytes) }
    requires first_year_bound { (first_year ≤ 2 ^ 32) × (base ≤ 2 ^ 62) }
    ensures { ListedAs line_room start (record_line members first_year number base bytes.now) (fault_of members bytes.now) out.old out.new result }
{
    let kind = u8_or_zero(bytes, KIND_BYTE);
    let legs = u8_or_zero(bytes, PROPOSAL_LEGS_BYTE);
    let count = 1 + count_of_kind(kind, legs);
    let i = put_decimal(out, start, number);
    let shape = Shape::Record { kind, legs };
    let listed = put_fields(shape, count, members, first_year, base, bytes, out, i);
    Listed {
        end: put_byte(out, listed.end, b'\n'),
        ..listed
    }
}
