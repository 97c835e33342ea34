// Proposals given to the check over leg structs, then applied as records to the same ledger. What it prints must be the file
// stdout. It has a line for each case: what the check says, and the number that the record gets, with its lines where it is
// accepted.
#![tactic(auto)]

ghost use Rattle.std.specs.Prelude.{◌≡◌, ◌+◌, ◌≤◌, length};

use rules::kinds::PROPOSAL;
use rules::layout::{BOOK_LENGTH, HEAD_LENGTH, LINES_LENGTH, PRICES_LENGTH, ROWS_LENGTH};
use rules::{Event, Kurus, Leg, Lots, OrderKind, Refusal, Side, Submission};
use std::io;
use std::io::Print;
use tables::LentTables;

const MEMBERS: u64 = 2;

// The paper's number for a proposal.
fn show_answer(rt: &impl Print, answer: Result<u64, Refusal>) -> io::Result<()> {
    match answer {
        Ok(lines) => print!(rt; " 0, lines {lines}"),
        Err(Refusal::TableUnsound) => rt.print(" 1"),
        Err(Refusal::RecordUnsound) => rt.print(" 3"),
        Err(Refusal::NotAcceptable) => rt.print(" 13"),
        Err(Refusal::TotalPassed) => rt.print(" 17"),
        _ => rt.print(" other"),
    }
}

// ---- the orders and the legs of a case
// An order that rests: member 0 buys, member 1 sells, each order in a second of its own.
fn resting(order: u64, contract: u64, side: Side, price: u64, lots: u64) -> Submission
    requires { order ≤ 12 }
{
    let member = match side {
        Side::Buy => 0,
        Side::Sell => 1,
    };
    Submission {
        time: 36000 + order,
        member,
        contract,
        side,
        kind: OrderKind::Resting,
        price: Kurus(price),
        lots: Lots(lots),
    }
}

// The first quarter of 2022 bought at 31000; its months sold at 31000, 30500 and 30000, the last one by two orders.
fn quarter(lots: u64, last: u64) -> [Submission; 12] {
    let mut orders = [resting(0, 18, Side::Buy, 31000, lots); 12];
    orders[1] = resting(1, 22, Side::Sell, 31000, lots);
    orders[2] = resting(2, 23, Side::Sell, 30500, lots);
    orders[3] = resting(3, 24, Side::Sell, 30000, last);
    orders[4] = resting(4, 24, Side::Sell, 30000, last);
    orders
}

// Three quarters of 2021 bought and their nine months sold.
fn three_quarters() -> [Submission; 12] {
    let mut orders = [resting(0, 2, Side::Buy, 31000, 1); 12];
    orders[1] = resting(1, 3, Side::Buy, 31000, 1);
    orders[2] = resting(2, 4, Side::Buy, 31000, 1);
    for i in 3..12 {
        orders[i] = resting(i as u64, i as u64 + 5, Side::Sell, 30000, 1);
    }
    orders
}

fn leg(order: u64, lots: u64, price: u64) -> Leg {
    Leg {
        order,
        lots: Lots(lots),
        price: Kurus(price),
    }
}

// A leg of each order, of the same lots and price.
fn each(lots: u64, price: u64) -> [Leg; 12] {
    let mut legs = [leg(0, lots, price); 12];
    for i in 1..12 {
        legs[i].order = i as u64;
    }
    legs
}

// ---- a case
fn put_leg(out: &mut [u8], at: usize, leg: Leg)
    requires { at + 10 ≤ length out.old }
{
    big_endian::put_u32(out, at, leg.order);
    big_endian::put_u16(out, at + 4, leg.lots.0);
    big_endian::put_u32(out, at + 6, leg.price.0);
}

// The bytes of a proposal, sound or not: the writer of records writes only sound ones. A thirteenth leg is zeros.
fn put_legs(out: &mut [u8], legs: [Leg; 12], count: u64)
    requires { (length out.old ≡ 132) × (count ≤ 13) }
{
    big_endian::put_u8(out, 0, PROPOSAL);
    big_endian::put_u8(out, 1, count);
    for i in 0..12 {
        put_leg(out, 2 + 10 * i, legs[i]);
    }
}

fn submit(tables: &mut LentTables<'_>, order: Submission) -> Result<u64, Refusal> {
    let mut out = [0u8; 15];
    codec::write_record(MEMBERS, Event::Submit(order), &[], &mut out)?;
    engine::apply(tables, &out)
}

// A ledger of first year 2021, start day 369, two members, no holidays and limits 1000, where the first orders rest.
fn make_ledger(
    tables: &mut LentTables<'_>,
    orders: [Submission; 12],
    count: usize,
) -> Result<(), Refusal>
    requires { count ≤ 12 }
{
    // Beside a field that is written the check takes no field as `&[u64]`.
    let book = &mut *tables.book;
    engine::make(
        tables.head,
        tables.prices,
        tables.lots,
        tables.value,
        book,
        b"VJR\x00\x01\x07\xe5\x01\x71\x02\x00\x00\x00\x03\xe8\x00\x00\x03\xe8",
    )?;
    for order in &orders[..count] {
        submit(tables, *order)?;
    }
    Ok(())
}

// The check asks for tables that are long enough and not damaged, so they are tested first.
fn show_check(
    rt: &impl Print,
    tables: &LentTables<'_>,
    legs: [Leg; 12],
    count: usize,
) -> io::Result<()> {
    if damage::is_unsound(
        tables.head(),
        tables.prices(),
        tables.lots(),
        tables.value(),
        tables.book(),
        tables.lines(),
    ) {
        return rt.print(": damaged");
    }
    if proposal_legs::are_first_acceptable(
        legs,
        count,
        tables.head(),
        tables.prices(),
        tables.book(),
    ) {
        rt.print(": acceptable; record")
    } else {
        rt.print(": not acceptable; record")
    }
}

// The number of a proposal's record.
fn show_record(
    rt: &impl Print,
    tables: &mut LentTables<'_>,
    legs: [Leg; 12],
    count: usize,
) -> io::Result<()>
    requires { count ≤ 13 }
{
    let mut out = [0u8; 132];
    put_legs(&mut out, legs, count as u64);
    let end = 2 + 10 * count;
    show_answer(rt, engine::apply(tables, &out[..end]))?;
    rt.println("")
}

// The first legs are given to the check, then applied as a record, in a ledger where the first orders rest.
fn case(
    rt: &impl Print,
    orders: [Submission; 12],
    order_count: usize,
    legs: [Leg; 12],
    count: usize,
) -> io::Result<()>
    requires { (order_count ≤ 12) × (count ≤ 13) }
{
    let mut head = [0u64; HEAD_LENGTH];
    let mut prices = [0u64; PRICES_LENGTH];
    let mut lots = [0i64; ROWS_LENGTH];
    let mut value = [0i64; ROWS_LENGTH];
    let mut book = [0u64; BOOK_LENGTH];
    let mut lines = [0i64; LINES_LENGTH];
    let mut tables = LentTables {
        head: &mut head,
        prices: &mut prices,
        lots: &mut lots,
        value: &mut value,
        book: &mut book,
        lines: &mut lines,
    };
    if make_ledger(&mut tables, orders, order_count).is_err() {
        return rt.println(": no ledger");
    }
    show_check(rt, &tables, legs, count)?;
    show_record(rt, &mut tables, legs, count)
}

// Document 01: accepted with every leg at 31000, refused with any leg at 30900.
fn starred(rt: &impl Print) -> io::Result<()> {
    let orders = quarter(1, 1);
    let mut legs = each(1, 31000);
    rt.print("every leg at 31000")?;
    case(rt, orders, 4, legs, 4)?;
    legs[0] = leg(0, 1, 30900);
    rt.print("the bought quarter at 30900")?;
    case(rt, orders, 4, legs, 4)?;
    legs[0] = leg(0, 1, 31000);
    legs[1] = leg(1, 1, 30900);
    rt.print("the first month at 30900")?;
    case(rt, orders, 4, legs, 4)?;
    legs[1] = leg(1, 1, 31000);
    legs[2] = leg(2, 1, 30900);
    rt.print("the second month at 30900")?;
    case(rt, orders, 4, legs, 4)?;
    legs[2] = leg(2, 1, 31000);
    legs[3] = leg(3, 1, 30900);
    rt.print("the third month at 30900")?;
    case(rt, orders, 4, legs, 4)
}

// No two contracts have the same hours, so one leg and two never balance.
fn counts(rt: &impl Print) -> io::Result<()> {
    let legs = each(1, 31000);
    let orders = quarter(1, 1);
    rt.print("1 leg")?;
    case(rt, orders, 4, legs, 1)?;
    rt.print("2 legs")?;
    case(rt, orders, 4, legs, 2)?;
    let orders = three_quarters();
    rt.print("12 legs")?;
    case(rt, orders, 12, legs, 12)?;
    rt.print("13 legs")?;
    case(rt, orders, 12, legs, 13)
}

// Order 3 is before order 4: of the same contract, at the same price.
fn priority(rt: &impl Print) -> io::Result<()> {
    let orders = quarter(3, 2);
    let mut legs = each(2, 31000);
    legs[3] = leg(3, 1, 31000);
    legs[4] = leg(4, 1, 31000);
    rt.print("one lot short of better priority")?;
    case(rt, orders, 5, legs, 5)?;
    legs = each(3, 31000);
    legs[3] = leg(3, 2, 31000);
    legs[4] = leg(4, 1, 31000);
    rt.print("better priority in full")?;
    case(rt, orders, 5, legs, 5)
}

// Two lots in all of every order, so that only the numbers do not rise.
fn twice(rt: &impl Print) -> io::Result<()> {
    let mut legs = each(2, 31000);
    legs[0] = leg(0, 1, 31000);
    legs[1] = leg(0, 1, 31000);
    legs[2] = leg(1, 2, 31000);
    legs[3] = leg(2, 2, 31000);
    legs[4] = leg(3, 2, 31000);
    rt.print("the same order twice")?;
    case(rt, quarter(3, 2), 5, legs, 5)
}

fn ranges(rt: &impl Print) -> io::Result<()> {
    let orders = quarter(100, 100);
    let mut legs = each(100, 31000);
    rt.print("legs of 100 lots")?;
    case(rt, orders, 5, legs, 4)?;
    legs[3] = leg(3, 101, 31000);
    rt.print("a leg of 101 lots")?;
    case(rt, orders, 5, legs, 4)
}

fn main(rt: HostRuntime) -> io::Result<()> {
    starred(&rt)?;
    counts(&rt)?;
    priority(&rt)?;
    twice(&rt)?;
    ranges(&rt)
}
