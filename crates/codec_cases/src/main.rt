// Records and headers from literal bytes, every field at its ends and one past them. What it prints must be the file stdout: 3
// for an unsound record, 2 for an unsound header, else the fields as numbers, and whether writing them gives the bytes again.
#![tactic(auto)]

ghost use Rattle.std.specs.Prelude.{◌≡◌};
ghost use Rattle.rules.specs.Records.{reply_of_reading, reply_of_front};
ghost use Rattle.header.specs.Journal.{reply_of_header_reading};

use header::{JournalHeader, ReadHeader};
use record_kinds::places::MOST_NUMBERS;
use rules::{Event, Front, Kurus, Leg, Lots, Refusal};
use std::io;
use std::io::Print;

fn number(rt: &impl Print, n: u64) -> io::Result<()> {
    print!(rt; " {n}")
}

fn show_answer(rt: &impl Print, answer: Result<u64, Refusal>) -> io::Result<()> {
    match answer {
        Ok(n) => print!(rt; " wrote {n}"),
        Err(Refusal::TableUnsound) => number(rt, 1),
        Err(Refusal::HeaderUnsound) => number(rt, 2),
        Err(Refusal::RecordUnsound) => number(rt, 3),
        _ => rt.print(" other"),
    }
}

// The paper's number for what a reader answers.
fn reading_number(reading: Option<Event>) -> u64
    ensures { result ≡ (reply_of_reading reading).number }
{
    match reading {
        Some(_) => 0,
        None => 3,
    }
}

// The same of a header.
fn header_number(read: Option<ReadHeader>) -> u64
    ensures { result ≡ (reply_of_header_reading read).number }
{
    match read {
        Some(_) => 0,
        None => 2,
    }
}

// The same for what stands at the front of a stream.
fn front_number(front: Front) -> u64
    ensures { result ≡ (reply_of_front front).number }
{
    match front {
        Front::Whole(_) => 0,
        Front::Cut => 3,
        Front::UnknownKind => 3,
    }
}

// The number of an event's kind, then those of its fields.
fn show_event(rt: &impl Print, event: Event) -> io::Result<()> {
    let mut numbers = [0u64; MOST_NUMBERS];
    record_kinds::put_numbers(&mut numbers, event);
    let count = record_kinds::field_count(record_kinds::kind_number(event));
    rt.print("kind")?;
    for n in &numbers[..=count] {
        number(rt, *n)?;
    }
    Ok(())
}

fn show_leg(rt: &impl Print, leg: Leg) -> io::Result<()> {
    number(rt, leg.order)?;
    number(rt, leg.lots.0)?;
    number(rt, leg.price.0)
}

// Whether the record that is written begins as the bytes do.
fn show_again(rt: &impl Print, out: &[u8], bytes: &[u8]) -> io::Result<()> {
    if out.len() < bytes.len() {
        return rt.print(" short");
    }
    rt.print(if out.starts_with(bytes) {
        " again"
    } else {
        " differs"
    })
}

fn record(rt: &impl Print, members: u64, bytes: &[u8]) -> io::Result<()> {
    let reading = codec::read_record(members, bytes);
    match reading {
        Some(event) => {
            let legs = codec::read_legs(bytes);
            show_event(rt, event)?;
            show_leg(rt, legs[1])?;
            let mut out = [0u8; 128];
            show_answer(rt, codec::write_record(members, event, &legs, &mut out))?;
            show_again(rt, &out, bytes)?;
        }
        None => number(rt, reading_number(reading))?,
    }
    rt.println("")
}

// Fields at their most, and one past it.
fn submits(rt: &impl Print) -> io::Result<()> {
    record(
        rt,
        3,
        b"\x01\x00\x01\x02\x03\x02\x11\x01\x02\x00\x03\xef\xd0\x00\x64",
    )?;
    record(
        rt,
        3,
        b"\x01\x00\x01\x51\x7f\x00\x65\x00\x00\x00\x0f\x42\x40\x00\x01",
    )?;
    record(
        rt,
        3,
        b"\x01\x00\x01\x51\x80\x00\x65\x00\x00\x00\x0f\x42\x40\x00\x01",
    )?;
    record(
        rt,
        3,
        b"\x01\x00\x01\x51\x7f\x03\x65\x00\x00\x00\x0f\x42\x40\x00\x01",
    )?;
    record(
        rt,
        3,
        b"\x01\x00\x01\x51\x7f\x00\x66\x00\x00\x00\x0f\x42\x40\x00\x01",
    )?;
    record(
        rt,
        3,
        b"\x01\x00\x01\x51\x7f\x00\x65\x02\x00\x00\x0f\x42\x40\x00\x01",
    )?;
    record(
        rt,
        3,
        b"\x01\x00\x01\x51\x7f\x00\x65\x00\x03\x00\x0f\x42\x40\x00\x01",
    )?;
    record(
        rt,
        3,
        b"\x01\x00\x01\x51\x7f\x00\x65\x00\x00\x00\x0f\x42\x41\x00\x01",
    )
}

// Fields at their least, lots at both ends, a byte less and a byte more.
fn least_submits(rt: &impl Print) -> io::Result<()> {
    record(
        rt,
        3,
        b"\x01\x00\x00\x00\x00\x00\x00\x00\x01\x00\x00\x00\x01\x00\x01",
    )?;
    record(
        rt,
        3,
        b"\x01\x00\x00\x00\x00\x00\x00\x00\x01\x00\x00\x00\x00\x00\x01",
    )?;
    record(
        rt,
        3,
        b"\x01\x00\x00\x00\x00\x00\x00\x00\x01\x00\x00\x00\x01\x00\x00",
    )?;
    record(
        rt,
        3,
        b"\x01\x00\x00\x00\x00\x00\x00\x00\x01\x00\x00\x00\x01\x00\x64",
    )?;
    record(
        rt,
        3,
        b"\x01\x00\x00\x00\x00\x00\x00\x00\x01\x00\x00\x00\x01\x00\x65",
    )?;
    record(
        rt,
        3,
        b"\x01\x00\x00\x00\x00\x00\x00\x00\x01\x00\x00\x00\x01\x00",
    )?;
    record(
        rt,
        3,
        b"\x01\x00\x00\x00\x00\x00\x00\x00\x01\x00\x00\x00\x01\x00\x01\x00",
    )
}

fn cancels_and_limits(rt: &impl Print) -> io::Result<()> {
    record(rt, 3, b"\x02\x00\x01\x51\x7f\x02\xff\xff\xff\xff")?;
    record(rt, 3, b"\x02\x00\x01\x51\x80\x02\xff\xff\xff\xff")?;
    record(rt, 3, b"\x02\x00\x01\x51\x7f\x03\xff\xff\xff\xff")?;
    record(rt, 3, b"\x02\x00\x01\x51\x7f\x02\x01\x02\x03")?;
    record(rt, 3, b"\x03\x65\x00\x00\x00\x01\x00\x0f\x42\x40")?;
    record(rt, 3, b"\x03\x66\x00\x00\x00\x01\x00\x0f\x42\x40")?;
    record(rt, 3, b"\x03\x65\x00\x00\x00\x00\x00\x0f\x42\x40")?;
    record(rt, 3, b"\x03\x65\x00\x00\x00\x01\x00\x0f\x42\x41")?;
    record(rt, 3, b"\x03\x65\x00\x00\x01\x00\x00\x00\x01\x00")?;
    record(rt, 3, b"\x03\x65\x00\x00\x01\x01\x00\x00\x01\x00")
}

fn proposals(rt: &impl Print) -> io::Result<()> {
    record(
        rt,
        3,
        b"\x04\x02\x00\x00\x00\x01\x00\x02\x00\x00\x01\x00\x00\x01\x00\x00\x00\x03\x00\x01\x00\x01",
    )?;
    record(
        rt,
        3,
        b"\x04\x02\x00\x00\x00\x01\x00\x01\x00\x00\x00\x01\xff\xff\xff\xff\x00\x64\x00\x0f\x42\x40",
    )?;
    record(
        rt,
        3,
        b"\x04\x02\x00\x00\x00\x01\x00\x00\x00\x00\x00\x01\xff\xff\xff\xff\x00\x64\x00\x0f\x42\x40",
    )?;
    record(
        rt,
        3,
        b"\x04\x02\x00\x00\x00\x01\x00\x01\x00\x00\x00\x00\xff\xff\xff\xff\x00\x64\x00\x0f\x42\x40",
    )?;
    record(
        rt,
        3,
        b"\x04\x02\x00\x00\x00\x01\x00\x01\x00\x00\x00\x01\xff\xff\xff\xff\x00\x65\x00\x0f\x42\x40",
    )?;
    record(
        rt,
        3,
        b"\x04\x02\x00\x00\x00\x01\x00\x01\x00\x00\x00\x01\xff\xff\xff\xff\x00\x64\x00\x0f\x42\x41",
    )?;
    record(rt, 3, b"\x04\x01\x00\x00\x00\x01\x00\x01\x00\x00\x00\x01")?;
    record(rt, 3, b"\x04")
}

// Proposals of as many legs.
fn legs(rt: &impl Print, count: u64) -> io::Result<()> {
    let mut out = [0u8; 128];
    let leg = Leg {
        order: 7,
        lots: Lots(1),
        price: Kurus(256),
    };
    show_answer(
        rt,
        codec::write_record(3, Event::Proposal(count), &[leg; 12], &mut out),
    )?;
    number(rt, u64::from(out[1]))?;
    rt.println("")
}

fn others(rt: &impl Print) -> io::Result<()> {
    record(rt, 3, b"\x05\x02")?;
    record(rt, 3, b"\x05\x03")?;
    record(rt, 3, b"\x06\x65\x03\xe8")?;
    record(rt, 3, b"\x06\x66\x03\xe8")?;
    record(rt, 3, b"\x06\x00\x03\xe9")?;
    record(rt, 3, b"\x06\x00\x00\x01")?;
    record(rt, 3, b"\x06\x00\x00\x00")?;
    record(rt, 3, b"\x07\x00\x01\x51\x7f")?;
    record(rt, 3, b"\x07\x00\x01\x51\x80")?;
    record(rt, 3, b"\x07\x00\x00\xef\x10")?;
    record(rt, 3, b"\x00")?;
    record(rt, 3, b"\x08\x00")?;
    record(rt, 3, b"")?;
    record(rt, 32, b"\x05\x1f")?;
    record(rt, 33, b"\x05\x1f")?;
    record(rt, 0, b"\x05\x00")
}

// A record that has room for it but one byte.
fn short(rt: &impl Print) -> io::Result<()> {
    let mut out = [9u8; 4];
    show_answer(
        rt,
        codec::write_record(3, Event::CloseOfDay(61200), &[], &mut out),
    )?;
    show_again(rt, &out, b"\x09\x09\x09\x09")?;
    show_answer(
        rt,
        codec::write_record(3, Event::CloseOfDay(86400), &[], &mut out),
    )?;
    show_again(rt, &out, b"\x09\x09\x09\x09")?;
    show_answer(rt, codec::write_record(3, Event::Default(2), &[], &mut out))?;
    show_again(rt, &out, b"\x05\x02\x09\x09")?;
    rt.println("")
}

fn show_header(rt: &impl Print, h: JournalHeader) -> io::Result<()> {
    rt.print("header")?;
    number(rt, h.first_year)?;
    number(rt, h.start_day.0)?;
    number(rt, h.members)?;
    number(rt, h.holiday_count)?;
    number(rt, h.holidays[1])?;
    number(rt, h.limits[1])
}

fn header(rt: &impl Print, bytes: &[u8]) -> io::Result<()> {
    let read = header::read_header(bytes);
    match read {
        Some(read) => {
            show_header(rt, read.header)?;
            number(rt, read.length)?;
            let mut out = [0u8; 64];
            show_answer(rt, header::write_header(read.header, &mut out))?;
            show_again(rt, &out, bytes)?;
        }
        None => {
            let number = header_number(read);
            print!(rt; "{number}")?;
        }
    }
    rt.println("")
}

// The first is sound; then each rule is broken by one step.
fn headers(rt: &impl Print) -> io::Result<()> {
    header(
        rt,
        b"VJR\x00\x01\x07\xe5\x01\x71\x02\x02\x01\x72\x02\x00\x00\x00\x03\xe8\x00\x01\x02\x03",
    )?;
    header(
        rt,
        b"VJr\x00\x01\x07\xe5\x01\x71\x02\x02\x01\x72\x02\x00\x00\x00\x03\xe8\x00\x01\x02\x03",
    )?;
    header(
        rt,
        b"VJR\x00\x02\x07\xe5\x01\x71\x02\x02\x01\x72\x02\x00\x00\x00\x03\xe8\x00\x01\x02\x03",
    )?;
    header(
        rt,
        b"VJR\x00\x01\x07\xe5\x01\x70\x02\x02\x01\x72\x02\x00\x00\x00\x03\xe8\x00\x01\x02\x03",
    )?;
    header(
        rt,
        b"VJR\x00\x01\x07\xe5\x01\x72\x02\x02\x01\x72\x02\x00\x00\x00\x03\xe8\x00\x01\x02\x03",
    )?;
    header(
        rt,
        b"VJR\x00\x01\x07\xe5\x01\x71\x02\x02\x02\x00\x02\x00\x00\x00\x03\xe8\x00\x01\x02\x03",
    )?;
    header(
        rt,
        b"VJR\x00\x01\x07\xe5\x01\x71\x02\x02\x01\x72\x02\x00\x00\x00\x03\xe8\x00\x01\x86\xa0",
    )?;
    header(
        rt,
        b"VJR\x00\x01\x07\xe5\x01\x71\x02\x02\x01\x72\x02\x00\x00\x00\x03\xe8\x00\x01\x86\xa1",
    )?;
    header(
        rt,
        b"VJR\x00\x01\x07\xe5\x01\x71\x02\x02\x01\x72\x02\x00\x00\x00\x03\xe8\x00\x01\x02",
    )?;
    header(rt, b"VJR\x00\x01\x07\xe5\x01\x71\x00\x00")?;
    header(
        rt,
        b"VJR\x00\x01\x07\xe5\x01\x71\x01\x00\x00\x00\x00\x00\x05\x00",
    )?;
    header(rt, b"VJR\x00\x01")
}

// First years at their ends, with the span's first business day: 1 January 2020, 1 January 2094.
fn years(rt: &impl Print) -> io::Result<()> {
    header(rt, b"VJR\x00\x01\x07\xe4\x00\x00\x01\x00\x00\x00\x00\x00")?;
    header(rt, b"VJR\x00\x01\x07\xe3\x00\x00\x01\x00\x00\x00\x00\x00")?;
    header(rt, b"VJR\x00\x01\x08\x2e\x69\x95\x01\x00\x00\x00\x00\x00")?;
    header(rt, b"VJR\x00\x01\x08\x2e\x69\x94\x01\x00\x00\x00\x00\x00")?;
    header(rt, b"VJR\x00\x01\x08\x2f\x6b\x01\x01\x00\x00\x00\x00\x00")
}

fn front(rt: &impl Print, bytes: &[u8]) -> io::Result<()> {
    let front = codec::front_record(bytes);
    match front {
        Front::Whole(n) => print!(rt; "whole {n}")?,
        Front::Cut => rt.print("cut")?,
        Front::UnknownKind => rt.print("unknown")?,
    }
    number(rt, front_number(front))?;
    rt.println("")
}

fn fronts(rt: &impl Print) -> io::Result<()> {
    front(rt, b"\x05\x02\x07\x00")?;
    front(rt, b"\x07\x00\x00\xef")?;
    front(rt, b"\x04")?;
    front(rt, b"\x04\x01\x00\x00\x00\x01\x00\x01\x00\x00\x00\x01\x08")?;
    front(rt, b"\x08\x00")?;
    front(rt, b"")
}

fn main(rt: HostRuntime) -> io::Result<()> {
    submits(&rt)?;
    least_submits(&rt)?;
    cancels_and_limits(&rt)?;
    proposals(&rt)?;
    legs(&rt, 1)?;
    legs(&rt, 2)?;
    legs(&rt, 12)?;
    legs(&rt, 13)?;
    others(&rt)?;
    short(&rt)?;
    headers(&rt)?;
    years(&rt)?;
    fronts(&rt)
}
