// The closing days of document 01's cases, open contracts, and business days with holidays. What it prints must be the file stdout.
#![tactic(auto)]

ghost use Rattle.std.specs.Prelude.{◌≡◌, ◌<◌};
ghost use Rattle.rules.specs.Answers.{reply_of_next_day};

use rules::DayNo;
use rules::layout::TERMS;
use std::io;
use std::io::Print;

// 25, 29 and 30 December 2020: a Friday, a Tuesday, a Wednesday.
const HOLIDAYS: [u64; 3] = [359, 363, 364];

// The public holidays of Turkey in 2021: 1 January, 23 April, 1 May, 13 to 15 and 19 May, 15 July, 20 to 23 July,
// 30 August, 29 October. Two of them fall on weekend days.
const FEASTS: [u64; 14] = [
    366, 478, 486, 498, 499, 500, 504, 561, 566, 567, 568, 569, 607, 667,
];

fn print_day(rt: &impl Print, day: Option<DayNo>) -> io::Result<()> {
    match day {
        Some(x) => rt.println(x.0),
        None => rt.println("none"),
    }
}

// The paper's number for the next business day.
fn next_day_number(day: Option<DayNo>) -> u64
    ensures { result ≡ (reply_of_next_day day).number }
{
    match day {
        Some(_) => 0,
        None => 18,
    }
}

// The next business day of a ledger that begins in 2020, and its number.
fn print_next(rt: &impl Print, holidays: &[u64], day: DayNo) -> io::Result<()> {
    let next = calendar::next_business_day(2020, holidays, day);
    print_day(rt, next)?;
    rt.println(next_day_number(next))
}

// The last day up to 700 on which a contract of a ledger that begins in 2020 is open: its closing day.
fn print_closing(rt: &impl Print, holidays: &[u64], contract: u64) -> io::Result<()> {
    let mut last = None;
    for day in (0..=700).map(DayNo) {
        if contracts::is_open(2020, holidays, day, contract) {
            last = Some(day);
        }
    }
    print_day(rt, last)
}

// The contracts that are open on a day, each with the number of its delivery days.
fn print_open(rt: &impl Print, holidays: &[u64], day: DayNo) -> io::Result<()> {
    let mut days = [0u64; TERMS];
    open_days::find_open_days(2020, holidays, day, &mut days);
    for (contract, count) in days.iter().enumerate() {
        if 0 < *count {
            println!(rt; "{contract} {count}")?;
        }
    }
    Ok(())
}

// A 1 for each business day from `from` up to but not including `end`, a 0 for each other day.
fn print_business_days(rt: &impl Print, holidays: &[u64], from: u64, end: u64) -> io::Result<()> {
    for day in from..end {
        let digit = if calendar::is_business_day(holidays, DayNo(day)) {
            "1"
        } else {
            "0"
        };
        rt.print(digit)?;
    }
    rt.println("")
}

fn main(rt: HostRuntime) -> io::Result<()> {
    // Year 2021, its January, its four quarters; the year 2020 closed before day 0.
    print_closing(&rt, &[], 17)?;
    print_closing(&rt, &[], 22)?;
    print_closing(&rt, &[], 18)?;
    print_closing(&rt, &[], 19)?;
    print_closing(&rt, &[], 20)?;
    print_closing(&rt, &[], 21)?;
    print_closing(&rt, &[], 0)?;
    print_closing(&rt, &HOLIDAYS, 17)?;
    print_closing(&rt, &HOLIDAYS, 22)?;
    // After Friday, 3 January 2020; after 24 December 2020; after the span's last business day.
    print_next(&rt, &HOLIDAYS, DayNo(2))?;
    print_next(&rt, &HOLIDAYS, DayNo(358))?;
    print_next(&rt, &HOLIDAYS, DayNo(2191))?;
    // A February of 29 days and a year of 366 among them; then the day on which January and first quarter 2021 close.
    print_open(&rt, &[], DayNo(1))?;
    print_open(&rt, &[], DayNo(363))?;
    print_business_days(&rt, &FEASTS, 366, 731)
}
