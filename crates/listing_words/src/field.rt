// What a field's number stands for: each is shown in its own way, so none is an Option's None.
#[derive(Clone, Copy)]
pub enum Quantity {
    Letter,
    Number,
    StartDayNumber,
    HolidayNumber,
    KindNumber,
    SideNumber,
    OrderKindNumber,
    Seconds,
    ContractNumber,
    Kurus,
}

// Which fields the bytes have, one after the other: of a header or of a record, which differ in what they count.
#[derive(Clone, Copy)]
pub enum Shape {
    Header { holidays: u64, members: u64 },
    // Only a proposal has legs.
    Record { kind: u64, legs: u64 },
}

#[derive(Clone, Copy)]
pub struct Range {
    pub least: u64,
    pub most: u64,
}

// What is found of one field. No Result: its error would be an enum of the other four, one level down in every match.
#[derive(Clone, Copy)]
pub enum Verdict {
    Passes,
    // The bytes end in it or before it.
    Cut,
    OutOfRange,
    // A start day on a Saturday or Sunday.
    NoBusinessDay,
    // A holiday on the start day.
    OnStartDay,
}
