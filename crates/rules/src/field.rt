// The fields of a header and of a record.
#[derive(Clone, Copy, PartialEq, Eq)]
pub enum Field {
    // Of a header.
    LetterV,
    LetterJ,
    LetterR,
    Version,
    FirstYear,
    StartDay,
    Members,
    HolidayCount,
    Holiday,
    Limit,
    // Of a record.
    Kind,
    Time,
    Member,
    Contract,
    Side,
    OrderKind,
    Price,
    Lots,
    Order,
    Low,
    High,
    Legs,
    Ratio,
}
