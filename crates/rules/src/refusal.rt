// Why a record or a header is turned back: a case for each cause of document 01, in its order. An accepted one is answered with
// Ok and the number of its deal lines or, by a writer, of the bytes written.
#[derive(Clone, Copy, PartialEq, Eq)]
pub enum Refusal {
    TableUnsound,
    HeaderUnsound,
    RecordUnsound,
    TimeBelowLedger,
    // With the member.
    MemberDefaulted(u64),
    // With the contract.
    ContractNotOpen(u64),
    PriceOutsideLimits,
    SixthSubmit,
    AboveLimit,
    CannotMatchInFull,
    BookFull,
    NoSuchOrder,
    NotAcceptable,
    NoReferencePrice,
    NoDefaultedLots,
    NoTaker,
    TotalPassed,
    NoLaterDay,
}
