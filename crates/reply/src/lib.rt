// Answers as numbers.
#![tactic(auto)]

ghost use Rattle.std.specs.Prelude.{◌≡◌};
ghost use Rattle.rules.specs.Answers.{reply_of};

use rules::Refusal;

// An answer as a host gets it and as it is printed: the paper's number, and what goes with it.
#[derive(Clone, Copy)]
pub struct Reply {
    pub number: u64,
    // What an accepted call counts, with 5 the member, with 6 the contract, else 0.
    pub detail: u64,
}

pub fn numbered(number: u64, detail: u64) -> Reply
    ensures { (result.number ≡ number) × (result.detail ≡ detail) }
{
    Reply { number, detail }
}

pub fn reply_of(answer: Result<u64, Refusal>) -> Reply
    ensures { (result.number ≡ (reply_of answer).number) × (result.detail ≡ (reply_of answer).detail) }
{
    match answer {
        Ok(lines) => numbered(0, lines),
        Err(Refusal::TableUnsound) => numbered(1, 0),
        Err(Refusal::HeaderUnsound) => numbered(2, 0),
        Err(Refusal::RecordUnsound) => numbered(3, 0),
        Err(Refusal::TimeBelowLedger) => numbered(4, 0),
        Err(Refusal::MemberDefaulted(member)) => numbered(5, member),
        Err(Refusal::ContractNotOpen(contract)) => numbered(6, contract),
        Err(Refusal::PriceOutsideLimits) => numbered(7, 0),
        Err(Refusal::SixthSubmit) => numbered(8, 0),
        Err(Refusal::AboveLimit) => numbered(9, 0),
        Err(Refusal::CannotMatchInFull) => numbered(10, 0),
        Err(Refusal::BookFull) => numbered(11, 0),
        Err(Refusal::NoSuchOrder) => numbered(12, 0),
        Err(Refusal::NotAcceptable) => numbered(13, 0),
        Err(Refusal::NoReferencePrice) => numbered(14, 0),
        Err(Refusal::NoDefaultedLots) => numbered(15, 0),
        Err(Refusal::NoTaker) => numbered(16, 0),
        Err(Refusal::TotalPassed) => numbered(17, 0),
        Err(Refusal::NoLaterDay) => numbered(18, 0),
    }
}
