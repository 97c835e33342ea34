// A contract as its kind and its place by delivery, and its number.
ghost use Rattle.std.specs.Prelude.{◌≡◌, ◌<◌};
ghost use Rattle.rules.specs.ContractTerms.{months_in, term_of, kind_of};
ghost use Rattle.rules.specs.OtherForms.{contract_of, contracts_in};

use rules::ranges::{
    CONTRACTS_IN_YEAR, FIRST_QUARTER, JANUARY, LAST_QUARTER, MONTHS_IN_QUARTER, MONTHS_IN_SPAN,
    MONTHS_IN_YEAR, QUARTERS_IN_SPAN, QUARTERS_IN_YEAR, YEARS_IN_SPAN,
};
use rules::{ContractKind, Term};

pub fn term_of(contract: u64) -> Term
    ensures { result ≡ term_of contract }
{
    let year = contract / CONTRACTS_IN_YEAR;
    let k = contract % CONTRACTS_IN_YEAR;
    if k == 0 {
        return Term {
            kind: ContractKind::Year,
            index: year,
        };
    }
    if k <= LAST_QUARTER {
        return Term {
            kind: ContractKind::Quarter,
            index: QUARTERS_IN_YEAR * year + (k - FIRST_QUARTER),
        };
    }
    Term {
        kind: ContractKind::Month,
        index: MONTHS_IN_YEAR * year + (k - JANUARY),
    }
}

pub fn kind_of(contract: u64) -> ContractKind
    ensures { result ≡ kind_of contract }
{
    term_of(contract).kind
}

pub fn months_in(kind: ContractKind) -> u64
    ensures { result ≡ months_in kind }
{
    match kind {
        ContractKind::Year => MONTHS_IN_YEAR,
        ContractKind::Quarter => MONTHS_IN_QUARTER,
        ContractKind::Month => 1,
    }
}

// How many contracts of a kind a ledger has.
pub fn contracts_in(kind: ContractKind) -> u64
    ensures { result ≡ contracts_in kind }
{
    match kind {
        ContractKind::Year => YEARS_IN_SPAN,
        ContractKind::Quarter => QUARTERS_IN_SPAN,
        ContractKind::Month => MONTHS_IN_SPAN,
    }
}

// The number of a kind's contract by its place in delivery.
pub fn contract_of(kind: ContractKind, index: u64) -> u64
    requires { index < contracts_in kind }
    ensures { result ≡ contract_of kind index }
{
    match kind {
        ContractKind::Year => CONTRACTS_IN_YEAR * index,
        ContractKind::Quarter => CONTRACTS_IN_YEAR * (index / QUARTERS_IN_YEAR)
            + FIRST_QUARTER
            + index % QUARTERS_IN_YEAR,
        ContractKind::Month => CONTRACTS_IN_YEAR * (index / MONTHS_IN_YEAR)
            + JANUARY
            + index % MONTHS_IN_YEAR,
    }
}
