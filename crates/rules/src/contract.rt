ghost use Rattle.std.specs.Prelude.{◌≡◌};
ghost use Rattle.rules.specs.ContractTerms.{threshold_of, open_count, closing_distance};

use crate::units::Lots;

#[derive(Clone, Copy, PartialEq, Eq)]
pub enum ContractKind {
    Year,
    Quarter,
    Month,
}

// A contract as its kind and its place by delivery among the ledger's contracts of that kind, from 0.
#[derive(Clone, Copy)]
pub struct Term {
    pub kind: ContractKind,
    pub index: u64,
}

impl ContractKind {
    pub const YEAR_THRESHOLD: u64 = 10;

    pub const QUARTER_THRESHOLD: u64 = 20;

    pub const MONTH_THRESHOLD: u64 = 50;

    pub const YEARS_OPEN: u64 = 4;

    pub const QUARTERS_OPEN: u64 = 8;

    pub const MONTHS_OPEN: u64 = 15;

    pub const YEAR_DISTANCE: u64 = 5;

    pub const QUARTER_DISTANCE: u64 = 3;

    pub const MONTH_DISTANCE: u64 = 3;

    // The lots from which the day's deals alone make the GGF, and which a quote must have.
    pub fn threshold(self) -> Lots
        ensures { result.0 ≡ threshold_of self }
    {
        match self {
            ContractKind::Year => Lots(ContractKind::YEAR_THRESHOLD),
            ContractKind::Quarter => Lots(ContractKind::QUARTER_THRESHOLD),
            ContractKind::Month => Lots(ContractKind::MONTH_THRESHOLD),
        }
    }

    // How many of the kind are open at a time.
    pub fn open_count(self) -> u64
        ensures { result ≡ open_count self }
    {
        match self {
            ContractKind::Year => ContractKind::YEARS_OPEN,
            ContractKind::Quarter => ContractKind::QUARTERS_OPEN,
            ContractKind::Month => ContractKind::MONTHS_OPEN,
        }
    }

    // Which business day before its first delivery day a contract closes on.
    pub fn closing_distance(self) -> u64
        ensures { result ≡ closing_distance self }
    {
        match self {
            ContractKind::Year => ContractKind::YEAR_DISTANCE,
            ContractKind::Quarter => ContractKind::QUARTER_DISTANCE,
            ContractKind::Month => ContractKind::MONTH_DISTANCE,
        }
    }
}
