// Contracts as the ledger's code asks for them: each function promises what a definition of `rules` says. `is_open` takes every
// number and tests itself whether the contract has a term.
#![tactic(auto)]

mod opening;
mod terms;

pub use opening::is_open;
pub use terms::{contract_of, contracts_in, kind_of, months_in, term_of};
