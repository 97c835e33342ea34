// The GGF, the reference price, of the open contracts: which orders quote, and what is written at the close of a day.
#![tactic(auto)]

mod prices;
mod quotes;

pub use prices::{clear_deals, write_ggfs};
pub use quotes::write_quotes;
