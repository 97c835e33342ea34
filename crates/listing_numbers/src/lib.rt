// Numbers of a journal in words.
#![tactic(auto)]

mod in_words;

pub use in_words::{put_contract, put_price, put_time};
