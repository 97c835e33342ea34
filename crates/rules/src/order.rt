use crate::units::{DayNo, Kurus, Lots};

#[derive(Clone, Copy, PartialEq, Eq)]
pub enum Side {
    Buy,
    Sell,
}

// A resting order.
#[derive(Clone, Copy)]
pub struct Order {
    // Accepted submits before it, from 0.
    pub number: u64,
    pub member: u64,
    pub contract: u64,
    pub side: Side,
    pub price: Kurus,
    // What is left of it.
    pub lots: Lots,
    // When it entered.
    pub day: DayNo,
    pub time: u64,
}
