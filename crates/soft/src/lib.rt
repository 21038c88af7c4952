// Soft numbers: what a kind of them is, whole numbers, and erasures.
#![tactic(auto)]

pub mod erasure;
pub mod soft;
pub mod whole;
