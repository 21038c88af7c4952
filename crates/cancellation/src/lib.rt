// Plain cancellation and the span rules.
#![tactic(auto)]

pub mod faults;
mod places;
pub mod rows;
mod rules;
pub mod settle;
pub mod sizes;
