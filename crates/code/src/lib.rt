// Positions and spans, the polar transform, orders, the two makes of map, and the encoder.
#![tactic(auto)]

mod bits;
pub mod choosing;
pub mod encode;
pub mod faults;
pub mod kinds;
mod law;
pub mod listed;
pub mod listed_map;
pub mod map;
pub mod order;
mod patterns;
pub mod ranked;
pub mod ranked_map;
mod ranks;
pub mod reading;
pub mod sizes;
pub mod theorems_looks;
pub mod theorems_order;
pub mod theorems_transform;
pub mod transform;
