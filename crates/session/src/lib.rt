// Sessions: commands, the shelf of orders, and the lines that are printed.
#![tactic(auto)]

mod answers;
mod chosen;
pub mod commands;
pub mod faults;
mod interpreter;
mod opened;
mod reading;
mod shelf;
mod state;
mod text;

pub use interpreter::transcript;
