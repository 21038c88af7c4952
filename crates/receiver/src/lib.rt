// The receiver.
#![tactic(auto)]

mod advancing;
pub mod answers;
mod calls;
pub mod caps;
pub mod faults;
mod loading;
pub mod memory;
mod open_span;
mod pending;
pub mod receiver;
pub mod receiving;
mod rowing;
pub mod stack;
pub mod states;
mod steps;
pub mod theorems_runs;
