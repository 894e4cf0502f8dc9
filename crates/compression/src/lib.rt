// The compression function of SHA-256: one block of a message after the other changes the state.
#![tactic(auto)]

mod blocks;
mod rounds;
mod schedule;
mod state;
pub mod theorems;
mod words;

pub use blocks::process;
pub use state::State;
pub use words::initial;
