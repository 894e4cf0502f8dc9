// The valley as it is at one moment: desk, cards and locks, and what each event does to them.
#![tactic(auto)]

pub mod state;

pub use state::World;
