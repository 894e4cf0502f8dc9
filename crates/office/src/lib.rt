// The office: where cards are barred, and where a card is given the newest list.
#![tactic(auto)]

pub mod desk;

pub use desk::Desk;
