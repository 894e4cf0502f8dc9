// The words of a line of a script, and what can be wrong with them.
#![tactic(auto)]

pub mod cut;
pub mod words;
pub mod wrong;

pub use words::Words;
pub use wrong::Wrong;
