// Signatures: two functions behind traits, what they mean and their law; and a stand-in for programs.
#![tactic(auto)]

pub mod keys;
pub mod same;
pub mod stand_in;
