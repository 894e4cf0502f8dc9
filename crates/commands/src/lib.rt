// The commands of a script: what each line says, and what the command sets up or plays.
#![tactic(auto)]

pub mod command;
mod line;
mod shown;

pub use command::Command;
