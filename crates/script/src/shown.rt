// What is wrong with a script, in words.
ghost use Rattle.std.specs.Prelude.{Some};
ghost use Rattle.script.specs.Shown.{fault_text, error_text};

use crate::{LineFault, ScriptError};
use std::error::Error;
use std::fmt;

impl Error for LineFault {}

impl Error for ScriptError {}

// Both by hand, since a derived `Display` has no contract.
impl fmt::Display for LineFault {
    ghost output = { λ x. Some (fault_text x) };

    fn fmt<W: fmt::Write>(&self, f: &mut fmt::Formatter<W>) -> fmt::Result {
        let LineFault { line, wrong } = *self;
        write!(f, "line {line}: {wrong}")
    }
}

impl fmt::Display for ScriptError {
    ghost output = { λ e. Some (error_text e) };

    fn fmt<W: fmt::Write>(&self, f: &mut fmt::Formatter<W>) -> fmt::Result {
        match *self {
            ScriptError::Faulty(fault) => write!(f, "{fault}"),
            ScriptError::NoMemory => write!(f, "out of memory"),
        }
    }
}
