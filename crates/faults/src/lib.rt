// Why something is refused, and how a visit ends.
#![tactic(auto)]

ghost use Rattle.std.specs.Prelude.{◌≡◌};
ghost use Rattle.faults.specs.Numbers.{fault_number, NumbersTell};

// The ten causes of a refusal, each with its number in print and on the wire. What is refused changes nothing.
#[derive(Clone, Copy, Debug, PartialEq, Eq)]
pub enum Fault {
    UnknownForm = 1,
    OutOfRange = 2,
    WrongSignature = 3,
    OtherGroup = 4,
    RunOut = 5,
    Barred = 6,
    NotAwaited = 7,
    OlderList = 8,
    ListFull = 9,
    BarredAlready = 10,
}

impl From<Fault> for u8 {
    ghost from_gives = { λ fault number. number ≡ fault_number fault };

    fn from(fault: Fault) -> u8 {
        fault as u8
    }
}

// What a lock decides at the end of a visit: it opens, or it turns the card away for a cause. An enum of its own, as was asked for, in the place of a Result: to be turned away is no error.
#[derive(Clone, Copy, Debug, PartialEq, Eq)]
pub enum VisitEnd {
    Opened,
    Refused(Fault),
}

// The theorem that a number tells the cause.
#[tactic(auto, using(crate::proofs::Tells::tells))]
pub fn numbers_tell()
    ensures { NumbersTell }
{}
