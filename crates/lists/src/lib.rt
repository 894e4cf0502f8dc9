// A list of barred cards as a slice of card numbers, in the order in which they were barred.
#![tactic(auto)]

ghost use Rattle.std.specs.Prelude.{◌≡◌, Decides};
ghost use Rattle.lists.specs.Listed.{listed, Stands};

// Whether a card stands on a list. It reads no further than the card: a loop that is left by a label there, as was asked for, where `contains` would be shorter.
#[tactic(auto, using(crate::proofs::Places::absent, crate::proofs::Places::finds, crate::proofs::Places::tells))]
pub fn is_listed(barrings: &[u32], card: u32) -> bool
    ensures value { result ≡ listed card barrings.now }
    ensures place { Decides result (Stands card barrings.now) }
{
    let mut found = false;
    'scan: for barred in barrings {
        if *barred == card {
            found = true;
            break 'scan;
        }
    }
    found
}
