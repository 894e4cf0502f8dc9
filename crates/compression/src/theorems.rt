// Laws of the definition of SHA-256.
ghost use Rattle.std.specs.Prelude.{ℕ, List};
ghost use Rattle.compression.specs.Laws.{Constants, Padding};

// The constants are what the RFC says that they are.
#[tactic(auto, using(crate::proofs::Constants::constants))]
pub fn constants_stand()
    ensures { Constants }
{}

// The padding of every message is what the RFC says that it is.
pub fn padding_stands()
    ensures { (m : List ℕ) → Padding m }
{}
