// Who is set up so far.
ghost use Rattle.std.specs.Prelude.{◌≡◌, List, [], ◌∷◌, ◌++◌, MatchResult};
ghost use Rattle.model.specs.declared.Holder.{Holder};
ghost use Rattle.script.specs.Setup.{has};
ghost use Rattle.script.specs.Roster.{Lists};

use model::Holder;
use places::Places;
use std::alloc::{AllocError, Global};

// The cards and the locks by number, so that one look-up tells whether somebody is set up, however many are.
#[derive(Debug, Drop)]
pub(crate) struct Roster {
    cards: Places<()>,
    locks: Places<()>,
}

impl Roster {
    pub(crate) fn new(heap: Global) -> Roster
        ensures { Lists result [] }
    {
        Roster {
            cards: Places::new(heap),
            locks: Places::new(heap),
        }
    }

    pub(crate) fn has(&self, holder: Holder) -> bool
        ensures { (hs : List Holder) → Lists self.now hs → result ≡ has holder hs }
    {
        match holder {
            Holder::Card(card) => self.cards.get(card).is_some(),
            Holder::Lock(lock) => self.locks.get(lock).is_some(),
        }
    }

    pub(crate) fn add(&mut self, holder: Holder) -> Result<(), AllocError>
        ensures { MatchResult result (λ _. (hs : List Holder) → Lists self.old hs → Lists self.new (hs ++ holder ∷ [])) (λ _. self.new ≡ self.old) }
    {
        match holder {
            Holder::Card(card) => self.cards.insert(card, ()),
            Holder::Lock(lock) => self.locks.insert(lock, ()),
        }
    }
}
