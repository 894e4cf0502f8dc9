// Setting a world up.
ghost use Rattle.std.specs.Prelude.{IfOk};
ghost use Rattle.world.specs.World.{Fresh};

use super::World;
use model::Holder;
use office::Desk;
use places::Places;
use std::alloc::{AllocError, Global};
use visits::{Card, Lock};

impl World {
    // A world with these cards and locks, where nobody is barred and nobody has a list.
    pub fn new(heap: Global, holders: &[Holder]) -> Result<World, AllocError>
        ensures { IfOk result (λ w. Fresh holders.now w) }
    {
        let desk = Desk::new(heap)?;
        let mut cards = Places::new(heap);
        let mut locks = Places::new(heap);
        for holder in holders {
            match *holder {
                Holder::Card(number) => cards.insert(number, Card::new())?,
                Holder::Lock(number) => locks.insert(number, Lock::new())?,
            }
        }
        Ok(World { desk, cards, locks })
    }
}
