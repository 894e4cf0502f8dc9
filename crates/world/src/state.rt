// What there is in the valley.
ghost use Rattle.std.specs.Prelude.{◌≤◌, length};

use office::Desk;
use places::Places;
use visits::{Card, Lock};

pub mod setup;
pub mod step;

// The desk, and by their numbers the cards and locks that are set up. All memory is taken at set-up. It has no model, since the value of one can have no function in it: contracts speak of
// a world by `state_of`, `roster` and `list_of`.
#[derive(Debug, Drop)]
pub struct World {
    desk: Desk,
    cards: Places<Card>,
    locks: Places<Lock>,
    ghost few: { length desk.barred ≤ 1024 },
    ghost card_places: { length cards ≤ 65536 },
    ghost lock_places: { length locks ≤ 65536 },
}
