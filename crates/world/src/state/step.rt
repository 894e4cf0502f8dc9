// What each event does.
ghost use Rattle.std.specs.Prelude.{◌≡◌, take};
ghost use Rattle.visits.specs.Exchange.{decision};
ghost use Rattle.model.specs.declared.Answer.TheVariants.{Decided};
ghost use Rattle.model.specs.declared.Event.{Event};
ghost use Rattle.model.specs.declared.Holder.{Holder};
ghost use Rattle.world.specs.World.{list_of, roster, Moves, Steps};

use super::World;
use model::{Answer, Event, Holder};
use office::Desk;
use visits::{Card, Lock, decide, exchange};

// What a lock says to a card, by its list as it is now.
fn decided(desk: &Desk, card: u16, host: Lock) -> Answer
    ensures { result ≡ Decided (decision card (take host desk.now.barred)) }
{
    Answer::Decided(decide(desk.list(host.list()), u32::from(card)))
}

impl World {
    // The desk as it is.
    pub fn desk(&self) -> &Desk
        ensures { result.now ≡ self.now.desk }
    {
        &self.desk
    }

    // A card's memory, if it is set up. This and `lock` are no generic function: each is one look-up, and a trait for the two would be longer.
    pub fn card(&self, card: u16) -> Option<Card>
        ensures { result ≡ list_of self.now (Holder.Card card) }
    {
        self.cards.get(card)
    }

    // A lock's memory, if it is set up.
    pub fn lock(&self, lock: u16) -> Option<Lock>
        ensures { result ≡ list_of self.now (Holder.Lock lock) }
    {
        self.locks.get(lock)
    }

    // Whether a card or a lock is set up.
    pub fn has(&self, holder: Holder) -> bool
        ensures { result ≡ roster self.now holder }
    {
        match holder {
            Holder::Card(card) => self.cards.get(card).is_some(),
            Holder::Lock(lock) => self.locks.get(lock).is_some(),
        }
    }

    fn day(&mut self, day: u32) -> Answer
        ensures { Moves self.old (Event.Day day) result self.new }
    {
        match self.desk.set_day(day) {
            Ok(()) => Answer::Today,
            Err(fault) => Answer::Refused(fault),
        }
    }

    fn bar(&mut self, card: u16) -> Result<Answer, Holder>
        ensures { Steps self.old (Event.Bar card) result self.new }
    {
        self.card(card).ok_or(Holder::Card(card))?;
        match self.desk.bar(u32::from(card)) {
            Ok(number) => Ok(Answer::Barring(number)),
            Err(fault) => Ok(Answer::Refused(fault)),
        }
    }

    fn at_desk(&mut self, card: u16) -> Result<Answer, Holder>
        ensures { Steps self.old (Event.AtDesk card) result self.new }
    {
        let mut memory = self.card(card).ok_or(Holder::Card(card))?;
        let number = self.desk.newest();
        memory.take_list(number);
        self.cards.replace(card, memory);
        Ok(Answer::Given(number))
    }

    fn visit(&mut self, card: u16, lock: u16) -> Result<Answer, Holder>
        ensures { Steps self.old (Event.Visit card lock) result self.new }
    {
        // Whom a visit names is taken apart by `let .. else`, here and in `adversary`, as was asked for.
        let Some(mut visitor) = self.card(card) else {
            return Err(Holder::Card(card));
        };
        let Some(mut host) = self.lock(lock) else {
            return Err(Holder::Lock(lock));
        };
        exchange(&mut visitor, &mut host);
        self.cards.replace(card, visitor);
        self.locks.replace(lock, host);
        Ok(decided(&self.desk, card, host))
    }

    fn adversary(
        &mut self,
        card: u16,
        lock: u16,
        says: u32,
        gives: Option<u32>,
    ) -> Result<Answer, Holder>
        ensures { Steps self.old (Event.Adversary card lock says gives) result self.new }
    {
        let Some(_) = self.card(card) else {
            return Err(Holder::Card(card));
        };
        let Some(mut host) = self.lock(lock) else {
            return Err(Holder::Lock(lock));
        };
        // it can give only what the desk once signed
        if gives.is_some_and(|number| !self.desk.has_signed(number)) {
            return Ok(Answer::NoList);
        }
        let comes = host.hear(says, gives);
        self.locks.replace(lock, host);
        if !comes {
            return Ok(Answer::BrokenOff);
        }
        Ok(decided(&self.desk, card, host))
    }

    // What an event brings about. Only an event that names somebody unknown fails, and it changes nothing.
    pub fn step(&mut self, event: Event) -> Result<Answer, Holder>
        ensures { Steps self.old event result self.new }
    {
        match event {
            Event::Day(day) => Ok(self.day(day)),
            Event::Bar(card) => self.bar(card),
            Event::AtDesk(card) => self.at_desk(card),
            Event::Visit { card, lock } => self.visit(card, lock),
            Event::Adversary {
                card,
                lock,
                says,
                gives,
            } => self.adversary(card, lock, says, gives),
        }
    }
}
