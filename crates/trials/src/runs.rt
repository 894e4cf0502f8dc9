// Runs that are refused, by example.
use model::{Event, Holder};
use spread::{RunError, run};
use std::test::Fail;
use world::World;

// Somebody that is not set up, and too little room: nothing is played.
#[test]
fn refused_runs(rt: HostRuntime) -> Result<(), Fail> {
    let heap = rt.alloc();
    let holders = [Holder::Card(1), Holder::Card(7), Holder::Lock(5)];
    let mut world = World::new(heap, &holders)?;
    let mut answers = Vec::with_capacity(heap, 3)?;
    let card = [Event::Bar(7), Event::AtDesk(9), Event::Bar(8)];
    assert_eq!(rt;
        run(&mut world, &card, &mut answers),
        Err(RunError::Unknown {
            at: 1,
            who: Holder::Card(9)
        })
    );
    let lock = [Event::Visit { card: 1, lock: 6 }];
    assert_eq!(rt;
        run(&mut world, &lock, &mut answers),
        Err(RunError::Unknown {
            at: 0,
            who: Holder::Lock(6)
        })
    );
    let thief = Event::Adversary {
        card: 7,
        lock: 6,
        says: 0,
        gives: None,
    };
    assert_eq!(rt; world.step(thief), Err(Holder::Lock(6)));
    let mut none = Vec::new(heap);
    assert_eq!(rt;
        run(&mut world, &[Event::Bar(7)], &mut none),
        Err(RunError::NoRoom)
    );
    assert_eq!(rt; answers.len(), 0);
    assert_eq!(rt; world.desk().newest(), 0);
    Ok(())
}
