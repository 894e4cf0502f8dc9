// Scripts, by example: what is read and played, and what is refused at which line.
use script::{LockLine, read, report};
use spread::run;
use std::alloc::{AllocError, Global};
use std::test::Fail;
use world::World;

// What comes of a script's lines, or what is wrong with it.
fn told(heap: Global, text: &str) -> Result<String, AllocError> {
    let script = match read(heap, text.as_bytes()) {
        Ok(script) => script,
        Err(error) => return error.to_string(heap),
    };
    let mut world = World::new(heap, script.holders())?;
    let mut answers = Vec::with_capacity(heap, script.events().len())?;
    match run(&mut world, script.events(), &mut answers) {
        Ok(()) => report(heap, script.commands(), answers.as_slice()),
        Err(_) => String::from_str(heap, "not played"),
    }
}

#[test]
fn scripts(rt: HostRuntime) -> Result<(), Fail> {
    let table = [
        // comments, blanks and empty lines; every command; no event at all
        (
            "# a valley\n\n lock 5\t# the gate\r\ncard 1\r\n",
            "lock 5: ready\ncard 1: ready\n",
        ),
        // a card is barred twice; the desk's day goes back
        (
            "card 7\nbar 7\nbar 7\nday 3\nday 2\n",
            "card 7: ready\nbar 7: barring 0\nbar 7: refused 10\nday 3: today\nday 2: refused 2\n",
        ),
        // word goes over lock 5 and card 2 to lock 6, and not to lock 8
        (
            "lock 5\nlock 6\nlock 8\ncard 1\ncard 2\ncard 7\nbar 7\ndesk 1\nvisit 1 5\nvisit 2 5\nvisit 2 6\nthief 7 5\nthief 7 6\nthief 7 8\n",
            "lock 5: ready\nlock 6: ready\nlock 8: ready\ncard 1: ready\ncard 2: ready\ncard 7: ready\nbar 7: barring 0\ndesk 1: list 1\nvisit 1 5: opened\nvisit 2 5: opened\nvisit 2 6: opened\nthief 7 5: turned away 6\nthief 7 6: turned away 6\nthief 7 8: opened\n",
        ),
        // a list that was never signed; one under another number; none where one is awaited; one as what it is
        (
            "lock 8\ncard 7\nbar 7\nthief 7 8 says 2 gives 2\nthief 7 8 says 2 gives 1\nthief 7 8 says 1\nthief 7 8 says 1 gives 1\n",
            "lock 8: ready\ncard 7: ready\nbar 7: barring 0\nthief 7 8 says 2 gives 2: no list\nthief 7 8 says 2 gives 1: opened\nthief 7 8 says 1: broken off\nthief 7 8 says 1 gives 1: turned away 6\n",
        ),
        ("", "line 1: no command"),
        ("# only this\n\n", "line 1: no command"),
        ("jump 1\n", "line 1: unknown command"),
        ("card 1\nbar\n", "line 2: a word is missing"),
        ("card 1\nbar 1 2\n", "line 2: a word too many"),
        (
            "card 1\nlock 1\nthief 1 1 gives 2 says 1\n",
            "line 3: a word too many",
        ),
        ("card  1\n", "line 1: not a number from 1 to 65535"),
        ("card 0\n", "line 1: not a number from 1 to 65535"),
        ("card 65536\n", "line 1: not a number from 1 to 65535"),
        ("card 007\n", "line 1: not a number from 1 to 65535"),
        ("card -1\n", "line 1: not a number from 1 to 65535"),
        ("card +1\n", "line 1: not a number from 1 to 65535"),
        (
            "day 4294967296\n",
            "line 1: not a number from 0 to 4294967295",
        ),
        ("lock 5\nvisit 9 5\n", "line 2: no card 9 is set up above"),
        ("card 9\nvisit 9 5\n", "line 2: no lock 5 is set up above"),
        ("card 9\n\ncard 9\n", "line 3: set up already"),
        ("card 9\nday 1", "line 2: no newline at the end"),
    ];
    for (text, expected) in table {
        let told = told(rt.alloc(), text)?;
        assert_eq!(rt; told.as_str(), expected);
    }
    Ok(())
}

// What a lock has is printed in full, with a list that bars nobody too.
#[test]
fn lock_lines(rt: HostRuntime) -> Result<(), Fail> {
    let heap = rt.alloc();
    let barring = LockLine {
        lock: 5,
        list: 2,
        barrings: &[7, 4294967295],
    };
    let text = barring.to_string(heap)?;
    assert_eq!(rt; text.as_str(), "lock 5: list 2, bars 7 4294967295");
    let empty = LockLine {
        lock: 65535,
        list: 0,
        barrings: &[],
    };
    let text = empty.to_string(heap)?;
    assert_eq!(rt; text.as_str(), "lock 65535: list 0, bars none");
    Ok(())
}
