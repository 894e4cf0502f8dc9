// A map from numbers, by example: what is put at the lowest and the highest number stands there.
use places::Places;
use std::test::Fail;

#[test]
fn lowest_and_highest(rt: HostRuntime) -> Result<(), Fail> {
    let mut map = Places::new(rt.alloc());
    for number in [7, 65535, 0] {
        map.insert(number, number)?;
    }
    map.replace(7, 8);
    map.replace(6, 8);
    let told = [0, 6, 7, 64, 65535].map(|number| map.get(number));
    assert!(rt; told == [Some(0), None, Some(8), None, Some(65535)]);
    Ok(())
}
