use crate::PVec;
use std::sync::Arc;
use std::test::Fail;

#[test]
fn places_of_all_levels_are_found(rt: HostRuntime) -> Result<(), Fail> {
    let alloc = rt.alloc();
    let mut list = PVec::new(alloc);
    for number in 0..4_160u64 {
        list = list.push(Arc::new(alloc, number)?)?;
    }
    assert_eq!(rt; list.len(), 4_160);
    for at in [0, 63, 64, 127, 4_095, 4_096, 4_159] {
        assert_eq!(rt; list.get(at).copied(), Some(at));
    }
    assert_eq!(rt; list.get(4_160).copied(), None);
    Ok(())
}

#[test]
fn earlier_versions_stay(rt: HostRuntime) -> Result<(), Fail> {
    let alloc = rt.alloc();
    let empty: PVec<u64> = PVec::new(alloc);
    let one = empty.push(Arc::new(alloc, 5)?)?;
    let two = one.push(Arc::new(alloc, 6)?)?;
    let other = two.set(0, Arc::new(alloc, 7)?)?;
    let same = other.share()?;
    assert_eq!(rt; (empty.len(), one.len(), two.len()), (0, 1, 2));
    assert_eq!(rt; two.get(0).copied(), Some(5));
    assert_eq!(rt; other.get(0).copied(), Some(7));
    assert_eq!(rt; same.get(1).copied(), Some(6));
    Ok(())
}
