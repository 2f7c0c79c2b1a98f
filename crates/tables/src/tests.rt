use crate::by_set_cache::BySetCache;
use crate::by_way::ByWay;
use crate::column::{ByCache, BySet};

#[test]
fn columns_show_what_was_put(rt: HostRuntime) {
    let mut caches: ByCache<Option<u8>> = ByCache::new(None);
    let mut sets: BySet<u16> = BySet::new(0);
    caches.put(7, Some(1));
    caches.put(8, Some(2));
    sets.put(8, 300);
    assert_eq!(rt; caches.get(7), Some(1));
    assert_eq!(rt; caches.get(6), None);
    assert_eq!(rt; caches.get(8), None);
    assert_eq!(rt; sets.get(8), 300);
    assert_eq!(rt; sets.get(16), 0);
}

#[test]
fn tables_of_more_keys_show_what_was_put(rt: HostRuntime) {
    let mut turns: BySetCache<u8> = BySetCache::new(0);
    let mut ways: ByWay<u16> = ByWay::new(0);
    turns.put(15, 7, 3);
    turns.put(16, 0, 3);
    ways.put(1, 2, 3, 4);
    ways.put(1, 2, 4, 5);
    assert_eq!(rt; turns.get(15, 7), 3);
    assert_eq!(rt; turns.get(15, 6), 0);
    assert_eq!(rt; turns.get(16, 0), 0);
    assert_eq!(rt; ways.get(1, 2, 3), 4);
    assert_eq!(rt; ways.get(1, 3, 0), 0);
}
