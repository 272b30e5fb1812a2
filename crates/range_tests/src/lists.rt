use order::total_order::TotalOrder;
use ranges::byte_range::ByteRange;
use ranges::read_list::ReadList;
use std::cmp::Ordering;

#[test]
fn order_of_ranges(rt: HostRuntime) {
    let ascending = [
        ByteRange::FromStart(0, None),
        ByteRange::FromStart(0, Some(0)),
        ByteRange::FromStart(0, Some(u64::MAX)),
        ByteRange::FromStart(1, None),
        ByteRange::FromStart(u64::MAX, Some(1)),
        ByteRange::Suffix(0),
        ByteRange::Suffix(u64::MAX),
    ];
    for (i, a) in ascending.iter().enumerate() {
        for (j, b) in ascending.iter().enumerate() {
            assert!(rt; a.compare(b) == i.cmp(&j));
        }
    }
}

#[test]
fn read_lists(rt: HostRuntime) {
    let mut list = ReadList::new();
    assert!(rt; list.add(ByteRange::Suffix(2)).is_ok());
    assert!(rt; list.add(ByteRange::FromStart(4, None)).is_ok());
    assert!(rt; list.add(ByteRange::Suffix(2)).is_ok());
    assert!(rt; list.len() == 2);
    assert!(rt; list.get(0) == Some(ByteRange::FromStart(4, None)));
    assert!(rt; list.get(1) == Some(ByteRange::Suffix(2)));
    assert!(rt; list.get(2) == None);
}

#[test]
fn full_list(rt: HostRuntime) {
    let mut list = ReadList::new();
    for n in 0..64u64 {
        assert!(rt; list.add(ByteRange::Suffix(63 - n)).is_ok());
    }
    assert!(rt; list.add(ByteRange::Suffix(64)).is_err());
    assert!(rt; list.add(ByteRange::Suffix(5)).is_ok());
    assert!(rt; list.len() == 64);
    assert!(rt; list.get(63) == Some(ByteRange::Suffix(63)));
    assert!(rt; list.as_slice().len() == 64);
}
