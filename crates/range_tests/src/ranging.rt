use ranges::byte_range::{Bound, BoundsError, ByteRange, InvalidByteRangeError};

const TOP: u64 = u64::MAX;

#[test]
fn bounds(rt: HostRuntime) {
    let cases = [
        (
            Bound::Included(0),
            Bound::Included(0),
            Some(ByteRange::FromStart(0, Some(1))),
        ),
        (Bound::Included(2), Bound::Included(1), None),
        (Bound::Included(5), Bound::Included(4), None),
        (Bound::Included(0), Bound::Included(TOP), None),
        (
            Bound::Included(1),
            Bound::Included(TOP),
            Some(ByteRange::FromStart(1, Some(TOP))),
        ),
        (
            Bound::Included(3),
            Bound::Excluded(3),
            Some(ByteRange::FromStart(3, Some(0))),
        ),
        (Bound::Included(4), Bound::Excluded(3), None),
        (
            Bound::Included(TOP),
            Bound::Unbounded,
            Some(ByteRange::FromStart(TOP, None)),
        ),
        (
            Bound::Excluded(2),
            Bound::Included(2),
            Some(ByteRange::FromStart(3, Some(0))),
        ),
        (Bound::Excluded(TOP), Bound::Included(TOP), None),
        (
            Bound::Excluded(2),
            Bound::Excluded(3),
            Some(ByteRange::FromStart(3, Some(0))),
        ),
        (Bound::Excluded(2), Bound::Excluded(2), None),
        (Bound::Excluded(TOP), Bound::Unbounded, None),
        (Bound::Unbounded, Bound::Included(TOP), None),
        (
            Bound::Unbounded,
            Bound::Excluded(TOP),
            Some(ByteRange::FromStart(0, Some(TOP))),
        ),
        (
            Bound::Unbounded,
            Bound::Unbounded,
            Some(ByteRange::FromStart(0, None)),
        ),
    ];
    for (from, to, want) in cases {
        assert!(rt; ByteRange::new(from, to).ok() == want);
    }
}

#[derive(Clone, Copy)]
struct Row {
    range: ByteRange,
    size: u64,
    start: Option<u64>,
    end: Option<u64>,
    length: Option<u64>,
    fits: bool,
}

fn case(
    range: ByteRange,
    size: u64,
    start: Option<u64>,
    end: Option<u64>,
    length: Option<u64>,
    fits: bool,
) -> Row {
    Row {
        range,
        size,
        start,
        end,
        length,
        fits,
    }
}

#[test]
fn arithmetic(rt: HostRuntime) {
    let cases = [
        case(
            ByteRange::FromStart(0, None),
            0,
            Some(0),
            Some(0),
            Some(0),
            true,
        ),
        case(
            ByteRange::FromStart(3, None),
            3,
            Some(3),
            Some(3),
            Some(0),
            true,
        ),
        case(
            ByteRange::FromStart(4, None),
            3,
            Some(4),
            Some(3),
            None,
            false,
        ),
        case(
            ByteRange::FromStart(1, Some(2)),
            3,
            Some(1),
            Some(3),
            Some(2),
            true,
        ),
        case(
            ByteRange::FromStart(2, Some(2)),
            3,
            Some(2),
            Some(4),
            Some(2),
            false,
        ),
        case(
            ByteRange::FromStart(TOP, Some(0)),
            TOP,
            Some(TOP),
            Some(TOP),
            Some(0),
            true,
        ),
        case(
            ByteRange::FromStart(TOP, Some(1)),
            TOP,
            Some(TOP),
            None,
            Some(1),
            false,
        ),
        case(
            ByteRange::FromStart(1, Some(TOP)),
            TOP,
            Some(1),
            None,
            Some(TOP),
            false,
        ),
        case(
            ByteRange::FromStart(0, None),
            TOP,
            Some(0),
            Some(TOP),
            Some(TOP),
            true,
        ),
        case(ByteRange::Suffix(0), 0, Some(0), Some(0), Some(0), true),
        case(ByteRange::Suffix(3), 3, Some(0), Some(3), Some(3), true),
        case(ByteRange::Suffix(4), 3, None, Some(3), Some(4), false),
        case(
            ByteRange::Suffix(TOP),
            TOP,
            Some(0),
            Some(TOP),
            Some(TOP),
            true,
        ),
    ];
    for c in cases.iter() {
        assert!(rt; c.range.start(c.size).ok() == c.start);
        assert!(rt; c.range.end(c.size).ok() == c.end);
        assert!(rt; c.range.length(c.size).ok() == c.length);
        assert!(rt; c.range.to_range(c.size).is_ok() == (c.start.is_some() && c.end.is_some()));
        assert!(rt; c.range.fits(c.size) == c.fits);
    }
}

#[test]
fn faults(rt: HostRuntime) {
    let range = ByteRange::Suffix(4);
    let fault = InvalidByteRangeError { range, size: 3 };
    assert!(rt; range.start(3) == Err(fault));
    assert!(rt; range.to_range(3) == Err(fault));
    assert!(rt; fault.number() == 4);
    assert!(rt; BoundsError::OutOfBounds.number() == 6);
}
