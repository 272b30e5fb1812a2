use extraction::{
    ExtractError, Note, Place, extract_byte_range, extract_byte_ranges, extract_byte_ranges_concat,
    pick, read_byte_ranges,
};
use ranges::byte_range::{ByteRange, InvalidByteRangeError};

const BYTES: [u8; 5] = [1, 2, 3, 4, 5];

const BLANK: Note = Ok(Place { start: 77, len: 77 });

fn place(start: usize, len: usize) -> Note {
    Ok(Place { start, len })
}

#[test]
fn one_range(rt: HostRuntime) {
    let mut out = [9u8; 3];
    assert!(rt;
        extract_byte_range(&BYTES, ByteRange::Suffix(4), &mut out) == Err(ExtractError::Short)
    );
    assert!(rt; out == [9, 9, 9]);
    assert!(rt; extract_byte_range(&BYTES, ByteRange::Suffix(2), &mut out) == Ok(2));
    assert!(rt; out == [4, 5, 9]);
    assert!(rt; extract_byte_range(&BYTES, ByteRange::FromStart(0, Some(3)), &mut out) == Ok(3));
    assert!(rt; out == [1, 2, 3]);
    assert!(rt; pick(&BYTES, ByteRange::FromStart(5, None)).is_ok());
    assert!(rt; pick(&BYTES, ByteRange::FromStart(6, None)).is_err());
}

#[test]
fn items_and_notes(rt: HostRuntime) {
    let ranges = [
        ByteRange::Suffix(2),
        ByteRange::FromStart(5, None),
        ByteRange::FromStart(1, Some(2)),
    ];
    let mut out = [0u8; 5];
    let mut notes = [BLANK; 4];
    assert!(rt; extract_byte_ranges(&BYTES, &ranges, &mut out, &mut notes) == Ok(4));
    assert!(rt; out == [4, 5, 2, 3, 0]);
    assert!(rt; notes == [place(0, 2), place(2, 0), place(2, 2), BLANK]);
    let mut full = [0u8; 4];
    assert!(rt; extract_byte_ranges_concat(&BYTES, &ranges, &mut full) == Ok(4));
    assert!(rt; full == [4, 5, 2, 3]);
    let mut short = [8u8; 3];
    assert!(rt;
        extract_byte_ranges_concat(&BYTES, &ranges, &mut short) == Err(ExtractError::Short)
    );
    assert!(rt; short == [8, 8, 8]);
    let mut few = [BLANK; 2];
    assert!(rt;
        extract_byte_ranges(&BYTES, &ranges, &mut out, &mut few) == Err(ExtractError::Short)
    );
    assert!(rt; few == [BLANK, BLANK]);
}

#[test]
fn first_unfit(rt: HostRuntime) {
    let range = ByteRange::Suffix(6);
    let ranges = [
        ByteRange::FromStart(0, None),
        range,
        ByteRange::FromStart(u64::MAX, Some(1)),
    ];
    let mut out = [7u8; 6];
    let mut notes = [BLANK; 3];
    let fault = InvalidByteRangeError { range, size: 5 };
    assert!(rt;
        extract_byte_ranges(&BYTES, &ranges, &mut out, &mut notes)
            == Err(ExtractError::Unfit(1, fault))
    );
    assert!(rt; out == [7, 7, 7, 7, 7, 7]);
    assert!(rt; read_byte_ranges(&BYTES, &ranges, &mut out, &mut notes) == Ok(5));
    assert!(rt; out == [1, 2, 3, 4, 5, 7]);
    assert!(rt; notes[1] == Err(fault));
    assert!(rt; notes[0] == place(0, 5));
}

#[test]
fn sixty_four(rt: HostRuntime) {
    let ranges = [ByteRange::FromStart(2, Some(1)); 65];
    let mut out = [0u8; 64];
    let mut notes = [BLANK; 65];
    assert!(rt;
        extract_byte_ranges(&BYTES, &ranges, &mut out, &mut notes) == Err(ExtractError::TooMany)
    );
    assert!(rt; extract_byte_ranges_concat(&BYTES, &ranges[0..64], &mut out) == Ok(64));
    assert!(rt; out == [3; 64]);
    assert!(rt; read_byte_ranges(&BYTES, &ranges[0..64], &mut out, &mut notes) == Ok(64));
    assert!(rt; notes[63] == place(63, 1));
    assert!(rt; notes[64] == BLANK);
}
