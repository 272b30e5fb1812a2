use extraction::{Note, Place};
use ranges::byte_range::ByteRange;
use readers::read_seek::extract_byte_ranges_read_seek;
use readers::reader::calls::Seek;
use readers::seek_from::SeekFrom;
use readers::slice_reader::SliceReader;

/// What an extraction answers: the number of bytes, or number and index of the refusal; and where it leaves the reader.
fn extracted(
    bytes: &[u8],
    ranges: &[ByteRange],
    out: &mut [u8],
    notes: &mut [Note],
) -> (Result<usize, (u8, usize)>, u64) {
    let mut reader = SliceReader::new(bytes);
    let answer = extract_byte_ranges_read_seek(&mut reader, ranges, out, notes);
    (
        answer.map_err(|f| (f.cause.number(), f.index)),
        reader.seek(SeekFrom::Current(0)).unwrap_or(0),
    )
}

fn from(offset: u64, length: u64) -> ByteRange {
    ByteRange::FromStart(offset, Some(length))
}

fn rest(offset: u64) -> ByteRange {
    ByteRange::FromStart(offset, None)
}

fn at(start: usize, len: usize) -> Note {
    Ok(Place { start, len })
}

#[test]
fn items_lie_end_to_end(rt: HostRuntime) {
    let mut out = [9u8; 6];
    let mut notes = [at(0, 0); 4];
    let ranges = [rest(1), ByteRange::Suffix(1), from(7, 0), from(0, 2)];
    assert_eq!(rt;
        extracted(b"abc", &ranges, &mut out, &mut notes),
        (Ok(5), 2)
    );
    assert_eq!(rt; out, [98, 99, 99, 97, 98, 9]);
    assert!(rt;
        notes[0] == at(0, 2) && notes[1] == at(2, 1) && notes[2] == at(3, 0) && notes[3] == at(3, 2)
    );
}

#[test]
fn a_refused_item_leaves_the_earlier_ones(rt: HostRuntime) {
    let mut out = [9u8; 3];
    let mut notes = [at(8, 8); 2];
    // 14, and a seek that was accepted
    assert_eq!(rt;
        extracted(b"abc", &[from(0, 1), from(2, 2)], &mut out, &mut notes),
        (Err((14, 1)), 2)
    );
    assert_eq!(rt; out, [97, 9, 9]);
    assert!(rt; notes[0] == at(0, 1) && notes[1] == at(8, 8));
    // a range to the end whose offset passes it
    assert_eq!(rt;
        extracted(b"abc", &[rest(4)], &mut out, &mut notes),
        (Err((14, 0)), 4)
    );
    // 13, and a seek that was refused
    assert_eq!(rt;
        extracted(
            b"abc",
            &[from(0, 1), ByteRange::Suffix(4)],
            &mut out,
            &mut notes,
        ),
        (Err((13, 1)), 1)
    );
    assert_eq!(rt;
        extracted(
            b"abc",
            &[ByteRange::Suffix(9223372036854775808)],
            &mut out,
            &mut notes,
        ),
        (Err((13, 0)), 3)
    );
    // the last place that can be told
    assert_eq!(rt;
        extracted(
            b"abc",
            &[from(9223372036854775807, 1)],
            &mut out,
            &mut notes,
        ),
        (Err((14, 0)), 9223372036854775807)
    );
    // 9, asked before 14
    assert_eq!(rt;
        extracted(b"abc", &[from(1, 4)], &mut out, &mut notes),
        (Err((9, 0)), 1)
    );
    assert_eq!(rt;
        extracted(b"abc", &[from(0, 0); 3], &mut out, &mut notes),
        (Err((9, 2)), 0)
    );
}

#[test]
fn questions_before_the_items(rt: HostRuntime) {
    let mut out = [9u8; 1];
    let mut notes = [at(8, 8); 64];
    assert_eq!(rt;
        extracted(b"abc", &[from(0, 0); 65], &mut out, &mut notes),
        (Err((6, 0)), 0)
    );
    assert_eq!(rt;
        extracted(b"abc", &[from(0, 0); 64], &mut out, &mut notes),
        (Ok(0), 0)
    );
    assert_eq!(rt; extracted(b"abc", &[], &mut out, &mut notes), (Ok(0), 3));
    assert_eq!(rt;
        extracted(b"", &[rest(5), ByteRange::Suffix(0)], &mut out, &mut notes),
        (Ok(0), 0)
    );
}
