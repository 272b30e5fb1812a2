use crate::fixture::told;
use readers::reader::calls::{Read, Seek};
use readers::seek_from::SeekFrom;
use readers::slice_reader::SliceReader;

#[test]
fn seeks_stay_from_0_to_the_last_place(rt: HostRuntime) {
    let last = 9223372036854775807;
    let mut reader = SliceReader::new(b"abc");
    assert_eq!(rt; told(reader.seek(SeekFrom::End(-3))), Ok(0));
    assert_eq!(rt; told(reader.seek(SeekFrom::End(-4))), Err(13));
    assert_eq!(rt;
        told(reader.seek(SeekFrom::End(9223372036854775804))),
        Ok(last)
    );
    assert_eq!(rt; told(reader.seek(SeekFrom::Current(0))), Ok(last));
    assert_eq!(rt; told(reader.seek(SeekFrom::Current(1))), Err(13));
    assert_eq!(rt;
        told(reader.seek(SeekFrom::End(9223372036854775805))),
        Err(13)
    );
    assert_eq!(rt;
        told(reader.seek(SeekFrom::Start(18446744073709551615))),
        Ok(18446744073709551615)
    );
    assert_eq!(rt; told(reader.seek(SeekFrom::Current(-1))), Err(13));
    assert_eq!(rt; told(reader.seek(SeekFrom::Start(2))), Ok(2));
    assert_eq!(rt; told(reader.seek(SeekFrom::Current(-2))), Ok(0));
}

#[test]
fn reads_stop_at_the_end(rt: HostRuntime) {
    let mut reader = SliceReader::new(b"abc");
    let mut two = [0u8; 2];
    assert_eq!(rt; told(reader.read_exact(&mut two)), Ok(()));
    assert_eq!(rt; two, [97, 98]);
    assert_eq!(rt; told(reader.read_exact(&mut two)), Err(14));
    assert_eq!(rt; two, [97, 98]);
    assert_eq!(rt; told(reader.seek(SeekFrom::Current(0))), Ok(2));
    assert_eq!(rt; told(reader.read_exact(&mut two[0..1])), Ok(()));
    assert_eq!(rt; two, [99, 98]);
    assert_eq!(rt; told(reader.read_exact(&mut two[0..1])), Err(14));
    assert_eq!(rt;
        told(reader.seek(SeekFrom::Start(9223372036854775808))),
        Ok(9223372036854775808)
    );
    assert_eq!(rt; told(reader.read_exact(&mut two[0..0])), Ok(()));
    assert_eq!(rt; told(reader.read_exact(&mut two)), Err(14));
}
