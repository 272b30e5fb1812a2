use keys::row::Row;
use order::sorted_list::insert_sorted;

/// The row of one byte.
fn row(b: u8) -> Row {
    let mut bytes = [0; 121];
    bytes[0] = b;
    Row { bytes, len: 1 }
}

/// How many rows are in use after `b` is put in, or the number of the refusal.
fn put(rows: &mut [Row], len: usize, b: u8) -> Result<usize, u8> {
    insert_sorted(rows, len, row(b)).map_err(|e| e.number())
}

#[test]
fn list_ascends(rt: HostRuntime) {
    let mut rows = [Row::empty(); 4];
    assert_eq!(rt; put(&mut rows, 0, b'b'), Ok(1));
    assert_eq!(rt; put(&mut rows, 1, b'd'), Ok(2));
    assert_eq!(rt; put(&mut rows, 2, b'a'), Ok(3));
    assert_eq!(rt; put(&mut rows, 3, b'c'), Ok(4));
    assert!(rt; rows[0] == row(b'a') && rows[1] == row(b'b'));
    assert!(rt; rows[2] == row(b'c') && rows[3] == row(b'd'));
}

#[test]
fn list_repeats(rt: HostRuntime) {
    let mut rows = [Row::empty(); 3];
    assert_eq!(rt; put(&mut rows, 0, b'b'), Ok(1));
    assert_eq!(rt; put(&mut rows, 1, b'a'), Ok(2));
    assert_eq!(rt; put(&mut rows, 2, b'a'), Ok(2));
    assert_eq!(rt; put(&mut rows, 2, b'b'), Ok(2));
    assert!(rt; rows[0] == row(b'a') && rows[1] == row(b'b'));
    assert!(rt; rows[2] == Row::empty());
}

#[test]
fn list_full(rt: HostRuntime) {
    let mut rows = [Row::empty(); 2];
    assert_eq!(rt; put(&mut rows, 0, b'b'), Ok(1));
    assert_eq!(rt; put(&mut rows, 1, b'c'), Ok(2));
    assert_eq!(rt; put(&mut rows, 2, b'a'), Err(9));
    assert_eq!(rt; put(&mut rows, 2, b'c'), Ok(2));
    assert_eq!(rt; put(&mut rows, 3, b'c'), Err(9));
    assert!(rt; rows[0] == row(b'b') && rows[1] == row(b'c'));
    assert_eq!(rt; put(&mut rows[0..0], 0, b'a'), Err(9));
}
