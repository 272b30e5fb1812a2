use patches::{Patch, PatchError, check_patches, lay_patches, lay_patches_in_place, patched_len};

const SOURCE: [u8; 4] = [7, 8, 9, 6];

fn patch(offset: u64, start: usize, len: usize) -> Patch {
    Patch { offset, start, len }
}

#[test]
fn laid_in_turn(rt: HostRuntime) {
    let mut work = [1u8; 8];
    // overlapping and out of order: zeros up to 5, then over 1 to 3, then over 2
    let patches = [patch(5, 0, 1), patch(1, 1, 2), patch(2, 3, 1)];
    assert!(rt; lay_patches(&[4, 4], &patches, &SOURCE, &mut work) == Ok(6));
    assert!(rt; work == [4, 8, 6, 0, 0, 7, 1, 1]);
    assert!(rt; lay_patches_in_place(6, &[patch(7, 1, 1)], &SOURCE, &mut work) == Ok(8));
    assert!(rt; work == [4, 8, 6, 0, 0, 7, 0, 8]);
    assert!(rt; lay_patches(&[], &[], &SOURCE, &mut work) == Ok(0));
    assert!(rt; work == [4, 8, 6, 0, 0, 7, 0, 8]);
}

#[test]
fn empty_patch(rt: HostRuntime) {
    let mut work = [1u8; 6];
    assert!(rt; lay_patches(&[], &[patch(5, 4, 0)], &SOURCE, &mut work) == Ok(5));
    assert!(rt; work == [0, 0, 0, 0, 0, 1]);
}

#[test]
fn short_buffers(rt: HostRuntime) {
    let mut work = [1u8; 4];
    assert!(rt; lay_patches(&[2, 2, 2], &[patch(4, 0, 0)], &SOURCE, &mut work) == Ok(4));
    assert!(rt; work == [2, 2, 2, 0]);
    assert!(rt; lay_patches(&[5], &[patch(4, 0, 1)], &SOURCE, &mut work) == Err(PatchError::Short));
    assert!(rt;
        lay_patches(&[5], &[patch(u64::MAX, 0, 1)], &SOURCE, &mut work) == Err(PatchError::Short)
    );
    assert!(rt; lay_patches_in_place(5, &[], &SOURCE, &mut work) == Err(PatchError::Short));
    assert!(rt; lay_patches(&[5, 5, 5, 5, 5], &[], &SOURCE, &mut work) == Err(PatchError::Short));
    assert!(rt; work == [2, 2, 2, 0]);
}

#[test]
fn lengths(rt: HostRuntime) {
    assert!(rt; patched_len(3, &[]) == Some(3));
    assert!(rt; patched_len(3, &[patch(1, 0, 2), patch(5, 0, 0)]) == Some(5));
    assert!(rt; patched_len(0, &[patch(u64::MAX, 0, 0)]) == Some(u64::MAX));
    assert!(rt; patched_len(0, &[patch(u64::MAX, 0, 1)]) == None);
}

#[test]
fn places(rt: HostRuntime) {
    assert!(rt; check_patches(&[patch(0, 0, 4), patch(0, 4, 0)], &SOURCE) == Ok(()));
    assert!(rt;
        check_patches(&[patch(0, 0, 4), patch(0, 1, 4)], &SOURCE) == Err(PatchError::Place(1))
    );
    assert!(rt; check_patches(&[patch(0, usize::MAX, 1)], &SOURCE) == Err(PatchError::Place(0)));
    let many = [patch(9, 5, 0); 65];
    assert!(rt; check_patches(&many, &SOURCE) == Err(PatchError::TooMany));
    assert!(rt; check_patches(&many[0..64], &SOURCE) == Err(PatchError::Place(0)));
    let fine = [patch(1, 0, 1); 64];
    let mut work = [0u8; 2];
    assert!(rt; lay_patches(&[3], &fine, &SOURCE, &mut work) == Ok(2));
    assert!(rt; work == [3, 7]);
}
