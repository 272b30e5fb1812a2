//! The packed row of value bytes: a part put in, a part taken out, a part written over.

ghost use Rattle.std.specs.Prelude.{◌≡◌, ◌+◌, ◌≤◌, ◌++◌, length, take, drop, vec_len, vec_capacity};

/// Writes `value` over the bytes from `at` on.
pub(crate) fn overwrite(s: &mut [u8], at: usize, value: &[u8])
    requires { at + length value.now ≤ length s.old }
    ensures { s.new ≡ take at s.old ++ (value.now ++ drop (at + length value.now) s.old) }
{
    s[at..at + value.len()].copy_from_slice(value);
}

/// Puts `value` in before the byte at `at`, where the row has the capacity.
pub(crate) fn insert_bytes(row: &mut Vec<u8>, at: usize, value: &[u8])
    requires within { at ≤ vec_len row.old }
    requires room { vec_len row.old + length value.now ≤ vec_capacity row.old }
    ensures items { row.new.items ≡ take at row.old.items ++ (value.now ++ drop at row.old.items) }
    ensures len { vec_len row.new ≡ vec_len row.old + length value.now }
    ensures capacity { vec_capacity row.old ≤ vec_capacity row.new }
{
    let end = row.len();
    // the capacity suffices, so that this is no refusal
    let _ = row.extend_from_slice(value);
    row.copy_within(at..end, at + value.len());
    overwrite(row.as_mut_slice(), at, value);
}

/// Takes the `n` bytes from `at` on out.
pub(crate) fn remove_bytes(row: &mut Vec<u8>, at: usize, n: usize)
    requires { at + n ≤ vec_len row.old }
    ensures items { row.new.items ≡ take at row.old.items ++ drop (at + n) row.old.items }
    ensures len { vec_len row.new + n ≡ vec_len row.old }
    ensures capacity { vec_capacity row.new ≡ vec_capacity row.old }
{
    let end = row.len();
    row.copy_within(at + n..end, at);
    row.truncate(end - n);
}
