ghost use Rattle.std.specs.Prelude.{◌≡◌, vec_len};

use crate::table::Table;

mod methods;
pub mod readable;
pub mod writable;

/// The most keys that a `MemoryStore` holds.
pub const MAX_KEYS: usize = 64;

/// The most value bytes that a `MemoryStore` holds.
pub const MAX_BYTES: usize = 32768;

/// A store in memory: at most 64 keys in ascending order, and their values, at most 32,768 bytes.
///
/// All memory is reserved when it is made, so that no call allocates. `spare` keeps a value while it is moved.
#[derive(Drop)]
pub struct MemoryStore {
    table: Table,
    spare: Vec<u8>,
    ghost whole: { vec_len spare ≡ 32768 },
}
