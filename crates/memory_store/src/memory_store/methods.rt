ghost use Rattle.std.specs.Prelude.{◌≡◌, [], IfOk};
ghost use Rattle.memory_store.specs.Memory.{holds};

use super::{MAX_BYTES, MemoryStore};
use crate::table::Table;
use std::alloc::{AllocError, Global};

impl MemoryStore {
    /// An empty store. Want of memory is met here or never.
    pub fn new(heap: Global) -> Result<Self, AllocError>
        ensures { IfOk result (λ m. holds m ≡ []) }
    {
        let table = Table::new(heap)?;
        let spare = vec![in heap; 0; MAX_BYTES]?;
        Ok(MemoryStore { table, spare })
    }
}
