//! What the tests share.

use readers::reader_fault::ReaderFault;

/// What a call answered, or the number of its refusal.
pub(crate) fn told<T>(r: Result<T, ReaderFault>) -> Result<T, u8> {
    r.map_err(|f| f.cause.number())
}
