//! The calls of the atomic write adapter, and their answers.

use extraction::Note;
use keys::row::Row;
use keys::store_key::StoreKey;
use keys::store_prefix::StorePrefix;
use listings::listing::StoreKeysPrefixes;
use patches::Patch;
use ranges::byte_range::ByteRange;
use storage::fault::Fault;

/// A call. Each length is that of a buffer which the run makes and passes: bytes and rows are zeros, and notes have the place of no byte.
#[derive(Drop)]
pub enum Call {
    /// Export of a value.
    Set(StoreKey, Vec<u8>),
    /// Export of a value's patches, whose bytes lie in the bytes behind them; the length of the work buffer.
    SetPartialMany(StoreKey, Vec<Patch>, Vec<u8>, usize),
    Erase(StoreKey),
    EraseMany(Vec<Row>),
    ErasePrefix(StorePrefix),
    PowerOn,
    SizeKey(StoreKey),
    /// The length of the output.
    Get(StoreKey, usize),
    /// The length of the output.
    GetPartial(StoreKey, ByteRange, usize),
    /// The lengths of output and notes.
    GetPartialMany(StoreKey, Vec<ByteRange>, usize, usize),
    /// The place of a key in ascending order.
    KeyAt(usize),
    /// The number of rows.
    List(usize),
    /// The number of rows.
    ListPrefix(StorePrefix, usize),
    /// The numbers of rows for keys and for prefixes.
    ListDir(StorePrefix, usize, usize),
    SizePrefix(StorePrefix),
    Size,
}

/// The answer to a call, with each buffer that it was passed, whole, as the call left it.
#[derive(Drop)]
pub enum Answer {
    /// A write without a buffer, or power-on.
    Wrote(Result<(), Fault>),
    /// An offset write, with its work buffer.
    Patched(Result<(), Fault>, Vec<u8>),
    /// The length of a value, if it is stored.
    Size(Option<u64>),
    /// The bytes of all values in a place.
    Total(u64),
    /// A key, if there is one.
    Key(Option<StoreKey>),
    /// A reading of one value, with its output.
    Read(Result<Option<usize>, Fault>, Vec<u8>),
    /// A reading of ranges, with output and notes.
    ReadMany(Result<Option<usize>, Fault>, Vec<u8>, Vec<Note>),
    /// A listing, with its rows.
    Listed(Result<usize, Fault>, Vec<Row>),
    /// A listing of keys and prefixes, with the rows of each.
    ListedDir(Result<StoreKeysPrefixes, Fault>, Vec<Row>, Vec<Row>),
}
