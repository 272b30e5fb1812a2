//! The store interface. A store means its contents and its verdict; all that is promised of a call is said of these.

ghost use Rattle.std.specs.Prelude.{◌≡◌, ℕ, Bool, true, Some, None, Option};
ghost use Rattle.keys.specs.Text.{Bytes};
ghost use Rattle.keys.specs.StoreKeys.{text};
ghost use Rattle.storage.specs.Contents.{Contents, Sound, found, sized};
ghost use Rattle.storage.specs.Readings.{RangesRead};
ghost use Rattle.storage.specs.Writes.{Write, rename};
ghost use Rattle.storage.specs.declared.fault.Fault.{Fault};

use crate::fault::Fault;
use extraction::Note;
use keys::store_key::StoreKey;
use ranges::byte_range::ByteRange;

pub mod writes;

/// Readable storage, with the whole meaning of a store.
pub trait ReadableStorageTraits {
    /// What is stored.
    ghost contents: { Self → Contents };

    /// For each write whose arguments pass, the fault that it would get now, or none.
    ghost verdict: { Self → Write → Option Fault };

    /// A tidy store refuses exactly by its verdict, and is then unchanged.
    ghost tidy: { Bool };

    /// Whether offset writes are made in place, with no work buffer: what `supports_set_partial` answers.
    ghost inplace: { Bool };

    /// How many layers lie below: the depth at which a reading's refusal arrives.
    ghost layers: { ℕ };

    /// The length of the value under `key`; none if it is not stored.
    fn size_key(&self, key: &StoreKey) -> Option<u64>
        ensures { result ≡ sized (found (text key.now) (contents self.now)) };

    /// The ranges of the value under `key`, end to end at the front of the output, with a note for each: its bytes' place, or its fault.
    /// Answers how many bytes that is; none if the key is not stored.
    fn get_partial_many(
        &self,
        key: &StoreKey,
        ranges: &[ByteRange],
        out: &mut [u8],
        notes: &mut [Note],
    ) -> Result<Option<usize>, Fault>
        ensures { RangesRead layers (found (text key.now) (contents self.now)) ranges.now result out.old out.new notes.old notes.new };

    /// Whether parts of values are read without reading them whole.
    fn supports_get_partial(&self) -> bool
        ensures { result ≡ true };

    /// Keys ascend and keep their rule; fewer than 2^63 keys and bytes.
    ghost sound: { (s : Self) → Sound (contents s) };

    /// Every verdict refuses a rename from an absent key.
    ghost absent: { (s : Self) (a b : Bytes) → found a (contents s) ≡ None → (f : Fault) × (verdict s (rename a b) ≡ Some f) };
}
