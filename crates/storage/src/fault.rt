//! Refusals of a store.
ghost use Rattle.std.specs.Prelude.{◌≡◌};
ghost use Rattle.extraction.specs.Extracts.{extract_refusal};
ghost use Rattle.patches.specs.Patches.{patch_refusal};
ghost use Rattle.storage.specs.Faults.{number, own, own_at, raised, at_index, at_step, from_key, from_range, fault_of};

use extraction::ExtractError;
use keys::store_key::StoreKeyError;
use patches::PatchError;
use ranges::byte_range::InvalidByteRangeError;

/// Why a call was refused. The definition `number` gives each case its number.
#[derive(Clone, Copy)]
pub enum Cause {
    /// No key (1, or 3 where it is too long).
    Key(StoreKeyError),
    /// A range that does not fit, with the length of the value (4).
    Range(InvalidByteRangeError),
    /// A rename's source is not stored (5).
    Absent,
    /// More than 64 ranges or patches, or a patch's place outside its slice (6).
    Limit,
    /// The temporary key is stored already (7).
    Exists,
    /// No space (8).
    Full,
    /// A buffer is too short (9).
    Short,
    /// The device takes no write (10).
    Device,
    /// The root key can't be exported (12).
    Root,
}

/// A refusal: its cause, the item's index in a list (0 without one), how many layers below the called one it arose,
/// and the step of an export (0 none, 1 writing the temporary key, 2 renaming it).
#[derive(Clone, Copy)]
pub struct Fault {
    pub cause: Cause,
    pub index: usize,
    pub depth: u16,
    pub step: u8,
}

impl Cause {
    /// The number of this cause.
    pub fn number(&self) -> u8
        ensures { result ≡ number self.now }
    {
        match self {
            Cause::Key(e) => e.number(),
            Cause::Range(_) => 4,
            Cause::Absent => 5,
            Cause::Limit => 6,
            Cause::Exists => 7,
            Cause::Full => 8,
            Cause::Short => 9,
            Cause::Device => 10,
            Cause::Root => 12,
        }
    }
}

impl Fault {
    /// A refusal by the called layer itself, of no item and at no step.
    pub fn own(cause: Cause) -> Fault
        ensures { result ≡ own cause }
    {
        Fault {
            cause,
            index: 0,
            depth: 0,
            step: 0,
        }
    }

    /// The same, of the item at an index.
    pub fn of_item(cause: Cause, index: usize) -> Fault
        ensures { result ≡ own_at cause index }
    {
        Fault {
            index,
            ..Fault::own(cause)
        }
    }

    /// This refusal, passed up by the layer above the one that it came from.
    pub fn raised(self) -> Fault
        ensures { result ≡ raised self }
    {
        Fault {
            depth: self.depth.saturating_add(1),
            ..self
        }
    }

    /// This refusal, of the item at an index.
    pub fn at_index(self, index: usize) -> Fault
        ensures { result ≡ at_index index self }
    {
        Fault { index, ..self }
    }

    /// This refusal, at a step of an export.
    pub fn at_step(self, step: u8) -> Fault
        ensures { result ≡ at_step step self }
    {
        Fault { step, ..self }
    }
}

impl From<StoreKeyError> for Fault {
    ghost from_gives = { λ e f. f ≡ from_key e };

    fn from(e: StoreKeyError) -> Fault {
        Fault::own(Cause::Key(e))
    }
}

impl From<InvalidByteRangeError> for Fault {
    ghost from_gives = { λ e f. f ≡ from_range e };

    fn from(e: InvalidByteRangeError) -> Fault {
        Fault::own(Cause::Range(e))
    }
}

impl From<ExtractError> for Fault {
    ghost from_gives = { λ e f. f ≡ fault_of (extract_refusal e) };

    fn from(e: ExtractError) -> Fault {
        match e {
            ExtractError::TooMany => Fault::own(Cause::Limit),
            ExtractError::Unfit(index, e) => Fault::of_item(Cause::Range(e), index),
            ExtractError::Short => Fault::own(Cause::Short),
        }
    }
}

impl From<PatchError> for Fault {
    ghost from_gives = { λ e f. f ≡ fault_of (patch_refusal e) };

    fn from(e: PatchError) -> Fault {
        match e {
            PatchError::TooMany => Fault::own(Cause::Limit),
            PatchError::Place(index) => Fault::of_item(Cause::Limit, index),
            PatchError::Short => Fault::own(Cause::Short),
        }
    }
}
