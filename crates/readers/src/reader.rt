//! What a reader means: a value or none, and a position.
ghost use Rattle.std.specs.Prelude.{ℕ, Option};
ghost use Rattle.keys.specs.Text.{Bytes};

pub mod calls;

/// A reader, by its meaning; all that is promised of its calls is said of these.
pub trait Reader {
    /// The value, or none.
    ghost value: { Self → Option Bytes };

    /// The position.
    ghost position: { Self → ℕ };

    /// The same reader at another position, all else as it is.
    ghost at: { Self → ℕ → Self };
}
