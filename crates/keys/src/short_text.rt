//! Short texts, held in place.
ghost use Rattle.std.specs.Prelude.{◌≡◌, ◌-◌, ◌≤◌, length, take, drop, replicate};
ghost use Rattle.keys.specs.Text.{Bytes, padded};
ghost use Rattle.keys.specs.Padded.{unpadded};

use std::marker::Model;

mod methods;
mod orders;

/// A text of at most `N` bytes: the first `len` of an array. Zeros stand behind it, so that a value is known by its text, which is what contracts see.
#[derive(Clone, Copy)]
pub struct ShortText<const N: usize> {
    bytes: [u8; N],
    len: usize,
}

impl<const N: usize> Model for ShortText<N> {
    ghost Value = { Bytes };

    ghost view = { λ s. take s.len s.bytes };

    ghost invariant = { λ s. (s.len ≤ N) × (length s.bytes ≡ N) × (drop s.len s.bytes ≡ replicate (N - s.len) 0) };

    ghost inverse = { λ t. record { bytes = padded N t; len = length t } };

    ghost inverse_ok = { λ s h. λ i. record { bytes = (unpadded N s.len s.bytes h.0 h.1 h.2).0 i; len = (unpadded N s.len s.bytes h.0 h.1 h.2).1 i } };
}
