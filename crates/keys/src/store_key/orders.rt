//! Keys in the order of their texts.
ghost use Rattle.std.specs.Prelude.{◌≡◌, Decides};
ghost use Rattle.std.specs.Str.{bytes_eq};
ghost use Rattle.keys.specs.ByteOrder.{compare_bytes};
ghost use Rattle.keys.specs.StoreKeys.{text};
ghost use Rattle.keys.specs.StoreKeyTotalOrderLemmas.{laws};
ghost use Rattle.std.specs.Cmp.Rules.{comparing};
ghost use Rattle.std.proofs.Common.{rules};
ghost use Rattle.std.specs.Cmp.{partial_equiv_from_equiv};
ghost use Rattle.std.specs.Ordering.{on};

use super::StoreKey;
use order::total_order::TotalOrder;
use std::cmp::Ordering;

impl TotalOrder for StoreKey {
    ghost compared = { λ a b. compare_bytes (text a) (text b) };

    ghost total = { laws.total };

    ghost transitive = { laws.transitive };

    ghost equal = { laws.equal };

    #[tactic(auto, unfolding(crate::specs::ByteOrder::compare_bytes))]
    fn compare(&self, other: &Self) -> Ordering {
        self.cmp(other)
    }
}

impl PartialEq for StoreKey {
    ghost eq = { on text bytes_eq };

    ghost laws = { partial_equiv_from_equiv (Prim.search (comparing, rules)) };

    fn eq(&self, other: &Self) -> bool
        ensures value { result ≡ bytes_eq (text self.now) (text other.now) }
        ensures decides { Decides result (text self.now ≡ text other.now) }
    {
        self.text == other.text
    }
}

impl Eq for StoreKey {
    ghost laws = { Prim.search (comparing, rules) };
}
