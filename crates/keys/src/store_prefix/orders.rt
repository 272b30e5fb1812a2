//! Prefixes in the order of their texts.
ghost use Rattle.std.specs.Prelude.{◌≡◌, Decides};
ghost use Rattle.std.specs.Str.{bytes_eq};
ghost use Rattle.keys.specs.ByteOrder.{compare_bytes};
ghost use Rattle.keys.specs.StorePrefixes.{prefix_text};
ghost use Rattle.keys.specs.StorePrefixTotalOrderLemmas.{laws};
ghost use Rattle.std.specs.Cmp.Rules.{comparing};
ghost use Rattle.std.proofs.Common.{rules};
ghost use Rattle.std.specs.Cmp.{partial_equiv_from_equiv};
ghost use Rattle.std.specs.Ordering.{on};

use super::StorePrefix;
use order::total_order::TotalOrder;
use std::cmp::Ordering;

impl TotalOrder for StorePrefix {
    ghost compared = { λ a b. compare_bytes (prefix_text a) (prefix_text b) };

    ghost total = { laws.total };

    ghost transitive = { laws.transitive };

    ghost equal = { laws.equal };

    #[tactic(auto, unfolding(crate::specs::ByteOrder::compare_bytes))]
    fn compare(&self, other: &Self) -> Ordering {
        self.cmp(other)
    }
}

impl PartialEq for StorePrefix {
    ghost eq = { on prefix_text bytes_eq };

    ghost laws = { partial_equiv_from_equiv (Prim.search (comparing, rules)) };

    fn eq(&self, other: &Self) -> bool
        ensures value { result ≡ bytes_eq (prefix_text self.now) (prefix_text other.now) }
        ensures decides { Decides result (prefix_text self.now ≡ prefix_text other.now) }
    {
        self.text == other.text
    }
}

impl Eq for StorePrefix {
    ghost laws = { Prim.search (comparing, rules) };
}
