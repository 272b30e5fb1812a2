ghost use Rattle.std.specs.Prelude.{◌≡◌};
ghost use Rattle.std.specs.declared.cmp.Ordering.TheVariants.{Less, Equal};
ghost use Rattle.std.specs.declared.cmp.Ordering.{Ordering as Answer};
ghost use Rattle.std.specs.Ordering.{ordering_reverse};

use std::cmp::Ordering;

/// A total order on the values of a type.
///
/// An `impl` gives `compared`, what comparing two values answers, and owes three laws of it:
/// `total`: turned round, two values get the turned answer, so one of them comes first or they are equal, and a value equals itself;
/// `transitive`: what comes before something comes before all that comes after it;
/// `equal`: only equal values compare equal.
/// The laws are about every value of the type as the logic has it, also those that no code makes.
pub trait TotalOrder: Copy {
    ghost compared: { Self → Self → Answer };

    /// How `self` stands to `other`.
    fn compare(&self, other: &Self) -> Ordering
        ensures { result ≡ compared self.now other.now };

    ghost total: { (a b : Self) → compared a b ≡ ordering_reverse (compared b a) };

    ghost transitive: { (a b c : Self) → compared a b ≡ Less → compared b c ≡ Less → compared a c ≡ Less };

    ghost equal: { (a b : Self) → compared a b ≡ Equal → a ≡ b };
}
