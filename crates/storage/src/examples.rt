//! Worked examples of the definitions.

ghost use Rattle.std.specs.Prelude.{◌≡◌};
ghost use Rattle.storage.specs.Examples.{WorkedExamples};

/// The worked examples of keys, prefixes, ranges and patches hold of the definitions that the contracts cite; answers how many facts they are.
pub fn worked_examples() -> u8
    ensures count { result ≡ 17 }
    ensures hold { WorkedExamples }
{
    let facts = 17;
    facts
}
