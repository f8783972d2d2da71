//! No spelling of a configuration without a tail begins another's; and a counted text is one configuration with its tail, or
//! has one fault.
//!
//! The functions run no code; their contracts are the theorems.
ghost use Rattle.layout.specs.Laws.{HasOneSpelling, SpellsOnce, IsDecidedWhole};
ghost use Rattle.asc.specs.Asc.{asc, asc_counted};

/// No spelling of an AudioSpecificConfig without a tail is a prefix of another's.
pub fn asc_has_one_spelling()
    ensures { HasOneSpelling asc }
{}

/// A counted text is at most one AudioSpecificConfig with its tail.
pub fn counted_configurations_are_spelled_once()
    ensures { SpellsOnce asc_counted }
{}

/// A counted text is a configuration with a tail of at most 7 bits, or has a fault, and not both; and it has one fault at
/// most.
pub fn counted_configurations_are_decided()
    ensures { IsDecidedWhole asc_counted }
{}
