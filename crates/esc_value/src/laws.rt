//! No spelling of one number begins another's: what a text begins with is one number at most, and all writers agree. A text
//! begins with the length of a slot exactly where it has no fault.
//!
//! The functions run no code; their contracts are the theorems.
ghost use Rattle.layout.specs.Laws.{HasOneSpelling, HasOneFault, IsDecided};
ghost use Rattle.esc_value.specs.Escaped.{escaped};
ghost use Rattle.esc_value.specs.LatmValue.{latm_value};
ghost use Rattle.esc_value.specs.SlotLength.{slot};

/// No spelling of a number that escapes is a prefix of another's, whatever the widths of its fields are.
pub fn escaped_has_one_spelling<const A: u32, const B: u32, const C: u32>()
    ensures { HasOneSpelling (escaped A B C) }
{}

/// No spelling of a number with the count of its bytes is a prefix of another's. The count is part of the number: 0 in
/// one byte is another number than 0 in two.
pub fn latm_value_has_one_spelling()
    ensures { HasOneSpelling latm_value }
{}

/// No spelling of the length of a slot is a prefix of another's.
pub fn slot_length_has_one_spelling()
    ensures { HasOneSpelling slot }
{}

/// A text begins with the length of a slot, or has a fault, and not both; and it has one fault at most.
pub fn slot_lengths_are_decided()
    ensures decided { IsDecided slot }
    ensures one_fault { HasOneFault slot }
{}
