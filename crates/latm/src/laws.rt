//! No spelling of one configuration begins another's. Under what is in force bytes are one element at most, and are one
//! exactly where they have no fault.
//!
//! The functions run no code; their contracts are the theorems.
ghost use Rattle.layout.specs.Laws.{HasOneSpelling};
ghost use Rattle.latm.specs.MuxConfig.{mux_config};
ghost use Rattle.latm.specs.MuxElement.{IsSpelledOnce, IsDecided};
ghost use Rattle.asc.specs.declared.asc_config.Asc.{Asc};
ghost use Rattle.latm.specs.Written.{IsCanonical, canonical_bytes};
ghost use Rattle.std.specs.Prelude.{List, Option, ℕ};

/// No spelling of a StreamMuxConfig is a prefix of another's.
pub fn mux_config_has_one_spelling()
    ensures { HasOneSpelling mux_config }
{}

/// Under each configuration in force, and under none, two elements of the same bytes are the same element.
pub fn elements_are_spelled_once()
    ensures { IsSpelledOnce }
{}

/// Under each configuration in force, and under none, bytes are an element exactly where they have no fault; and they have one
/// fault at most.
pub fn elements_are_decided()
    ensures { IsDecided }
{}

/// The canonical bytes of an access unit are the LOAS frame of a body of the canonical length, whose bits are the canonical text.
pub fn canonical_bytes_spell_an_element()
    ensures { (asc : Option Asc) (au : List ℕ) → IsCanonical asc au (canonical_bytes asc au) }
{}
