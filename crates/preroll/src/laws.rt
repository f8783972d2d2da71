//! What holds of every preroll, and of the rules.
//!
//! The functions run no code; their contracts are the theorems.
ghost use Rattle.preroll.specs.Laws.{IsSpelledOnce, IsDecided, IsPreRollOf, IsFaultOf, IsReadBack, IsJudgedOnce, IsCarriedOf, IsShownOf};

/// A payload is at most one preroll.
pub fn prerolls_are_spelled_once()
    ensures { IsSpelledOnce }
{}

/// A payload is a preroll exactly where it has no fault; and it has one fault at most.
pub fn payloads_are_decided()
    ensures { IsDecided }
{}

/// The preroll of a payload is the one whose spelling it is; a payload with a fault is none.
pub fn payloads_are_their_prerolls()
    ensures { IsPreRollOf }
{}

/// The fault of a payload is its first one.
pub fn payloads_have_their_faults()
    ensures { IsFaultOf }
{}

/// What is written of a preroll is read as this preroll with fewer than 8 further zero bits in its tail.
pub fn prerolls_are_read_back()
    ensures { IsReadBack }
{}

/// A frame has one first fault at most, and none where it carries units; and these are one list.
pub fn frames_are_judged_once()
    ensures { IsJudgedOnce }
{}

/// A frame carries units, or breaks a rule first; the one function that definitions compute with gives which.
pub fn frames_are_judged()
    ensures { IsCarriedOf }
{}

/// What an access unit that is a frame shows is one: the configuration, its unit, and what it carries or its first fault.
pub fn frames_are_shown()
    ensures { IsShownOf }
{}
