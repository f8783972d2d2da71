//! No spelling of settings begins another's, and a text begins with settings of MPEG Surround exactly where it has no fault.
//!
//! The functions run no code; their contracts are the theorems.
ghost use Rattle.std.specs.Prelude.{ℕ};
ghost use Rattle.layout.specs.Laws.{HasOneSpelling, HasOneFault, IsDecided};
ghost use Rattle.sbr_mps.specs.CoreConfig.{core_config};
ghost use Rattle.sbr_mps.specs.SbrConfig.{sbr_config};
ghost use Rattle.sbr_mps.specs.Mps212.{mps212};

/// No spelling of the settings of a core is a prefix of another's.
pub fn core_config_has_one_spelling()
    ensures { HasOneSpelling core_config }
{}

/// No spelling of the settings of SBR is a prefix of another's.
pub fn sbr_config_has_one_spelling()
    ensures { HasOneSpelling sbr_config }
{}

/// No spelling of the settings of MPEG Surround 2-1-2 is a prefix of another's, where both stand behind one stereo index.
pub fn mps212_has_one_spelling()
    ensures { (stereo : ℕ) → HasOneSpelling (mps212 stereo) }
{}

/// Behind each stereo index a text begins with the settings of MPEG Surround 2-1-2, or has a fault, and not both; and it has
/// one fault at most.
pub fn mps212_settings_are_decided()
    ensures decided { (stereo : ℕ) → IsDecided (mps212 stereo) }
    ensures one_fault { (stereo : ℕ) → HasOneFault (mps212 stereo) }
{}
