//! No spelling of one configuration begins another's; and how definitions compare configurations.
//!
//! The functions run no code; their contracts are the theorems.
ghost use Rattle.layout.specs.Laws.{HasOneSpelling};
ghost use Rattle.usac_cfg.specs.Spelling.{usac_config};
ghost use Rattle.usac_cfg.specs.Same.{IsSameWhereEqual};

/// No spelling of a UsacConfig is a prefix of another's.
pub fn usac_config_has_one_spelling()
    ensures { HasOneSpelling usac_config }
{}

/// Definitions compare configurations by a test. Of well formed configurations it says whether they are equal.
pub fn configurations_are_compared()
    ensures { IsSameWhereEqual }
{}
