// The word that names the targets of `strip`.
ghost use Rattle.std.specs.Prelude.{◌≡◌, IfOk, is_some, true};
ghost use Rattle.xheaac_tool.specs.StripWords.{strip_targets_of};

use crate::target_words::{are_numbers, read_numbers};
use editing::StripTargets;
use std::alloc::{AllocError, Global};

/// A word that is TARGETS of `strip`: numbers joined by single commas, or `all`.
#[derive(Clone, Copy)]
pub struct StripWords<'a> {
    word: &'a str,
    ghost are_targets: { is_some (strip_targets_of word.now) ≡ true },
}

/// Whether a word is TARGETS.
fn are_targets(word: &str) -> bool
    ensures { result ≡ is_some (strip_targets_of word.now) }
{
    match word {
        "all" => true,
        _ => are_numbers(word),
    }
}

/// Reads TARGETS; `None` where the word is another one.
///
/// Errors: out of memory.
fn read_targets(alloc: Global, word: &str) -> Result<Option<StripTargets>, AllocError>
    ensures { IfOk result (λ targets. targets ≡ strip_targets_of word.now) }
{
    match word {
        "all" => Ok(Some(StripTargets::All)),
        _ => {
            let numbers = read_numbers(alloc, word)?;
            Ok(numbers.map(|numbers| StripTargets::Each(numbers)))
        }
    }
}

impl<'a> StripWords<'a> {
    ghost use Rattle.std.specs.Option.{option_map};
    ghost use Rattle.xheaac_tool.specs.Asked.{strip_targets_at};

    /// The targets that a word is; `None` where it is another one.
    pub fn read(word: &'a str) -> Option<StripWords<'a>>
        ensures { option_map strip_targets_at result ≡ strip_targets_of word.now }
    {
        if !are_targets(word) {
            return None;
        }
        Some(StripWords { word })
    }

    /// The targets.
    ///
    /// Errors: out of memory.
    pub fn targets(self, alloc: Global) -> Result<StripTargets, AllocError>
        ensures { IfOk result (λ targets. targets ≡ strip_targets_at self.entry) }
    {
        let Some(targets) = read_targets(alloc, self.word)? else {
            unreachable!()
        };
        Ok(targets)
    }
}
