// The word that names targets.
ghost use Rattle.std.specs.Prelude.{◌≡◌, IfOk, is_some, true};
ghost use Rattle.xheaac_tool.specs.TargetWords.{between_commas, numbers_of, step_of, targets_of};

use crate::numbers::read_number;
use bit_core::Items;
use editing::Targets;
use std::alloc::{AllocError, Global};

/// A word that is TARGETS: numbers joined by single commas, or `every:` and a number of at least 1.
#[derive(Clone, Copy)]
pub struct TargetWords<'a> {
    word: &'a str,
    ghost are_targets: { is_some (targets_of word.now) ≡ true },
}

/// Whether a word is numbers joined by single commas.
pub fn are_numbers(word: &str) -> bool
    ensures { result ≡ is_some (numbers_of (between_commas word.now)) }
{
    let mut later = word;
    while let Some((number, others)) = later.split_once(',') {
        if read_number(number).is_none() {
            return false;
        }
        later = others;
    }
    read_number(later).is_some()
}

/// Reads numbers joined by single commas; `None` where the word is another one.
///
/// Errors: out of memory.
pub fn read_numbers(alloc: Global, word: &str) -> Result<Option<Items<u64>>, AllocError>
    ensures { IfOk result (λ numbers. numbers ≡ numbers_of (between_commas word.now)) }
{
    let mut numbers = Vec::new(alloc);
    let mut later = word;
    while let Some((number, others)) = later.split_once(',') {
        let Some(number) = read_number(number) else {
            return Ok(None);
        };
        numbers.push(number)?;
        later = others;
    }
    let Some(last) = read_number(later) else {
        return Ok(None);
    };
    numbers.push(last)?;
    Ok(Some(Items::from_vec(numbers)))
}

/// Reads a number of at least 1.
fn read_step(word: &str) -> Option<u64>
    ensures { result ≡ step_of word.now }
{
    let step = read_number(word)?;
    if step == 0 {
        return None;
    }
    Some(step)
}

/// Whether a word is TARGETS.
fn are_targets(word: &str) -> bool
    ensures { result ≡ is_some (targets_of word.now) }
{
    match word.strip_prefix("every:") {
        Some(step) => read_step(step).is_some(),
        None => are_numbers(word),
    }
}

/// Reads TARGETS; `None` where the word is another one.
///
/// Errors: out of memory.
fn read_targets(alloc: Global, word: &str) -> Result<Option<Targets>, AllocError>
    ensures { IfOk result (λ targets. targets ≡ targets_of word.now) }
{
    match word.strip_prefix("every:") {
        Some(step) => Ok(read_step(step).map(|step| Targets::Every(step))),
        None => {
            let numbers = read_numbers(alloc, word)?;
            Ok(numbers.map(|numbers| Targets::Each(numbers)))
        }
    }
}

impl<'a> TargetWords<'a> {
    ghost use Rattle.std.specs.Option.{option_map};
    ghost use Rattle.xheaac_tool.specs.Asked.{targets_at};

    /// The targets that a word is; `None` where it is another one.
    pub fn read(word: &'a str) -> Option<TargetWords<'a>>
        ensures { option_map targets_at result ≡ targets_of word.now }
    {
        if !are_targets(word) {
            return None;
        }
        Some(TargetWords { word })
    }

    /// The targets.
    ///
    /// Errors: out of memory.
    pub fn targets(self, alloc: Global) -> Result<Targets, AllocError>
        ensures { IfOk result (λ targets. targets ≡ targets_at self.entry) }
    {
        let Some(targets) = read_targets(alloc, self.word)? else {
            unreachable!()
        };
        Ok(targets)
    }
}
