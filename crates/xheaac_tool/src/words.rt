// The words of the command line.
ghost use Rattle.std.specs.Option.{option_map};
ghost use Rattle.std.specs.Prelude.{◌≡◌};
ghost use Rattle.xheaac_tool.specs.Asked.{asked};
ghost use Rattle.xheaac_tool.specs.Words.{case_of, count_of, fade_of, insert_of, only_word, start_of, strip_of, tail_of, texts};

use crate::numbers::read_number;
use crate::piece_words::Pairs;
use crate::strip_words::StripWords;
use crate::target_words::TargetWords;
use ipf_strip::Tail;
use std::alloc::AllocError;
use thiserror::Error;

/// Why the words of a command line cannot be had.
#[derive(Debug, Drop, Error)]
pub enum WordsFault {
    /// A word is not UTF-8.
    #[error("not text")]
    NotText,
    #[error("out of memory")]
    Memory(AllocError),
}

/// What the words ask for.
#[derive(Clone, Copy)]
pub enum Asked<'a> {
    Show {
        file: &'a str,
    },
    Check {
        file: &'a str,
    },
    Play {
        file: &'a str,
    },
    Start {
        file: &'a str,
        frame: u64,
    },
    Plan {
        pieces: Pairs<'a>,
    },
    Splice {
        pieces: Pairs<'a>,
    },
    Switch {
        pieces: Pairs<'a>,
    },
    Insert {
        file: &'a str,
        count: u32,
        fade: bool,
        targets: TargetWords<'a>,
    },
    Strip {
        file: &'a str,
        tail: Tail,
        targets: StripWords<'a>,
    },
}

/// The one FILE that most commands ask for.
fn only_word<'a>(words: &'a [String]) -> Option<&'a str>
    ensures { option_map (λ word. word.now) result ≡ only_word (texts words.now) }
{
    match words {
        [word] => Some(word.as_str()),
        _ => None,
    }
}

fn read_start<'a>(words: &'a [String]) -> Option<Asked<'a>>
    ensures { option_map asked result ≡ start_of (texts words.now) }
{
    match words {
        [file, frame] => Some(Asked::Start {
            file: file.as_str(),
            frame: read_number(frame.as_str())?,
        }),
        _ => None,
    }
}

/// Reads K: a number, and 4294967295 where it is over that.
fn read_count(word: &str) -> Option<u32>
    ensures { result ≡ count_of word.now }
{
    let count = read_number(word)?;
    Some(u32::try_from(count).unwrap_or(u32::MAX))
}

fn read_fade(word: &str) -> Option<bool>
    ensures { result ≡ fade_of word.now }
{
    match word {
        "0" => Some(false),
        "1" => Some(true),
        _ => None,
    }
}

fn read_insert<'a>(words: &'a [String]) -> Option<Asked<'a>>
    ensures { option_map asked result ≡ insert_of (texts words.now) }
{
    match words {
        [file, count, fade, targets] => Some(Asked::Insert {
            file: file.as_str(),
            count: read_count(count.as_str())?,
            fade: read_fade(fade.as_str())?,
            targets: TargetWords::read(targets.as_str())?,
        }),
        _ => None,
    }
}

fn read_tail(word: &str) -> Option<Tail>
    ensures { result ≡ tail_of word.now }
{
    match word {
        "undo" => Some(Tail::Undo),
        "keep" => Some(Tail::Keep),
        _ => None,
    }
}

fn read_strip<'a>(words: &'a [String]) -> Option<Asked<'a>>
    ensures { option_map asked result ≡ strip_of (texts words.now) }
{
    match words {
        [file, tail, targets] => Some(Asked::Strip {
            file: file.as_str(),
            tail: read_tail(tail.as_str())?,
            targets: StripWords::read(targets.as_str())?,
        }),
        _ => None,
    }
}

/// Reads the words; `None` where they are no case.
pub fn read_words<'a>(words: &'a [String]) -> Option<Asked<'a>>
    ensures { option_map asked result ≡ case_of (texts words.now) }
{
    let [name, others @ ..] = words else {
        return None;
    };
    match name.as_str() {
        "show" => only_word(others).map(|file| Asked::Show { file }),
        "check" => only_word(others).map(|file| Asked::Check { file }),
        "play" => only_word(others).map(|file| Asked::Play { file }),
        "start" => read_start(others),
        "plan" => Pairs::read(others).map(|pieces| Asked::Plan { pieces }),
        "splice" => Pairs::read(others).map(|pieces| Asked::Splice { pieces }),
        "switch" => Pairs::read(others).map(|pieces| Asked::Switch { pieces }),
        "insert" => read_insert(others),
        "strip" => read_strip(others),
        _ => None,
    }
}
