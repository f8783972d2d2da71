// The words of pieces.
ghost use Rattle.std.specs.Prelude.{◌≡◌, true, is_some};
ghost use Rattle.xheaac_tool.specs.Words.{pairs_of, pieces_of, texts};

use crate::numbers::read_number;

/// The most words of a plan: 64 pairs.
const MOST_WORDS: usize = 128;

/// Words that are pairs FILE POS, from 1 to 64.
#[derive(Clone, Copy)]
pub struct Pairs<'a> {
    words: &'a [String],
    ghost are_pieces: { is_some (pieces_of (texts words.now)) ≡ true },
}

/// Whether the words are pairs, as many as there are.
fn are_pairs(words: &[String]) -> bool
    ensures { result ≡ is_some (pairs_of (texts words.now)) }
{
    let mut later = words;
    while let [_, position, others @ ..] = later {
        if read_number(position.as_str()).is_none() {
            return false;
        }
        later = others;
    }
    later.is_empty()
}

impl<'a> Pairs<'a> {
    ghost use Rattle.std.specs.Option.{option_map};
    ghost use Rattle.std.specs.Prelude.{Some};
    ghost use Rattle.xheaac_tool.specs.Asked.{pieces_at};

    /// The pairs that the words are; `None` where they are others, none, or more than 64 pairs.
    pub fn read(words: &'a [String]) -> Option<Pairs<'a>>
        ensures { option_map pieces_at result ≡ pieces_of (texts words.now) }
    {
        if words.is_empty() || words.len() > MOST_WORDS || !are_pairs(words) {
            return None;
        }
        Some(Pairs { words })
    }

    /// The words.
    pub fn words(self) -> &'a [String]
        ensures { pieces_of (texts result.now) ≡ Some (pieces_at self.entry) }
    {
        self.words
    }
}
