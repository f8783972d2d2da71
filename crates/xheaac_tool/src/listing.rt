// The files and the positions of pieces.
ghost use Rattle.std.specs.Prelude.{IfOk};
ghost use Rattle.xheaac_tool.specs.Asked.{pieces_at};
ghost use Rattle.xheaac_tool.specs.Listed.{AreListed};

use crate::numbers::read_number;
use crate::piece_words::Pairs;
use std::alloc::{AllocError, Global};

/// The names of the files of some pieces, and their positions, both in the order of the pieces.
#[derive(Drop)]
pub struct PieceLists<'a> {
    pub files: Vec<&'a str>,
    pub positions: Vec<u64>,
}

/// Lists what pairs of words ask for.
///
/// Errors: out of memory.
pub fn piece_lists<'a>(alloc: Global, pairs: Pairs<'a>) -> Result<PieceLists<'a>, AllocError>
    ensures { IfOk result (λ lists. AreListed lists (pieces_at pairs.entry)) }
{
    let mut files = Vec::new(alloc);
    let mut positions = Vec::new(alloc);
    let mut later = pairs.words();
    while let [file, position, others @ ..] = later {
        let Some(position) = read_number(position.as_str()) else {
            unreachable!()
        };
        files.push(file.as_str())?;
        positions.push(position)?;
        later = others;
    }
    Ok(PieceLists { files, positions })
}
