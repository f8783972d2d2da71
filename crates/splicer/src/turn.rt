ghost use Rattle.std.specs.Prelude.{◌≡◌, length};
ghost use Rattle.std.specs.Option.{option_copied};
ghost use Rattle.splicer.specs.Turns.{beginning, turn_at};
ghost use Rattle.splicer.specs.Steps.{head_units, head_fade};

use preroll::CarriedUnits;

/// What becomes of a frame of a rendition. `units` is how many units the frame carries, and `fade` whether it asks that what went
/// before be blended into it (applyCrossfade).
#[derive(Clone, Copy, Debug, PartialEq, Eq)]
pub enum Turn {
    /// It stands before the piece.
    Skip,
    /// The piece begins with it, as its stream does, and nothing was given out before.
    Start { units: u32, fade: bool },
    /// The piece begins with it: it is joined to what was given out before, or is given out first, in the course of its stream.
    Join { units: u32, fade: bool },
    /// It goes on in the piece.
    Play,
    /// It stands behind the piece.
    After,
}

/// The turn of the frame with which a piece begins, and which carries these units.
fn beginning_with(is_start: bool, carried: Option<&CarriedUnits>) -> Turn
    ensures { result ≡ beginning is_start (length (head_units (option_copied carried.entry))) (head_fade (option_copied carried.entry)) }
{
    let (units, fade) = match carried {
        Some(carried) => (carried.carried_count(), carried.fade),
        None => (0, false),
    };
    if is_start {
        return Turn::Start { units, fade };
    }
    Turn::Join { units, fade }
}

/// The turn of a frame in a piece from one frame up to another. It carries these units, if the piece begins with it.
pub fn turn_of_frame(
    from: u64,
    to: Option<u64>,
    is_first: bool,
    number: u64,
    carried: Option<&CarriedUnits>,
) -> Turn
    ensures { result ≡ turn_at from to is_first number (head_units (option_copied carried.entry)) (head_fade (option_copied carried.entry)) }
{
    if number < from {
        return Turn::Skip;
    }
    if number == from {
        return beginning_with(from == 0 && is_first, carried);
    }
    match to {
        Some(to) if number >= to => Turn::After,
        _ => Turn::Play,
    }
}
