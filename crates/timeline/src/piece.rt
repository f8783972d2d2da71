use bit_core::Items;

/// A piece of a stream: its frames from one up to another, which is not in it.
#[derive(Clone, Copy, Debug, PartialEq, Eq, Drop)]
pub struct Piece {
    /// The number of its first frame.
    pub from: u64,
    /// The number of the frame behind its last one.
    pub to: u64,
}

/// Where a piece begins and ends, as far as its positions tell.
#[derive(Clone, Copy, Debug, PartialEq, Eq)]
pub struct PieceBounds {
    /// The number of its first frame.
    pub from: u64,
    /// The number of the frame behind its last one; `None` where the piece goes to the end of its stream.
    pub to: Option<u64>,
}

/// The pieces of a plan, in order.
pub type Pieces = Items<Piece>;
