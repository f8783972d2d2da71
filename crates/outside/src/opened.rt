ghost use Rattle.std.specs.Prelude.{◌≡◌, ◌++◌, length, min, take};
ghost use Rattle.outside.specs.Stock.{advanced, at_start};

use std::marker::Model;

/// A begun input, with its own copy of the bytes.
#[derive(Drop)]
pub struct Opened {
    bytes: Vec<u8>,
    given: usize,
}

impl Model for Opened {
    ghost use Rattle.std.specs.Prelude.{◌≤◌, drop, length};
    ghost use Rattle.outside.specs.Stock.{Input};

    ghost Value = { Input };

    ghost view = { λ o. record { given = o.given; left = drop o.given o.bytes.items } };

    ghost invariant = { λ o. o.given ≤ length o.bytes.items };
}

impl Opened {
    /// These bytes, from the first.
    pub fn new(bytes: Vec<u8>) -> Opened
        ensures { result ≡ at_start bytes.items }
    {
        Opened { bytes, given: 0 }
    }

    /// How many bytes were given.
    pub fn given(&self) -> u64
        ensures { result ≡ self.now.given }
    {
        self.given as u64
    }

    /// Gives the next bytes, at most `piece`, into a front of `into`.
    pub fn give(&mut self, piece: usize, into: &mut [u8]) -> usize
        ensures amount { result ≡ min (min piece (length self.old.left)) (length into.new) }
        ensures given { self.new ≡ advanced result self.old }
        ensures taken { self.old.left ≡ take result into.new ++ self.new.left }
    {
        let left = &self.bytes[self.given..];
        let count = piece.min(left.len()).min(into.len());
        into[..count].copy_from_slice(&left[..count]);
        self.given += count;
        count
    }
}
