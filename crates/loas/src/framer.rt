// A stream that is pushed in pieces.
ghost use Rattle.loas.specs.Giving.{HasGiven, Gives, given_by, Ends, Takes, EndsBy};
ghost use Rattle.loas.specs.Framer.{Framer, pushed, grown, past_frame};
ghost use Rattle.loas.specs.Framing.{BeginsWithFrame, IsPartial, HasWrongSync, IsLongest};
ghost use Rattle.loas.specs.Front.{Stands};
ghost use Rattle.loas.specs.declared.fault.LoasFault.TheVariants.{SyncLost, Truncated};
ghost use Rattle.std.specs.Prelude.{◌≡◌, ◌≤◌, ◌<◌, ◌+◌, ◌*◌, ◌^◌, ◌↔◌, ◌∷◌, ◌++◌, List, ℕ, [], length, take, drop, vec_len, IsTrue, Ok, Err, None, OnOk, OnErr};

use crate::fault::LoasFault;
use crate::framed::Framed;
use crate::framing::{Front, front_of};
use bit_core::Octets;
use std::alloc::{AllocError, Global};
use std::marker::Model;

/// Gives the frames of a stream that is pushed in pieces, each once, in order. How the stream was cut makes no difference.
///
/// The bytes that are held begin at `at` in the buffer. A frame is passed by moving `at`, and a look at the front reads
/// three bytes. The passed bytes are freed by moving those that are held to the front of the buffer. A push does so only
/// where at least as many bytes were passed since they last moved: so each byte that is passed pays for at most one byte
/// that is moved. [`Loas::next`] does so where it finds no frame: what is held then is part of one, which begins the buffer
/// from then on, so none of these bytes is moved again. In all, the cost is linear in the bytes that are pushed and in the
/// calls, however much is held and however small the pieces are.
#[derive(Drop)]
pub struct Loas {
    buffer: Vec<u8>,
    at: usize,
    passed: u64,
}

impl Model for Loas {
    ghost use Rattle.loas.specs.Framer.{Buffered};
    ghost use Rattle.std.specs.Prelude.{◌+◌, ◌-◌, ◌^◌, ◌<◌, ◌≤◌, drop, vec_len};

    ghost Value = { Buffered };

    ghost view = { λ l. record {
      framer = record { passed = l.passed; held = drop l.at l.buffer.items };
      stored = vec_len l.buffer;
    } };

    ghost invariant = { λ l. (l.at ≤ vec_len l.buffer) × (l.passed + (vec_len l.buffer - l.at) < 2 ^ 63) };
}

impl Loas {
    /// A framer that was pushed nothing.
    pub fn new(alloc: Global) -> Loas
        ensures nothing { result ≡ record { framer = record { passed = 0; held = [] }; stored = 0 } }
        ensures given { HasGiven [] [] result.framer }
    {
        Loas {
            buffer: Vec::new(alloc),
            at: 0,
            passed: 0,
        }
    }

    /// Takes the next bytes of the stream. The one error is out of memory.
    ///
    /// The buffer has at most twice as many bytes then as are held.
    pub fn push(&mut self, piece: &[u8]) -> Result<(), AllocError>
        requires { pushed self.old.framer + length piece.now < 2 ^ 63 }
        ensures ok { OnOk result (self.new.framer ≡ grown self.old.framer piece.now) }
        ensures err { OnErr result (self.new.framer ≡ self.old.framer) }
        ensures given { OnOk result ((text : List ℕ) (given : List (List ℕ)) → HasGiven text given self.old.framer → HasGiven (text ++ piece.now) given self.new.framer) }
        ensures lost { HasWrongSync self.old.framer.held → HasWrongSync self.new.framer.held × (self.new.framer.passed ≡ self.old.framer.passed) }
        ensures freed { self.new.stored ≤ 2 * length self.new.framer.held }
        ensures grows { self.new.stored ≤ self.old.stored + length piece.now }
    {
        self.close_up();
        self.buffer.extend_from_slice(piece)
    }

    /// Gives the next frame of the stream. It is None where what is held could still become one. The bytes that were passed
    /// are freed then, so that the buffer has no more than are held: at most 8193.
    ///
    /// # Errors
    /// - `SyncLost`: what is held begins with a wrong syncword. It is answered again at each further call, whatever is
    ///   pushed: `lost` here, and of `push`.
    /// - `Memory`: there was no memory for the bytes of the frame, which stays held.
    #[tactic(auto, using(crate::proofs::Given::partial_few))]
    pub fn next(&mut self, alloc: Global) -> Result<Option<Framed>, LoasFault>
        ensures gives { (text : List ℕ) (given bodies : List (List ℕ)) (rest : List ℕ) → HasGiven text given self.old.framer → IsLongest text bodies rest → Gives given bodies rest result }
        ensures given { (text : List ℕ) (given : List (List ℕ)) → HasGiven text given self.old.framer → HasGiven text (given ++ given_by result) self.new.framer }
        ensures takes { Takes self.old.framer self.new.framer result }
        ensures none { (result ≡ Ok None) ↔ IsPartial self.old.framer.held }
        ensures lost { (result ≡ Err (SyncLost self.old.framer.passed)) ↔ HasWrongSync self.old.framer.held }
        ensures few { result ≡ Ok None → (self.new.stored ≡ length self.new.framer.held) × (self.new.stored ≤ 8193) }
        ensures falls { self.new.stored ≤ self.old.stored }
        ensures err { OnErr result (self.new ≡ self.old) }
    {
        let at = self.passed;
        match self.front() {
            Front::Frame(length) => {
                let element = Octets::copy_of(alloc, self.element(length))?;
                self.pass(length);
                Ok(Some(Framed { at, element }))
            }
            Front::Part => {
                self.free();
                Ok(None)
            }
            Front::Lost => Err(LoasFault::SyncLost { byte: at }),
        }
    }

    /// Says whether the stream may end where the pushed bytes do. It may where nothing is held, and where a whole frame
    /// is, which is still to be given.
    ///
    /// # Errors
    /// `SyncLost` as [`Loas::next`]; `Truncated` where less than a frame is held, and at least one byte.
    pub fn end(&self) -> Result<(), LoasFault>
        ensures answers { (text : List ℕ) (given bodies : List (List ℕ)) (rest : List ℕ) → HasGiven text given self.now.framer → IsLongest text bodies rest → Ends given bodies rest result }
        ensures ends { EndsBy self.now.framer result }
        ensures lost { (result ≡ Err (SyncLost self.now.framer.passed)) ↔ HasWrongSync self.now.framer.held }
        ensures truncated { (result ≡ Err (Truncated self.now.framer.passed)) ↔ (IsPartial self.now.framer.held × (0 < length self.now.framer.held)) }
    {
        match self.front() {
            Front::Lost => Err(LoasFault::SyncLost { byte: self.passed }),
            Front::Part if !self.is_empty() => Err(LoasFault::Truncated { byte: self.passed }),
            Front::Part => Ok(()),
            Front::Frame(_) => Ok(()),
        }
    }

    /// What stands at the front of the bytes that are held. With [`Loas::element`] and [`Loas::pass`] it serves a reader
    /// that wants no copy of a frame.
    pub fn front(&self) -> Front
        ensures stands { Stands self.now.framer.held result }
    {
        front_of(&self.buffer[self.at..])
    }

    /// The offset of the first byte that is held or, where none is, of the next one to be pushed.
    pub fn at(&self) -> u64
        ensures { result ≡ self.now.framer.passed }
    {
        self.passed
    }

    /// How many bytes were pushed in all.
    pub fn pushed(&self) -> u64
        ensures { result ≡ pushed self.now.framer }
    {
        self.passed + (self.buffer.len() - self.at) as u64
    }

    /// The bytes behind the header of the frame at the front, of which there are `n`.
    pub fn element(&self, n: usize) -> &[u8]
        requires { BeginsWithFrame n self.now.framer.held }
        ensures { result.now ≡ take n (drop 3 self.now.framer.held) }
    {
        &(&self.buffer[self.at..])[3..3 + n]
    }

    /// Passes the frame at the front, which has `n` bytes behind its header.
    pub fn pass(&mut self, n: usize)
        requires { BeginsWithFrame n self.old.framer.held }
        ensures passed { self.new.framer ≡ past_frame n self.old.framer }
        ensures stored { self.new.stored ≡ self.old.stored }
        ensures given { (text : List ℕ) (given : List (List ℕ)) → HasGiven text given self.old.framer → HasGiven text (given ++ take n (drop 3 self.old.framer.held) ∷ []) self.new.framer }
    {
        self.at += 3 + n;
        self.passed += (3 + n) as u64;
    }

    fn is_empty(&self) -> bool
        ensures { IsTrue result ↔ self.now.framer.held ≡ [] }
    {
        self.buffer[self.at..].is_empty()
    }

    // Frees the bytes that were passed, where at least as many were as are held.
    fn close_up(&mut self)
        ensures same { self.new.framer ≡ self.old.framer }
        ensures freed { self.new.stored ≤ 2 * length self.new.framer.held }
        ensures falls { self.new.stored ≤ self.old.stored }
    {
        if self.at >= self.buffer.len() - self.at {
            self.free()
        }
    }

    // Frees the bytes that were passed: those that are held are moved to the front of the buffer.
    fn free(&mut self)
        ensures same { self.new.framer ≡ self.old.framer }
        ensures freed { self.new.stored ≡ length self.new.framer.held }
        ensures falls { self.new.stored ≤ self.old.stored }
    {
        if self.at > 0 {
            let rest = self.buffer.len() - self.at;
            self.buffer.copy_within(self.at.., 0);
            self.buffer.truncate(rest);
            self.at = 0;
        }
    }
}
