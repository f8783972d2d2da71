// The LOAS frames of a source.
ghost use Rattle.std.specs.Prelude.{◌≡◌, ◌≤◌, ◌+◌, [], length, take, drop};
ghost use Rattle.loas.specs.Framing.{BeginsWithFrame};
ghost use Rattle.loas.specs.Front.{Stands};
ghost use Rattle.loas.specs.Framer.{past_frame, pushed};
ghost use Rattle.au_stream.specs.Script.{most_bytes};
ghost use Rattle.au_stream.specs.Taking.{Takes, Refills, seen, IsReadFault};

use crate::fault::StreamFault;
use loas::{Front, Loas, LoasFault};
use outside::{DeviceFault, Source};
use std::alloc::Global;
use std::marker::Model;

// How many bytes a source may have.
const LIMIT: u64 = 268_435_456;

// How many bytes are read at a time.
const PIECE: usize = 8192;

/// Finds the LOAS frames of a source, one after another (ISO/IEC 14496-3, AudioSyncStream). Every call of one reader is to
/// be given the same source.
///
/// More is read only where less than a frame is held, at most 8192 bytes at a time.
#[derive(Drop)]
pub struct FrameReader {
    framer: Loas,
    piece: [u8; PIECE],
}

impl Model for FrameReader {
    ghost use Rattle.loas.specs.Framer.{Framer, pushed};
    ghost use Rattle.std.specs.Prelude.{◌≤◌};
    ghost use Rattle.au_stream.specs.declared.frame_reader.TheConstants.{LIMIT};

    ghost Value = { Framer };

    ghost view = { λ r. r.framer.framer };

    ghost invariant = { λ r. pushed r.framer.framer ≤ LIMIT };
}

impl FrameReader {
    /// A reader that has read nothing.
    pub fn new(alloc: Global) -> FrameReader
        ensures { result ≡ record { passed = 0; held = [] } }
    {
        FrameReader {
            framer: Loas::new(alloc),
            piece: [0; PIECE],
        }
    }

    /// Finds the next frame, and says how many bytes stand behind its header; the frame stays held. It is None where the
    /// source ends behind the last frame. A frame that is held is found before more is read, and so is the loss of the
    /// syncword.
    ///
    /// What a call that was refused has read stays taken from the source.
    pub fn next<S: Source>(&mut self, source: &mut S) -> Result<Option<usize>, StreamFault>
        ensures takes { Takes most_bytes self.old self.new (seen S.left S.faults source.old) (seen S.left S.faults source.new) result }
        ensures limit { pushed self.new ≤ most_bytes }
        ensures other { S.other source.new ≡ S.other source.old }
        ensures calm { S.calm source.old → S.calm source.new }
        ensures calm_answers { S.calm source.old → IsReadFault result → ⊥ }
    {
        'pieces: loop {
            match self.front() {
                Front::Frame(length) => return Ok(Some(length)),
                Front::Lost => return Err(StreamFault::Loas(LoasFault::SyncLost {
                    byte: self.framer.at(),
                })),
                Front::Part => {}
            }
            if !self.refill(source)? {
                let byte = self.framer.at();
                if byte == self.framer.pushed() {
                    return Ok(None);
                }
                return Err(StreamFault::Loas(LoasFault::Truncated { byte }));
            }
        }
    }

    /// The `n` bytes behind the header of the frame at the front.
    pub fn body(&self, n: usize) -> &[u8]
        requires { BeginsWithFrame n self.now.held }
        ensures { result.now ≡ take n (drop 3 self.now.held) }
    {
        self.framer.element(n)
    }

    /// Passes the frame at the front, which has `n` bytes behind its header.
    pub fn pass(&mut self, n: usize)
        requires { BeginsWithFrame n self.old.held }
        ensures { self.new ≡ past_frame n self.old }
    {
        self.framer.pass(n);
    }

    // What stands at the front of the bytes that are held.
    fn front(&self) -> Front
        ensures stands { Stands self.now.held result }
        ensures limit { pushed self.now ≤ LIMIT }
    {
        self.framer.front()
    }

    // Reads a piece behind what is held. `false` is the end.
    fn refill<S: Source>(&mut self, source: &mut S) -> Result<bool, StreamFault>
        ensures takes { Refills most_bytes self.old self.new (seen S.left S.faults source.old) (seen S.left S.faults source.new) result }
        ensures limit { pushed self.new ≤ most_bytes }
        ensures other { S.other source.new ≡ S.other source.old }
        ensures calm { S.calm source.old → S.calm source.new }
        ensures calm_answers { S.calm source.old → IsReadFault result → ⊥ }
    {
        let room = (LIMIT - self.framer.pushed()).min(PIECE as u64) as usize;
        if room == 0 {
            return self.probe(source);
        }
        let count = match source.read(&mut self.piece[..room]) {
            Ok(0) => return Ok(false),
            Ok(count) => count,
            Err(DeviceFault::Failed) => return Err(StreamFault::ReadFault),
            Err(DeviceFault::Memory(error)) => return Err(StreamFault::Memory(error)),
        };
        self.framer.push(&self.piece[..count])?;
        Ok(true)
    }

    // Sees whether a byte is left at the limit.
    fn probe<S: Source>(&self, source: &mut S) -> Result<bool, StreamFault>
        requires { pushed self.now ≡ LIMIT }
        ensures takes { Refills most_bytes self.now self.now (seen S.left S.faults source.old) (seen S.left S.faults source.new) result }
        ensures other { S.other source.new ≡ S.other source.old }
        ensures calm { S.calm source.old → S.calm source.new }
        ensures calm_answers { S.calm source.old → IsReadFault result → ⊥ }
    {
        let mut one = [0u8; 1];
        match source.read(&mut one) {
            Ok(0) => Ok(false),
            Ok(_) => Err(StreamFault::TooLarge),
            Err(DeviceFault::Failed) => Err(StreamFault::ReadFault),
            Err(DeviceFault::Memory(error)) => Err(StreamFault::Memory(error)),
        }
    }
}
