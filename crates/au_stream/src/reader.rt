// The access units of a source.
ghost use Rattle.std.specs.Prelude.{◌≡◌, ◌↔◌, ◌∷◌, [], ℕ, List, None, Some, Ok, IsTrue, IsErr, OnErr, IfOk, ◌+◌, ◌<◌, ◌≤◌, false, true, length};
ghost use Rattle.std.specs.Option.{option_copied, option_map};
ghost use Rattle.layout.specs.Layout.{FitsOption};
ghost use Rattle.loas.specs.Framing.{BeginsWithFrame};
ghost use Rattle.latm.specs.MuxConfig.{IsWellFormed};
ghost use Rattle.asc.specs.Asc.{IsWellFormed as IsAscWellFormed};
ghost use Rattle.usac_cfg.specs.UsacConfig.{IsWellFormed as IsUsacWellFormed};
ghost use Rattle.au_stream.specs.Frames.{Frame, last_of};
ghost use Rattle.au_stream.specs.Script.{most_bytes};
ghost use Rattle.au_stream.specs.Taking.{seen, IsReadFault, Caused};
ghost use Rattle.au_stream.specs.Reading.{HasRead};
ghost use Rattle.latm.specs.MuxElement.{then_in_force};
ghost use Rattle.au_stream.specs.Giving.{Tells, Falls, IsSmall};
ghost use Rattle.au_stream.specs.Held.{FindsSlots};
ghost use Rattle.au_stream.specs.Views.{Finds, HasNext, IsSmallNext, FallsBehind, next_au, next_event, after_next, heads, IsCopied, Enters};
ghost use Rattle.au_stream.specs.Events.{Reads};

use crate::event::{Event, EventHead, Found};
use crate::event_view::EventView;
use crate::fault::{StreamFault, refused};
use crate::frame_reader::FrameReader;
use asc::Asc;
use bit_core::Octets;
use latm::{MuxConfig, Places, SlotPlaces, read_places};
use outside::Source;
use std::alloc::{AllocError, Global};
use std::marker::Model;
use usac_cfg::UsacConfig;

/// Gives the access units of a source of LOAS frames, each once, in order (ISO/IEC 14496-3, AudioSyncStream and
/// AudioMuxElement). Every call of one reader is to be given the same source.
///
/// An element is read whole before its first access unit is given, and all whole elements that are held are given before
/// more is read. Of the elements before it the reader keeps the configuration in force alone, so its memory does not grow.
///
/// An example, which is a test of this crate: the length of the longest access unit, in bytes.
///
/// ```text
/// let mut reader = AuReader::new(alloc);
/// let mut longest = 0;
/// while let Some(event) = reader.next(alloc, source)? {
///     longest = longest.max(event.au.len());
/// }
/// Ok(longest)
/// ```
#[derive(Drop)]
pub struct AuReader {
    frames: FrameReader,
    in_force: Option<MuxConfig>,
    // where the access units of the last element that was read stand, and how many of them were given; its frame is passed
    // behind the last one
    slots: SlotPlaces,
    given: u64,
    // how many bytes that element has
    length: usize,
    count: u64,
    failed: bool,
}

impl Model for AuReader {
    ghost use Rattle.std.specs.Prelude.{◌≤◌, drop, false};
    ghost use Rattle.layout.specs.Layout.{FitsOption};
    ghost use Rattle.latm.specs.MuxConfig.{IsWellFormed};
    ghost use Rattle.loas.specs.Framer.{pushed};
    ghost use Rattle.au_stream.specs.Script.{most_bytes};
    ghost use Rattle.au_stream.specs.Reading.{Reading};
    ghost use Rattle.au_stream.specs.Held.{behind_read, slots_of, HoldsSlots};

    ghost Value = { Reading };

    ghost view = { λ r. record {
      framer = behind_read (drop r.given r.slots) r.length r.frames;
      in_force = r.in_force;
      pending = slots_of (drop r.given r.slots) r.length r.frames;
      opens = false;
      changed = false;
      count = r.count;
      failed = r.failed;
    } };

    ghost invariant = { λ r. HoldsSlots r.slots r.given r.length r.count r.frames × (pushed r.frames ≤ most_bytes) × FitsOption IsWellFormed r.in_force };
}

// Whether a StreamMuxConfig changes the UsacConfig in force.
fn is_change(in_force: &Option<MuxConfig>, config: &MuxConfig) -> bool
    ensures { Tells result in_force.now (Some config.now) }
{
    match in_force {
        None => true,
        Some(before) => !before.asc.usac.same(&config.asc.usac),
    }
}

// The heads of what was found.
fn heads(answer: Result<Option<Found>, StreamFault>) -> Result<Option<EventHead>, StreamFault>
    ensures { result ≡ heads answer }
{
    match answer {
        Ok(Some(found)) => Ok(Some(found.head)),
        Ok(None) => Ok(None),
        Err(fault) => Err(fault),
    }
}

impl AuReader {
    /// A reader that has read nothing.
    pub fn new(alloc: Global) -> AuReader
        ensures { HasRead [] [] result }
    {
        AuReader {
            frames: FrameReader::new(alloc),
            in_force: None,
            slots: SlotPlaces::new(alloc),
            given: 0,
            length: 0,
            count: 0,
            failed: false,
        }
    }

    /// Gives the next frame. It is None where the source ends behind the last one, and from the first refusal on.
    ///
    /// What a call that was refused has read stays taken from the source.
    ///
    /// # Errors
    /// - `ReadFault`: the source failed.
    /// - `Loas`: no syncword stands where a LOAS frame is due, or the source ends within one.
    /// - `Mux`: an element is not read, by its first fault.
    /// - `TooLarge`: 268,435,456 bytes were taken, all whole elements in them were given, and there is a byte more.
    /// - `Memory`: out of memory.
    pub fn next<S: Source>(
        &mut self,
        alloc: Global,
        source: &mut S,
    ) -> Result<Option<Event>, StreamFault>
        ensures reads { (got : List ℕ) (given : List Frame) → HasRead got given self.old →
            Reads got given self.old self.new (seen S.left S.faults source.old) (seen S.left S.faults source.new) result }
        ensures small { (got : List ℕ) (given : List Frame) → HasRead got given self.old → IsSmall result }
        ensures few { self.new.count ≤ most_bytes }
        ensures after_fault { self.old.failed ≡ true → (result ≡ Ok None) × (self.new ≡ self.old) × (source.new ≡ source.old) }
        ensures failed { self.old.failed ≡ false → IsTrue self.new.failed ↔ IsErr result }
        ensures kept { OnErr result (self.new.in_force ≡ self.old.in_force) }
        ensures falls { Falls self.old self.new result }
        ensures caused { Caused (S.faults source.old) (S.faults source.new) result }
        ensures other { S.other source.new ≡ S.other source.old }
        ensures calm { S.calm source.old → S.calm source.new }
        ensures calm_answers { S.calm source.old → IsReadFault result → ⊥ }
    {
        if self.failed {
            return Ok(None);
        }
        let result = self.take(alloc, source);
        self.failed = result.is_err();
        result
    }

    /// Finds the next frame, as `next` gives it, and leaves its access unit where it stands: `view` shows it, and `pass` is to be
    /// called before the next one is asked for. It is None where the source ends behind the last one, and from the first refusal on.
    ///
    /// # Errors
    /// Those of `next`.
    pub fn find<S: Source>(
        &mut self,
        alloc: Global,
        source: &mut S,
    ) -> Result<Option<EventHead>, StreamFault>
        ensures finds { (got : List ℕ) (given : List Frame) → HasRead got given self.old →
            Finds got given self.old self.new (seen S.left S.faults source.old) (seen S.left S.faults source.new) result }
        ensures some { HasNext self.new result }
        ensures small { (got : List ℕ) (given : List Frame) → HasRead got given self.old → IsSmallNext self.new result }
        ensures after_fault { self.old.failed ≡ true → (result ≡ Ok None) × (self.new ≡ self.old) × (source.new ≡ source.old) }
        ensures failed { self.old.failed ≡ false → IsTrue self.new.failed ↔ IsErr result }
        ensures falls { FallsBehind self.old self.new result }
        ensures caused { Caused (S.faults source.old) (S.faults source.new) result }
        ensures other { S.other source.new ≡ S.other source.old }
        ensures calm { S.calm source.old → S.calm source.new }
        ensures calm_answers { S.calm source.old → IsReadFault result → ⊥ }
    {
        if self.failed {
            return Ok(None);
        }
        let result = heads(self.advance(alloc, source, false));
        self.failed = result.is_err();
        result
    }

    /// The frame that was found and not yet passed. Its head is what `find` answered.
    pub fn view(&self, head: EventHead) -> EventView<'_>
        requires { 0 < length self.now.pending }
        ensures { result ≡ next_event self.now head }
    {
        let Some(place) = self.slots.get(self.given) else {
            unreachable!()
        };
        EventView::new(head, self.frames.body(self.length), *place)
    }

    /// Passes the frame that was found.
    pub fn pass(&mut self)
        requires { 0 < length self.old.pending }
        ensures passed { self.new ≡ after_next self.old }
        ensures few { self.new.count ≤ most_bytes }
    {
        self.given += 1;
        if self.given == self.slots.len() {
            self.frames.pass(self.length);
        }
        self.count += 1;
    }

    /// Whether a call was refused.
    pub fn failed(&self) -> bool
        ensures { result ≡ self.now.failed }
    {
        self.failed
    }

    /// The StreamMuxConfig in force for the last frame that was given; None exactly before the first one.
    pub fn mux(&self) -> Option<&MuxConfig>
        ensures in_force { option_copied result ≡ self.now.in_force }
        ensures well_formed { FitsOption IsWellFormed (option_copied result) }
        ensures last { (got : List ℕ) (given : List Frame) → HasRead got given self.now → option_copied result ≡ option_map (λ f. f.mux) (last_of given) }
    {
        self.in_force.as_ref()
    }

    /// The AudioSpecificConfig in force for the last frame that was given; None exactly before the first one.
    pub fn asc(&self) -> Option<&Asc>
        ensures in_force { option_copied result ≡ option_map (λ m. m.asc) self.now.in_force }
        ensures well_formed { FitsOption IsAscWellFormed (option_copied result) }
        ensures last { (got : List ℕ) (given : List Frame) → HasRead got given self.now → option_copied result ≡ option_map (λ f. f.mux.asc) (last_of given) }
    {
        match self.mux() {
            None => None,
            Some(mux) => Some(&mux.asc),
        }
    }

    /// The UsacConfig in force for the last frame that was given (ISO/IEC 23003-3); None exactly before the first one.
    pub fn config(&self) -> Option<&UsacConfig>
        ensures in_force { option_copied result ≡ option_map (λ m. m.asc.usac) self.now.in_force }
        ensures well_formed { FitsOption IsUsacWellFormed (option_copied result) }
        ensures last { (got : List ℕ) (given : List Frame) → HasRead got given self.now → option_copied result ≡ option_map (λ f. f.mux.asc.usac) (last_of given) }
    {
        match self.mux() {
            None => None,
            Some(mux) => Some(&mux.asc.usac),
        }
    }

    // Gives the next frame, where no call was refused.
    fn take<S: Source>(
        &mut self,
        alloc: Global,
        source: &mut S,
    ) -> Result<Option<Event>, StreamFault>
        ensures reads { (got : List ℕ) (given : List Frame) → HasRead got given self.old →
            Reads got given self.old self.new (seen S.left S.faults source.old) (seen S.left S.faults source.new) result }
        ensures kept { OnErr result (self.new.in_force ≡ self.old.in_force) }
        ensures falls { Falls self.old self.new result }
        ensures going { self.new.failed ≡ self.old.failed }
        ensures caused { Caused (S.faults source.old) (S.faults source.new) result }
        ensures other { S.other source.new ≡ S.other source.old }
        ensures calm { S.calm source.old → S.calm source.new }
        ensures calm_answers { S.calm source.old → IsReadFault result → ⊥ }
    {
        let Some(found) = self.advance(alloc, source, true)? else {
            return Ok(None);
        };
        self.pass();
        Ok(Some(found.into_event()))
    }

    // Finds the next frame, where no call was refused, and copies its access unit where that is asked for.
    fn advance<S: Source>(
        &mut self,
        alloc: Global,
        source: &mut S,
        copies: bool,
    ) -> Result<Option<Found>, StreamFault>
        ensures finds { (got : List ℕ) (given : List Frame) → HasRead got given self.old →
            Finds got given self.old self.new (seen S.left S.faults source.old) (seen S.left S.faults source.new) (heads result) }
        ensures some { HasNext self.new (heads result) }
        ensures copied { IsCopied copies self.new result }
        ensures kept { OnErr result (self.new.in_force ≡ self.old.in_force) }
        ensures falls { FallsBehind self.old self.new (heads result) }
        ensures going { self.new.failed ≡ self.old.failed }
        ensures caused { Caused (S.faults source.old) (S.faults source.new) result }
        ensures other { S.other source.new ≡ S.other source.old }
        ensures calm { S.calm source.old → S.calm source.new }
        ensures calm_answers { S.calm source.old → IsReadFault result → ⊥ }
    {
        if self.given < self.slots.len() {
            let au = self.next_slot(alloc, copies)?;
            return Ok(Some(self.found(au, false, false)));
        }
        let Some(length) = self.frames.next(source)? else {
            return Ok(None);
        };
        let found = self.enter(alloc, length, copies)?;
        Ok(Some(found))
    }

    // Reads the element of the LOAS frame at the front, which has `n` bytes behind its header, and finds its first access
    // unit.
    fn enter(&mut self, alloc: Global, n: usize, copies: bool) -> Result<Found, StreamFault>
        requires here { BeginsWithFrame n self.old.framer.held }
        requires none { self.old.pending ≡ [] }
        ensures enters { Enters n copies self.old self.new result }
        ensures kept { OnErr result (self.new.in_force ≡ self.old.in_force) }
        ensures going { self.new.failed ≡ self.old.failed }
    {
        let config = self.find_slots(alloc, n)?;
        let au = self.next_slot(alloc, copies)?;
        let opens = config.is_some();
        let changed = self.put_in_force(config);
        Ok(self.found(au, opens, changed))
    }

    // Finds the slots of that element. Its configuration, where it has one, is not yet in force.
    fn find_slots(&mut self, alloc: Global, n: usize) -> Result<Option<MuxConfig>, StreamFault>
        requires here { BeginsWithFrame n self.old.framer.held }
        requires none { self.old.pending ≡ [] }
        ensures finds { FindsSlots n self.old self.new result }
        ensures some { IfOk result (λ config. 0 < length self.new.pending) }
        ensures well_formed { IfOk result (λ config. FitsOption IsWellFormed config) }
    {
        let Places { config, slots } = match read_places(
            alloc,
            self.in_force.as_ref(),
            self.frames.body(n),
        ) {
            Ok(places) => places,
            Err(fault) => return Err(refused(self.count, fault)),
        };
        self.slots = slots;
        self.given = 0;
        self.length = n;
        Ok(config)
    }

    // Puts the configuration of an element in force, where it has one, and says whether this changes the UsacConfig.
    fn put_in_force(&mut self, config: Option<MuxConfig>) -> bool
        requires { FitsOption IsWellFormed config }
        ensures put { self.new ≡ record self.old { in_force = then_in_force self.old.in_force config } }
        ensures tells { Tells result self.old.in_force config }
    {
        let Some(config) = config else {
            return false;
        };
        let changed = is_change(&self.in_force, &config);
        self.in_force = Some(config);
        changed
    }

    // A copy of the access unit that is next to be given, where it is asked for, and else nothing.
    fn next_slot(&self, alloc: Global, copies: bool) -> Result<Octets, AllocError>
        requires { 0 < length self.now.pending }
        ensures { IfOk result (λ au. copies ≡ true → au ≡ next_au self.now) }
    {
        if !copies {
            return Ok(Octets::new(alloc));
        }
        let Some(place) = self.slots.get(self.given) else {
            unreachable!()
        };
        place.slot(alloc, self.frames.body(self.length))
    }

    // What is found of the frame that is next to be given.
    fn found(&self, au: Octets, opens: bool, changed: bool) -> Found
        ensures { result ≡ record { head = record { frame = self.now.count; changed = changed; opens = opens }; au = au } }
    {
        let head = EventHead {
            frame: self.count,
            changed,
            opens,
        };
        Found { head, au }
    }
}
