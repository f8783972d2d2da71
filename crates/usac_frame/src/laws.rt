//! What holds of every frame.
//!
//! The functions run no code; their contracts are the theorems.
ghost use Rattle.usac_frame.specs.AccessUnit.{IsFrameOf};
ghost use Rattle.usac_frame.specs.Laws.{IsSpelledOnce, IsDecided, IsReadBack, HasPartOfEach, IsSplitAtPreroll, HasSmallPayload};

/// An access unit is at most one frame of a configuration.
pub fn frames_are_spelled_once()
    ensures { IsSpelledOnce }
{}

/// An access unit is a frame of a configuration exactly where it has no fault; and it has one fault at most.
pub fn access_units_are_decided()
    ensures { IsDecided }
{}

/// What is written of a frame is read as this frame with fewer than 8 further zero bits in its rest.
pub fn frames_are_read_back()
    ensures { IsReadBack }
{}

/// A frame that fits a configuration has as many parts as that has leading extension elements.
pub fn frames_have_a_part_for_each_element()
    ensures { HasPartOfEach }
{}

/// A frame's spelling is the flag, the part of the preroll element, where one is declared, and the bits of the unit, before
/// the zeros at their end are cut.
pub fn frames_are_split_at_the_preroll()
    ensures { IsSplitAtPreroll }
{}

/// The frame of an access unit is the one whose spelling it is.
pub fn access_units_are_their_frames()
    ensures { IsFrameOf }
{}

/// Under a well formed configuration a frame that fits it has at most 65,791 bytes of payload in part 0.
pub fn payloads_are_small()
    ensures { HasSmallPayload }
{}
