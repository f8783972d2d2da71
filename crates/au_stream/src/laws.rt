//! What holds of every input. The functions run no code; their contracts are the theorems.
ghost use Rattle.layout.specs.Reading.{ReadsText};
ghost use Rattle.layout.specs.Text.{bits_of};
ghost use Rattle.loas.specs.Framer.{Framer};
ghost use Rattle.loas.specs.Giving.{Takes};
ghost use Rattle.loas.specs.declared.framed.Framed.{Framed};
ghost use Rattle.loas.specs.declared.fault.LoasFault.{LoasFault};
ghost use Rattle.latm.specs.declared.fault.MuxFault.{MuxFault};
ghost use Rattle.latm.specs.declared.mux_config.MuxConfig.{MuxConfig};
ghost use Rattle.latm.specs.declared.mux_element.MuxElement.{MuxElement};
ghost use Rattle.latm.specs.declared.stream.Stream.{Stream};
ghost use Rattle.latm.specs.Faults.{is_memory};
ghost use Rattle.latm.specs.MuxElement.{element};
ghost use Rattle.latm.specs.Stream.{IsWellFormed, slots_from};
ghost use Rattle.asc.specs.declared.asc_config.Asc.{Asc};
ghost use Rattle.au_stream.specs.Ahead.{ReadsNear};
ghost use Rattle.au_stream.specs.Canonical.{Handed, HasFrame, BeginsWith, bytes_of_handed, frames_of_handed};
ghost use Rattle.au_stream.specs.Elements.{IsElement, Carries};
ghost use Rattle.au_stream.specs.Frames.{Frame, frames_from};
ghost use Rattle.au_stream.specs.Pairs.{as_pair};
ghost use Rattle.au_stream.specs.Script.{Mark, End, HasFrames, IsScript, most_bytes};
ghost use Rattle.au_stream.specs.Whole.{IsStream};
ghost use Rattle.au_stream.specs.Written.{IsWritten, AreWritten, GivesElement, ReadsElement};
ghost use Rattle.std.specs.Prelude.{◌≡◌, ◌<◌, ◌≤◌, ◌∷◌, ◌++◌, [], ℕ, List, Option, Result, None, All, length, map};

/// An input has one script: its frames, and one reason why no more follow.
pub fn one_script()
    ensures exists { (text : List ℕ) → All (λ byte. byte < 256) text → (frames : List Frame) × (mark : Mark) × IsScript text frames mark }
    ensures unique { (text : List ℕ) (frames others : List Frame) (mark other : Mark) → IsScript text frames mark → IsScript text others other → (frames ≡ others) × (mark ≡ other) }
{}

/// The frames of an input are those of its script.
pub fn has_frames()
    ensures of_script { (text : List ℕ) (frames : List Frame) (mark : Mark) → IsScript text frames mark → HasFrames text frames }
    ensures unique { (text : List ℕ) (frames others : List Frame) (mark : Mark) → IsScript text frames mark → HasFrames text others → frames ≡ others }
{}

/// The frames of elements, each by its configuration and its access unit, are those of the stream of these elements.
pub fn frames_of_a_stream()
    ensures { (elements : List MuxElement) → map as_pair (frames_from None elements) ≡ slots_from None elements }
{}

/// Under one configuration in force, or none, bytes begin with the LOAS frame of one element at most. An element has one LOAS
/// frame at most, whatever is in force.
pub fn frames_have_one_spelling()
    ensures one_element { (before : Option MuxConfig) (text : List ℕ) (one other : MuxElement) (rest remains : List ℕ) → Carries before text (one ∷ []) rest → Carries before text (other ∷ []) remains → (one ≡ other) × (rest ≡ remains) }
    ensures one_frame { (before later : Option MuxConfig) (wanted : MuxElement) (frame other : List ℕ) → All (λ byte. byte < 256) frame → All (λ byte. byte < 256) other → Carries before frame (wanted ∷ []) [] → Carries later other (wanted ∷ []) [] → frame ≡ other }
{}

/// What is written of an element as a LOAS frame is that element again, whatever bytes stand behind it: all of them together
/// carry the element and what stands behind; a framer that holds them gives the bytes of the element; and of these the element
/// is read.
pub fn written_frames_are_read_back()
    ensures carried { (before : Option MuxConfig) (wanted : MuxElement) (frame behind : List ℕ) → (let L = element before in L.Fits wanted) → IsWritten wanted frame → Carries before (frame ++ behind) (wanted ∷ []) behind }
    ensures given { (before : Option MuxConfig) (wanted : MuxElement) (text behind : List ℕ) (old new : Framer) (result : Result (Option Framed) LoasFault) → Carries before text (wanted ∷ []) behind → old.held ≡ text → Takes old new result → GivesElement before wanted behind old new result }
    ensures read { (before : Option MuxConfig) (wanted : MuxElement) (body : List ℕ) (result : Result MuxElement MuxFault) → IsElement before wanted body → ReadsText is_memory (element before) (bits_of body) result → ReadsElement wanted result }
{}

/// What is written of the elements of a well formed stream, a LOAS frame each, is that stream again: its script has the frames
/// of these elements, and the mark End.
pub fn written_streams_are_read_back()
    ensures { (stream : Stream) (text : List ℕ) → IsWellFormed stream → AreWritten stream.elements text → length text ≤ most_bytes → IsStream text stream }
{}

/// Access units that are handed on in the canonical mux, the first with an AudioSpecificConfig, are a stream: its script has
/// exactly these access units, in order and each under the AudioSpecificConfig that was given last, and the mark End.
pub fn canonical_frames_are_read_back()
    ensures { (first : Asc) (handed : List Handed) → BeginsWith first handed → All HasFrame handed → length (bytes_of_handed handed) ≤ most_bytes → IsScript (bytes_of_handed handed) (frames_of_handed first handed) End }
{}

/// A reader that has just given a frame took fewer than 8192 bytes behind the AudioMuxElement with that frame, however the source
/// cuts its bytes: nothing is read far ahead of what is done with it.
pub fn frames_are_given_soon()
    ensures { ReadsNear }
{}
