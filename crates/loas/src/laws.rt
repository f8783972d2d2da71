//! What holds of every stream. The functions run no code; their contracts are the theorems.
ghost use Rattle.loas.specs.Giving.{HasGiven};
ghost use Rattle.loas.specs.Framer.{Framer};
ghost use Rattle.loas.specs.Framing.{BeginsWithFrame, IsPartial, IsLost, HasWrongSync, IsLongest};
ghost use Rattle.loas.specs.Pieces.{IsRead};
ghost use Rattle.loas.specs.declared.pieces.StreamFrames.{StreamFrames};
ghost use Rattle.std.specs.Prelude.{◌≡◌, ◌⊎◌, ◌↔◌, ◌<◌, ◌++◌, List, ℕ, All};

/// Bytes begin with a frame, or are less than one, or have a wrong syncword, and only one of the three; and no frame can
/// come of them exactly where their syncword is wrong.
pub fn one_front()
    ensures some { (text : List ℕ) → All (λ byte. byte < 256) text → ((n : ℕ) × BeginsWithFrame n text) ⊎ (IsPartial text ⊎ HasWrongSync text) }
    ensures one_frame { (text : List ℕ) (n m : ℕ) → BeginsWithFrame n text → BeginsWithFrame m text → n ≡ m }
    ensures no_part { (text : List ℕ) (n : ℕ) → BeginsWithFrame n text → IsPartial text → ⊥ }
    ensures lost { (text : List ℕ) → All (λ byte. byte < 256) text → HasWrongSync text ↔ IsLost text }
{}

/// A text begins with one longest list of frames. What a framer has given of it is a front of that list.
pub fn one_longest()
    ensures exists { (text : List ℕ) → (bodies : List (List ℕ)) × (rest : List ℕ) × IsLongest text bodies rest }
    ensures unique { (text : List ℕ) (bodies others : List (List ℕ)) (rest remains : List ℕ) → IsLongest text bodies rest → IsLongest text others remains → (bodies ≡ others) × (rest ≡ remains) }
    ensures given { (text : List ℕ) (given bodies : List (List ℕ)) (rest : List ℕ) (framer : Framer) → HasGiven text given framer → IsLongest text bodies rest → (later : List (List ℕ)) × (bodies ≡ given ++ later) }
{}

/// The bytes of a stream alone tell its frames and why no more follow: what `frames_of` answers is the same for all
/// pieces that these bytes are cut into.
pub fn one_reading()
    ensures { (text : List ℕ) (one other : StreamFrames) → IsRead text one → IsRead text other → (one.frames.items ≡ other.frames.items) × (one.fault ≡ other.fault) }
{}
