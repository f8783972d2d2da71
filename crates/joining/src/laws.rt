//! What holds of renditions and their first event.
//!
//! The functions run no code; their contracts are the theorems.
ghost use Rattle.joining.specs.Answers.{NoEventIsAPlan};
ghost use Rattle.joining.specs.SpliceAnswers.{NoStopIsAPlan, NoStopIsASplice};

/// The files of pieces have no event exactly where each ends behind its last frame, and the renditions are the streams of a sound plan
/// that is timed by the positions.
pub fn no_event_is_a_sound_plan()
    ensures { NoEventIsAPlan }
{
    timeline::laws::orders_are_judged();
    splicer::laws::sound_plans_are_given();
}

/// `splice` stops at no frame and no file of the pieces exactly where each file ends behind its last frame, the renditions are the
/// streams of a sound plan that is timed by the positions, and each frame of the pieces has an element of at most 8191 bytes in the
/// canonical mux.
pub fn no_stop_is_a_sound_plan()
    ensures { NoStopIsAPlan }
{
    no_event_is_a_sound_plan();
    splicer::laws::sound_plans_are_given();
    splicer::laws::sound_pieces_are_given();
}

/// Where `splice` refuses no frame and no file of the pieces, the renditions are the streams of a sound plan, and the bytes that it
/// writes are a file that carries the splice of this plan, if a file may have so many: its frames are those of the pieces, in order,
/// and it ends behind them. So what is said of `play` of a file that carries the splice of a sound plan is said of it.
pub fn spliced_files_carry_the_splice()
    ensures { NoStopIsASplice }
{
    timeline::laws::orders_are_judged();
    splicer::laws::sound_plans_are_given();
    splicer::laws::sound_pieces_are_given();
    splicer::laws::given_frames_are_the_piece();
    au_stream::laws::canonical_frames_are_read_back();
}
