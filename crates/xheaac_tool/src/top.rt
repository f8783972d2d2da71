// The top call.
ghost use Rattle.std.specs.Prelude.{◌≡◌, ◌≤◌, ◌^◌, Some, IfOk, MatchResult};
ghost use Rattle.commands.specs.Calling.{Called};
ghost use Rattle.commands.specs.Ran.{notes};
ghost use Rattle.commands.specs.Worlds.{world};
ghost use Rattle.xheaac_tool.specs.Words.{texts, case_of, files_in};
ghost use Rattle.xheaac_tool.specs.Asked.{asked as case};
ghost use Rattle.xheaac_tool.specs.Cases.{effect_of};
ghost use Rattle.xheaac_tool.specs.Answered.{Answered, AnsweredNone};
ghost use Rattle.xheaac_tool.specs.Headline.{Promises};

use crate::check::do_check;
use crate::insert::do_insert;
use crate::plan::do_plan;
use crate::play::do_play;
use crate::show::do_show;
use crate::splice::do_splice;
use crate::start::do_start;
use crate::strip::do_strip;
use crate::switch::do_switch;
use crate::words::{Asked, WordsFault, read_words};
use commands::{OUT_OF_MEMORY, Outcome, finish, report};
use core_iface::Core;
use joining::laws::{no_event_is_a_sound_plan, spliced_files_carry_the_splice};
use outside::{Shelf, Sink};
use playing::laws::{play_takes_splices_alone, start_takes_sound_starts};
use std::alloc::Global;
use switching::laws::switch_plays_before_events;

const USAGE: &str =
    "usage: xheaac show|check|play FILE | start FILE FRAME | plan|splice|switch FILE POS [FILE POS]... | insert FILE K FADE TARGETS | strip FILE TAIL TARGETS | make START FRAMES\n";

/// Calls the command that the words ask for.
fn do_asked<H: Shelf, K: Sink, C: Core>(
    alloc: Global,
    asked: Asked,
    words: &[String],
    shelf: &mut H,
    out: &mut K,
    core: &mut C,
) -> Outcome
    requires words { case_of (texts words.now) ≡ Some (case asked) }
    requires begun { H.begun shelf.old ≤ 2 ^ 31 }
    requires fed { (C.meaning core.old).fed ≤ 2 ^ 63 }
    ensures { Called (effect_of C.does (case asked.entry)) (files_in (case asked.entry))
        (world H.Shelf K.Sink C.Core shelf.old out.old core.old) (world H.Shelf K.Sink C.Core shelf.new out.new core.new) result }
{
    match asked {
        Asked::Show { .. } => do_show(alloc, words, shelf, out, core),
        Asked::Check { .. } => do_check(alloc, words, shelf, out, core),
        Asked::Play { .. } => do_play(alloc, words, shelf, out, core),
        Asked::Start { .. } => do_start(alloc, words, shelf, out, core),
        Asked::Plan { .. } => do_plan(alloc, words, shelf, out, core),
        Asked::Splice { .. } => do_splice(alloc, words, shelf, out, core),
        Asked::Switch { .. } => do_switch(alloc, words, shelf, out, core),
        Asked::Insert { .. } => do_insert(alloc, words, shelf, out, core),
        Asked::Strip { .. } => do_strip(alloc, words, shelf, out, core),
    }
}

/// Calls the command of the words, and tells on note and by the status how it ended; or answers with the usage.
fn answer<H: Shelf, K: Sink, N: Sink, C: Core>(
    alloc: Global,
    words: &[String],
    shelf: &mut H,
    out: &mut K,
    note: &mut N,
    core: &mut C,
) -> u8
    requires begun { H.begun shelf.old ≤ 2 ^ 31 }
    requires fed { (C.meaning core.old).fed ≤ 2 ^ 63 }
    ensures { Answered C.does K.Sink (case_of (texts words.now)) (world H.Shelf K.Sink C.Core shelf.old out.old core.old)
        (λ sink. world H.Shelf K.Sink C.Core shelf.new sink core.new) out.new (notes N.Sink note.old note.new) result }
{
    let Some(asked) = read_words(words) else {
        return report(note, USAGE, 2);
    };
    let outcome = do_asked(alloc, asked, words, shelf, out, core);
    finish(out, note, outcome)
}

/// Runs the command that the words ask for, notes why it stopped, and answers the status.
///
/// | status | it means | note |
/// |---|---|---|
/// | 0 | all is done | nothing |
/// | 1 | the input is refused | `refused: `, the place and the reason |
/// | 2 | the words are no command | the usage |
/// | 3 | a read failed | `read fault` |
/// | 4 | a write on `out` failed, or its flush at the end | `write fault` |
/// | 5 | the core failed | `core fault` |
/// | 6 | memory ran out | `out of memory` |
/// | 7 | the input has more than 268,435,456 bytes, and nothing in them was refused | `too large` |
///
/// A fault of `note` changes no status: then `note` holds a front of the text.
pub fn run<H: Shelf, K: Sink, N: Sink, C: Core>(
    alloc: Global,
    words: &[String],
    shelf: &mut H,
    out: &mut K,
    note: &mut N,
    core: &mut C,
) -> u8
    requires begun { H.begun shelf.old ≤ 2 ^ 31 }
    requires fed { (C.meaning core.old).fed ≤ 2 ^ 63 }
    ensures answers { Answered C.does K.Sink (case_of (texts words.now)) (world H.Shelf K.Sink C.Core shelf.old out.old core.old)
        (λ sink. world H.Shelf K.Sink C.Core shelf.new sink core.new) out.new (notes N.Sink note.old note.new) result }

    // The headline, in the field `splices`: where FILE carries the splice of whole streams at sound joins, `play FILE` writes each
    // frame of the timeline once, in order, with the samples of its own stream decoded alone, and with the fades of fading joins;
    // any other file is refused at its first faulty frame, behind the samples of the frames before it. In `starts`: where FILE
    // carries a whole stream with a sound start at FRAME, `start FILE FRAME` plays it from there on as decoded alone. In `plans`: the
    // first event of the files decides what `plan` answers, and there is none exactly where they make a sound plan. In `joins`: so it
    // decides what `splice` answers and writes, and without one the bytes carry the splice of that plan. In `programmes`: so it decides
    // what `switch` answers and plays, and without one it plays the whole of that plan.
    ensures promises { Promises C.does (case_of (texts words.now)) (world H.Shelf K.Sink C.Core shelf.old out.old core.old)
        (world H.Shelf K.Sink C.Core shelf.new out.new core.new) (notes N.Sink note.old note.new) result }
{
    play_takes_splices_alone::<C>();
    start_takes_sound_starts::<C>();
    no_event_is_a_sound_plan();
    spliced_files_carry_the_splice();
    switch_plays_before_events::<C>();
    answer(alloc, words, shelf, out, note, core)
}

/// Runs the program on a command line: as [`run`] where its words are there. Words that are no text are no command; where memory
/// ran out before they were there, that is noted, and the status is 6.
pub fn run_line<H: Shelf, K: Sink, N: Sink, C: Core>(
    alloc: Global,
    words: Result<Vec<String>, WordsFault>,
    shelf: &mut H,
    out: &mut K,
    note: &mut N,
    core: &mut C,
) -> u8
    requires begun { H.begun shelf.old ≤ 2 ^ 31 }
    requires fed { (C.meaning core.old).fed ≤ 2 ^ 63 }
    ensures answers { MatchResult words
        (λ line. Answered C.does K.Sink (case_of (texts line.items)) (world H.Shelf K.Sink C.Core shelf.old out.old core.old)
        (λ sink. world H.Shelf K.Sink C.Core shelf.new sink core.new) out.new (notes N.Sink note.old note.new) result)
        (λ fault. AnsweredNone fault (world H.Shelf K.Sink C.Core shelf.old out.old core.old)
        (world H.Shelf K.Sink C.Core shelf.new out.new core.new) (notes N.Sink note.old note.new) result) }
    ensures promises { IfOk words (λ line. Promises C.does (case_of (texts line.items)) (world H.Shelf K.Sink C.Core shelf.old out.old core.old)
        (world H.Shelf K.Sink C.Core shelf.new out.new core.new) (notes N.Sink note.old note.new) result) }
{
    match words {
        Ok(words) => run(alloc, &words, shelf, out, note, core),
        Err(WordsFault::NotText) => report(note, USAGE, 2),
        Err(WordsFault::Memory(_)) => report(note, OUT_OF_MEMORY, 6),
    }
}
