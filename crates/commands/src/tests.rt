// Each runner once, over a command that writes a dot.
ghost use Rattle.std.specs.Prelude.{◌≡◌, IfOk};

use crate::{
    Alone, FrameEnd, Frames, Input, Inputs, Outcome, PieceFrames, Task, Whole, WholeInput,
    give_all, run_file, run_files, run_none,
};
use au_stream::EventView;
use core_iface::{Core, FoldCore};
use latm::{MuxConfig, Stream};
use outside::{DeviceFault, MemShelf, MemSink, Shelf, Sink};
use std::alloc::Global;
use std::process::Abort;
use std::test::Fail;
use tool_text::Within;
use vectors::{EIGHT_FRAMES, bytes_of};

/// Writes a dot at the end of each file, and a dot where there is none.
#[derive(Drop)]
struct Dots;

impl Task for Dots {
    ghost use Rattle.std.specs.Prelude.{◌≡◌, ◌∷◌, [], Some, false};
    ghost use Rattle.commands.specs.Commands.{opens_silently, RefusesNoEnd, feeds_none};
    ghost use Rattle.tool_text.specs.declared.refusal.Within.TheVariants as inputs;

    ghost At = { Unit {0} };

    ghost first = { λ task. tt };

    ghost command = { λ at d. record {
      within = Some (inputs.Piece 7);
      opening = opens_silently;
      Refuses = λ before f r. ⊥;
      output = λ frames. [];
      RefusesEnd = RefusesNoEnd;
      Closes = λ frames text. text ≡ 46 ∷ [];
      plays = false;
      units = feeds_none;
      Serves = λ before f. Unit {0};
    } };

    ghost then = { λ at frames. at };

    ghost plays = { false };

    ghost Stands = { λ d at frames task ready. Unit {0} };

    fn handle<K: Sink, C: Core>(
        &mut self,
        alloc: Global,
        event: &EventView,
        mux: &MuxConfig,
        out: &mut K,
        core: &mut C,
    ) -> Result<(), FrameEnd> {
        let _ = alloc;
        let _ = event;
        let _ = mux;
        let _ = core;
        give_all(out, b"")?;
        Ok(())
    }

    fn close<K: Sink, C: Core>(&self, alloc: Global, out: &mut K) -> Result<(), FrameEnd> {
        let _ = alloc;
        give_all(out, b".")?;
        Ok(())
    }

    fn turn<C: Core>(&mut self) {}

    fn within<C: Core>(&self) -> Option<Within> {
        Some(Within::Piece(7))
    }

    fn is_command<C: Core>() {}
}

impl Whole for Dots {
    ghost use Rattle.std.specs.Prelude.{◌≡◌, ◌∷◌, []};

    ghost command = { λ whole. record { Refuses = λ stream r. ⊥; Writes = λ stream text. text ≡ 46 ∷ [] } };

    fn give<K: Sink>(&self, alloc: Global, stream: &Stream, out: &mut K) -> Result<(), FrameEnd> {
        let _ = alloc;
        let _ = stream;
        give_all(out, b".")?;
        Ok(())
    }
}

impl Alone for Dots {
    ghost use Rattle.std.specs.Prelude.{false};

    ghost does = { λ alone d. record { Ends = λ t outcome. Unit {0}; Serves = Unit {0}; plays = false } };

    fn run<K: Sink, C: Core>(&mut self, alloc: Global, out: &mut K, core: &mut C) -> Outcome {
        let _ = alloc;
        let _ = core;
        match give_all(out, b".") {
            Ok(()) => Outcome::Done,
            Err(DeviceFault::Failed) => Outcome::WriteFault,
            Err(DeviceFault::Memory(error)) => Outcome::Memory(error),
        }
    }
}

/// A shelf that holds the same file twice, and one that is none.
fn shelf(alloc: Global) -> Result<MemShelf, Fail>
    ensures { IfOk result (λ shelf. ⟦<MemShelf as Shelf>⟧.begun shelf ≡ 0) }
{
    let mut shelf = MemShelf::new(alloc, 8192, &[])?;
    shelf.add("first", &bytes_of(alloc, EIGHT_FRAMES)?)?;
    shelf.add("second", &bytes_of(alloc, EIGHT_FRAMES)?)?;
    shelf.add("none", b"\x00")?;
    Ok(shelf)
}

#[test]
fn one_file(rt: HostRuntime) -> Result<(), Fail> {
    let alloc = rt.alloc();
    let mut out = MemSink::new(alloc, 1, &[])?;
    let mut core = FoldCore::new();
    let outcome = run_file(
        alloc,
        &mut Frames(Dots),
        "first",
        &mut shelf(alloc)?,
        &mut out,
        &mut core,
    );
    assert!(rt; matches!(outcome, Outcome::Done));
    assert_eq!(rt; out.bytes(), b".".as_slice());
    let outcome = run_file(
        alloc,
        &mut WholeInput(Dots),
        "second",
        &mut shelf(alloc)?,
        &mut out,
        &mut core,
    );
    assert!(rt; matches!(outcome, Outcome::Done));
    assert_eq!(rt; out.bytes(), b"..".as_slice());
    let outcome = run_none(alloc, &mut Dots, &mut shelf(alloc)?, &mut out, &mut core);
    assert!(rt; matches!(outcome, Outcome::Done));
    assert_eq!(rt; out.bytes(), b"...".as_slice());
    Ok(())
}

#[test]
fn several_files(rt: HostRuntime) -> Result<(), Fail> {
    let alloc = rt.alloc();
    let mut out = MemSink::new(alloc, 1, &[])?;
    let mut core = FoldCore::new();
    let names = ["first", "second"];
    let outcome = run_files(
        alloc,
        &mut PieceFrames(Dots),
        &names,
        &mut shelf(alloc)?,
        &mut out,
        &mut core,
    );
    assert!(rt; matches!(outcome, Outcome::Done));
    assert_eq!(rt; out.bytes(), b"..".as_slice());
    let names = ["first", "none", "second"];
    let outcome = run_files(
        alloc,
        &mut PieceFrames(Dots),
        &names,
        &mut shelf(alloc)?,
        &mut out,
        &mut core,
    );
    assert_eq!(rt; out.bytes(), b"...".as_slice());
    let Outcome::Refused(line) = outcome else {
        return Err(Fail::new("the second file is refused"));
    };
    assert_eq!(rt;
        line.as_slice(),
        b"refused: piece 7: byte 0: sync lost\n".as_slice()
    );
    Ok(())
}
