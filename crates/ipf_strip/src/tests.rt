ghost use Rattle.std.specs.Prelude.{◌≤◌, length, IfOk};
ghost use Rattle.latm.specs.Stream.{IsWellFormed};

use crate::{StripFault, Tail, immediate_frames, strip};
use latm::{MuxElements, MuxFault, Stream, read_element};
use std::alloc::Global;
use std::process::Abort;
use std::test::Fail;
use vectors::bytes_of;

// An element of two slots under a configuration that declares a preroll: the access unit A0, and B0 with a preroll that carries A0
// and asks for a fade. It ends in 7 zero bits.
const IMMEDIATE: &str = "2080F94623211CC018E400023FC01A00FC1903211CC018E40002120003418000";

// The stream of one element, which all bytes are.
fn stream_of(alloc: Global, bytes: &[u8]) -> Result<Stream, MuxFault>
    requires { length bytes.now ≤ 8191 }
    ensures { IfOk result (λ stream. IsWellFormed stream) }
{
    let element = read_element(alloc, None, bytes)?;
    let mut elements = MuxElements::new(alloc);
    elements.push(element)?;
    Ok(Stream { elements })
}

#[test]
fn an_immediate_frame_loses_its_preroll(rt: HostRuntime) -> Result<(), Fail> {
    let alloc = rt.alloc();
    let bytes = bytes_of(alloc, IMMEDIATE)?;
    assert!(rt; bytes.len() <= 64);
    let stream = stream_of(alloc, &bytes)?;
    let immediate = immediate_frames(alloc, &stream)?;
    assert!(rt; immediate.as_slice() == [1].as_slice());
    let undone = strip(alloc, &stream, Tail::Undo, &[1])?;
    match undone.au(1) {
        Some(slot) => assert_eq!(rt; slot, [0xB0].as_slice()),
        None => panic!(rt; "no frame"),
    }
    let kept = strip(alloc, &stream, Tail::Keep, &[1])?;
    match kept.au(1) {
        Some(slot) => assert_eq!(rt; slot, [0xB0, 0x00].as_slice()),
        None => panic!(rt; "no frame"),
    }
    match strip(alloc, &stream, Tail::Undo, &[0, 1]) {
        Err(StripFault::NotImmediate { frame: 0 }) => Ok(()),
        _ => panic!(rt; "another answer"),
    }
}
