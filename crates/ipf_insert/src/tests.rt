ghost use Rattle.std.specs.Prelude.{◌≤◌, length, IfOk};
ghost use Rattle.latm.specs.Stream.{IsWellFormed};

use crate::{InsertFault, insert};
use latm::{MuxElements, MuxFault, Stream, read_element};
use std::alloc::Global;
use std::process::Abort;
use std::test::Fail;
use vectors::bytes_of;

// An element with the access units A0 and B0 under a configuration that declares a preroll, and what B0 becomes where it
// carries A0 and asks for a fade.
const TWO_SLOTS: &str = "2080F94623211CC018E400023FC01A001B00";

const TARGET: &str = "C1903211CC018E4000212000341800";

// The stream of one element, which all bytes are.
fn stream_of(alloc: Global, bytes: &[u8]) -> Result<Stream, MuxFault>
    requires { length bytes.now ≤ 8191 }
    ensures { IfOk result (λ stream. IsWellFormed stream) }
{
    let element = read_element(alloc, None, bytes)?;
    let mut elements = MuxElements::new(alloc);
    elements.push(element)?;
    Ok(Stream { elements })
}

#[test]
fn a_slot_becomes_an_immediate_frame(rt: HostRuntime) -> Result<(), Fail> {
    let alloc = rt.alloc();
    let bytes = bytes_of(alloc, TWO_SLOTS)?;
    assert!(rt; bytes.len() <= 64);
    let stream = stream_of(alloc, &bytes)?;
    let new = insert(alloc, &stream, 1, true, &[1])?;
    assert_eq!(rt; new.au(0), Some([0xA0].as_slice()));
    match new.au(1) {
        Some(target) => assert_eq!(rt; target, bytes_of(alloc, TARGET)?.as_slice()),
        None => panic!(rt; "no frame"),
    }
    match insert(alloc, &stream, 1, true, &[0]) {
        Err(InsertFault::TooEarly { frame: 0 }) => Ok(()),
        _ => panic!(rt; "another answer"),
    }
}
