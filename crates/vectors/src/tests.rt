use crate::{EIGHT_FRAMES, bytes_of};
use std::test::Fail;

#[test]
fn decodes_hex(rt: HostRuntime) -> Result<(), Fail> {
    let bytes = bytes_of(rt.alloc(), EIGHT_FRAMES)?;
    assert_eq!(rt; bytes.len(), 61);
    assert_eq!(rt; &bytes[55..], b"\x56\xE0\x03\x80\x8C\x00".as_slice());
    Ok(())
}
