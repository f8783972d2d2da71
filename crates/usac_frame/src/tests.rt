ghost use Rattle.std.specs.Prelude.{◌≤◌, length, IfOk};
ghost use Rattle.usac_frame.specs.Frame.{FitsConfig};

use crate::{
    ExtPart, Frame, FrameFault, LengthForm, Unit, first_payload, is_immediate, is_whole,
    payload_length, read_frame, read_head, unit_of, write_frame,
};
use bit_core::BitReader;
use std::alloc::Global;
use std::process::Abort;
use std::test::Fail;
use usac_cfg::UsacConfig;
use vectors::{
    BYTE_LENGTHS, FRAMES, FrameRow, LONG_LENGTHS, LengthRow, SHORT_FRAMES, STREAM_1, UNITS,
    UnitRow, bytes_of,
};

fn config_of(rt: &(impl Abort + AllocGlobal), text: &str) -> Result<UsacConfig, Fail> {
    let bytes = bytes_of(rt.alloc(), text)?;
    assert!(rt; bytes.len() <= 16);
    let config = UsacConfig::read(rt.alloc(), &mut BitReader::new(&bytes))?;
    Ok(config)
}

// What is read can be written.
fn read_fitting(alloc: Global, config: &UsacConfig, au: &[u8]) -> Result<Frame, FrameFault>
    requires { length au.now ≤ 16777216 }
    ensures { IfOk result (λ frame. FitsConfig config.now frame) }
{
    read_frame(alloc, config, au)
}

// The access unit is read and written back, and part 0 has this form and length.
fn check_length(
    rt: &(impl Abort + AllocGlobal),
    config: &UsacConfig,
    row: &LengthRow,
    wanted: LengthForm,
) -> Result<(), Fail> {
    let (front, zeros, size) = *row;
    let mut au = bytes_of(rt.alloc(), front)?;
    let len = au.len();
    assert!(rt; len <= 16);
    assert!(rt; zeros <= 300);
    au.resize(len + zeros, 0)?;
    assert!(rt; au.len() <= 316);
    let frame = read_fitting(rt.alloc(), config, &au)?;
    match frame.leading.get(0) {
        Some(ExtPart::Present { form, payload, .. }) => {
            assert_eq!(rt; *form, wanted, "{front}");
            assert_eq!(rt; payload.len(), size, "{front}");
        }
        _ => panic!(rt; "no part"),
    }
    let written = write_frame(rt.alloc(), config, &frame)?;
    assert_eq!(rt; written.as_slice(), au.as_slice(), "{front}");
    Ok(())
}

#[test]
fn lengths_keep_their_forms(rt: HostRuntime) -> Result<(), Fail> {
    let config = config_of(&rt, STREAM_1.1)?;
    for row in BYTE_LENGTHS {
        check_length(&rt, &config, row, LengthForm::Byte)?;
    }
    for row in LONG_LENGTHS {
        check_length(&rt, &config, row, LengthForm::Long)?;
    }
    Ok(())
}

fn check_frame(rt: &(impl Abort + AllocGlobal), row: &FrameRow) -> Result<(), Fail> {
    let (config, text, wanted_start, wanted_stop, wanted_payload, rest) = *row;
    let config = config_of(rt, config)?;
    let au = bytes_of(rt.alloc(), text)?;
    assert!(rt; au.len() <= 16);
    let frame = read_fitting(rt.alloc(), &config, &au)?;
    assert_eq!(rt; frame.independent, true, "{text}");
    assert_eq!(rt; frame.leading.len(), 1, "{text}");
    assert_eq!(rt; frame.rest.len(), rest, "{text}");
    match frame.leading.get(0) {
        Some(
            ExtPart::Present {
                start,
                stop,
                payload,
                ..
            },
        ) => {
            let bytes = bytes_of(rt.alloc(), wanted_payload)?;
            assert_eq!(rt; (*start, *stop), (wanted_start, wanted_stop), "{text}");
            assert_eq!(rt; payload.as_slice(), bytes.as_slice(), "{text}");
        }
        _ => panic!(rt; "no part"),
    }
    let payload = bytes_of(rt.alloc(), wanted_payload)?;
    let whole = wanted_start && wanted_stop;
    assert_eq!(rt; first_payload(&frame), payload.as_slice(), "{text}");
    assert_eq!(rt; is_whole(&frame), whole, "{text}");
    assert_eq!(rt;
        is_immediate(&config, &frame),
        whole && !payload.is_empty(),
        "{text}"
    );
    let head = read_head(rt.alloc(), &config, &au)?;
    assert_eq!(rt; head.independent, true, "{text}");
    assert_eq!(rt; head.leading.len(), 1, "{text}");
    assert_eq!(rt;
        head.is_immediate(&config),
        whole && !payload.is_empty(),
        "{text}"
    );
    let written = write_frame(rt.alloc(), &config, &frame)?;
    assert_eq!(rt; written.as_slice(), au.as_slice(), "{text}");
    Ok(())
}

#[test]
fn frames_are_read_and_written(rt: HostRuntime) -> Result<(), Fail> {
    for row in FRAMES {
        check_frame(&rt, row)?;
    }
    Ok(())
}

// The unit of an access unit, and the length of its preroll.
fn unit_in(
    rt: &(impl Abort + AllocGlobal),
    config: &UsacConfig,
    text: &str,
) -> Result<(Unit, u64), Fail> {
    let au = bytes_of(rt.alloc(), text)?;
    assert!(rt; au.len() <= 16);
    let frame = read_fitting(rt.alloc(), config, &au)?;
    let unit = unit_of(rt.alloc(), config, &frame)?;
    Ok((unit, payload_length(config, &frame)))
}

fn check_unit(rt: &(impl Abort + AllocGlobal), row: &UnitRow) -> Result<(), Fail> {
    let (config, text, other, length, bits) = *row;
    let config = config_of(rt, config)?;
    let (unit, found) = unit_in(rt, &config, text)?;
    assert_eq!(rt; found, length, "{text}");
    assert_eq!(rt; unit.bits.len(), bits, "{text}");
    let (same, none) = unit_in(rt, &config, other)?;
    assert_eq!(rt; none, 0, "{other}");
    assert!(rt; unit.same(&same), "{text}");
    let copy = unit.copy(rt.alloc())?;
    assert!(rt; copy.same(&unit), "{text}");
    let dependent = Unit {
        independent: false,
        bits: copy.bits,
    };
    assert!(rt; !dependent.same(&unit), "{text}");
    Ok(())
}

#[test]
fn units_stand_behind_the_preroll(rt: HostRuntime) -> Result<(), Fail> {
    for row in UNITS {
        check_unit(&rt, row)?;
    }
    Ok(())
}

#[test]
fn short_frames_are_refused(rt: HostRuntime) -> Result<(), Fail> {
    let config = config_of(&rt, STREAM_1.1)?;
    for (text, wanted) in SHORT_FRAMES {
        let au = bytes_of(rt.alloc(), text)?;
        assert!(rt; au.len() <= 16);
        let found = match read_frame(rt.alloc(), &config, &au) {
            Err(FrameFault::Short { at }) => Some(at),
            _ => None,
        };
        assert_eq!(rt; found, Some(*wanted), "{text}");
    }
    Ok(())
}
