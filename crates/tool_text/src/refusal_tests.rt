use crate::{
    Place, Reason, Refusal, Within, carry_refusal, loas_refusal, mux_refusal, refusal_line,
};
use asc::AscFault;
use latm::{MuxFault, MuxField};
use loas::LoasFault;
use preroll::CarryFault;
use std::test::Fail;
use usac_cfg::CfgFault;

const BYTE: Place = Place::Byte(4096);

const FRAME: Place = Place::Frame(7);

const BIT: Place = Place::FrameBit {
    frame: 12,
    bit: 345,
};

/// A place, a reason, and the line of their refusal.
const REFUSALS: &[(Place, Reason, &str)] = &[
    (BYTE, Reason::SyncLost, "refused: byte 4096: sync lost\n"),
    (BYTE, Reason::Truncated, "refused: byte 4096: truncated\n"),
    (
        BIT,
        Reason::NoConfig,
        "refused: frame 12 bit 345: no configuration\n",
    ),
    (
        BIT,
        Reason::OutOfProfile(MuxField::AudioMuxVersionA),
        "refused: frame 12 bit 345: out of profile: audioMuxVersionA\n",
    ),
    (
        BIT,
        Reason::OutOfProfile(MuxField::AllStreamsSameTimeFraming),
        "refused: frame 12 bit 345: out of profile: allStreamsSameTimeFraming\n",
    ),
    (
        BIT,
        Reason::OutOfProfile(MuxField::NumProgram),
        "refused: frame 12 bit 345: out of profile: numProgram\n",
    ),
    (
        BIT,
        Reason::OutOfProfile(MuxField::NumLayer),
        "refused: frame 12 bit 345: out of profile: numLayer\n",
    ),
    (
        BIT,
        Reason::OutOfProfile(MuxField::FrameLengthType),
        "refused: frame 12 bit 345: out of profile: frameLengthType\n",
    ),
    (
        BIT,
        Reason::OutOfProfile(MuxField::OtherDataLenBits),
        "refused: frame 12 bit 345: out of profile: otherDataLenBits\n",
    ),
    (
        BIT,
        Reason::MuxTooShort,
        "refused: frame 12 bit 345: mux too short\n",
    ),
    (
        BIT,
        Reason::NotUsac { kind: 2 },
        "refused: frame 12 bit 345: not USAC: type 2\n",
    ),
    (
        BIT,
        Reason::ConfigTooShort,
        "refused: frame 12 bit 345: configuration too short\n",
    ),
    (
        BIT,
        Reason::TailTooLong,
        "refused: frame 12 bit 345: configuration tail too long\n",
    ),
    (
        BIT,
        Reason::RateReserved,
        "refused: frame 12 bit 345: reserved rate index\n",
    ),
    (
        BIT,
        Reason::RateZero,
        "refused: frame 12 bit 345: rate zero\n",
    ),
    (
        BIT,
        Reason::FrameReserved,
        "refused: frame 12 bit 345: reserved frame length index\n",
    ),
    (
        BIT,
        Reason::ChannelReserved,
        "refused: frame 12 bit 345: reserved channel index\n",
    ),
    (
        BIT,
        Reason::NoChannels,
        "refused: frame 12 bit 345: no channels\n",
    ),
    (
        BIT,
        Reason::TooManyChannels,
        "refused: frame 12 bit 345: too many channels\n",
    ),
    (
        BIT,
        Reason::TooManyElements,
        "refused: frame 12 bit 345: too many elements\n",
    ),
    (
        BIT,
        Reason::FrameTooShort,
        "refused: frame 12 bit 345: frame too short\n",
    ),
    (
        FRAME,
        Reason::NotIndependent,
        "refused: frame 7: not independent\n",
    ),
    (
        FRAME,
        Reason::RateChanged,
        "refused: frame 7: rate changed\n",
    ),
    (
        FRAME,
        Reason::ChannelsChanged,
        "refused: frame 7: channels changed\n",
    ),
    (
        FRAME,
        Reason::NotImmediate,
        "refused: frame 7: no preroll\n",
    ),
    (FRAME, Reason::Split, "refused: frame 7: preroll split\n"),
    (
        FRAME,
        Reason::BadPreroll { bit: 88 },
        "refused: frame 7: bad preroll at bit 88\n",
    ),
    (
        FRAME,
        Reason::BadConfig,
        "refused: frame 7: bad preroll configuration\n",
    ),
    (
        FRAME,
        Reason::ConfigDiffers,
        "refused: frame 7: preroll configuration differs\n",
    ),
    (
        FRAME,
        Reason::BadUnit { unit: 17, bit: 3 },
        "refused: frame 7: bad carried unit 17 at bit 3\n",
    ),
    (
        FRAME,
        Reason::Nested { unit: 17 },
        "refused: frame 7: nested preroll in unit 17\n",
    ),
    (
        FRAME,
        Reason::FirstDependent,
        "refused: frame 7: first unit not independent\n",
    ),
    (
        FRAME,
        Reason::TooFew { have: 2, need: 18 },
        "refused: frame 7: too few units: 2 of 18\n",
    ),
    (Place::Whole, Reason::PastEnd, "refused: past end\n"),
    (
        FRAME,
        Reason::SameConfig,
        "refused: frame 7: same configuration\n",
    ),
    (
        FRAME,
        Reason::PrerollForeign { unit: 17 },
        "refused: frame 7: foreign preroll unit 17\n",
    ),
    (
        FRAME,
        Reason::ConfigChanges,
        "refused: frame 7: configuration changes\n",
    ),
    (FRAME, Reason::TooLong, "refused: frame 7: too long\n"),
    (
        Place::Whole,
        Reason::PositionsFall,
        "refused: positions do not rise\n",
    ),
    (
        Place::Whole,
        Reason::NoFrameAt { position: 4000 },
        "refused: no frame at 4000\n",
    ),
    (Place::Whole, Reason::RateDiffers, "refused: rate differs\n"),
    (
        Place::Whole,
        Reason::ChannelsDiffer,
        "refused: channels differ\n",
    ),
    (
        Place::Whole,
        Reason::NotDeclared,
        "refused: preroll not declared\n",
    ),
    (
        Place::Whole,
        Reason::ConfigTooLong,
        "refused: configuration too long\n",
    ),
    (Place::Whole, Reason::BadCount, "refused: bad count\n"),
    (
        Place::Whole,
        Reason::BadTarget { place: 17 },
        "refused: bad target 17\n",
    ),
    (
        FRAME,
        Reason::AlreadyPresent,
        "refused: frame 7: already present\n",
    ),
    (FRAME, Reason::TooEarly, "refused: frame 7: too early\n"),
    (
        FRAME,
        Reason::PayloadTooLong,
        "refused: frame 7: payload too long\n",
    ),
    (
        FRAME,
        Reason::NotInserted,
        "refused: frame 7: not inserted\n",
    ),
];

const FRAME_OF_PIECE: Place = Place::Frame(4);

/// A piece, a place in its file, a reason, and the line of their refusal.
const REFUSALS_OF_PIECES: &[(u64, Place, Reason, &str)] = &[
    (
        1,
        Place::Whole,
        Reason::PositionsFall,
        "refused: piece 1: positions do not rise\n",
    ),
    (
        1,
        FRAME_OF_PIECE,
        Reason::SameConfig,
        "refused: piece 1: frame 4: same configuration\n",
    ),
    (
        0,
        Place::Whole,
        Reason::NoFrameAt { position: 4000 },
        "refused: piece 0: no frame at 4000\n",
    ),
    (
        1,
        FRAME_OF_PIECE,
        Reason::PrerollForeign { unit: 0 },
        "refused: piece 1: frame 4: foreign preroll unit 0\n",
    ),
    (
        1,
        Place::Whole,
        Reason::PastEnd,
        "refused: piece 1: past end\n",
    ),
];

#[test]
fn each_reason_has_its_line(rt: HostRuntime) -> Result<(), Fail> {
    for (place, reason, wanted) in REFUSALS {
        let refusal = Refusal {
            place: *place,
            reason: *reason,
        };
        let line = refusal_line(rt.alloc(), None, &refusal)?;
        assert_eq!(rt; line.as_slice(), wanted.as_bytes(), "{wanted}");
    }
    Ok(())
}

#[test]
fn pieces_are_refused(rt: HostRuntime) -> Result<(), Fail> {
    for (piece, place, reason, wanted) in REFUSALS_OF_PIECES {
        let refusal = Refusal {
            place: *place,
            reason: *reason,
        };
        let line = refusal_line(rt.alloc(), Some(Within::Piece(*piece)), &refusal)?;
        assert_eq!(rt; line.as_slice(), wanted.as_bytes(), "{wanted}");
    }
    Ok(())
}

#[test]
fn a_refusal_names_its_input(rt: HostRuntime) -> Result<(), Fail> {
    let alloc = rt.alloc();
    let refusal = Refusal {
        place: FRAME,
        reason: Reason::NotIndependent,
    };
    let line = refusal_line(alloc, Some(Within::Piece(63)), &refusal)?;
    assert_eq!(rt;
        line.as_slice(),
        b"refused: piece 63: frame 7: not independent\n".as_slice()
    );
    let refusal = Refusal {
        place: Place::Whole,
        reason: Reason::NotIndependent,
    };
    let line = refusal_line(alloc, Some(Within::File(1)), &refusal)?;
    assert_eq!(rt;
        line.as_slice(),
        b"refused: file 1: not independent\n".as_slice()
    );
    let line = refusal_line(alloc, None, &refusal)?;
    assert_eq!(rt; line.as_slice(), b"refused: not independent\n".as_slice());
    Ok(())
}

#[test]
fn faults_are_refusals(rt: HostRuntime) {
    let lost = LoasFault::SyncLost { byte: 4096 };
    let wanted = Refusal {
        place: BYTE,
        reason: Reason::SyncLost,
    };
    assert_eq!(rt; loas_refusal(&lost), Some(wanted));
    let reserved = CfgFault::ChannelReserved { at: 345 };
    let reserved = MuxFault::Asc(AscFault::Cfg(reserved));
    let wanted = Refusal {
        place: BIT,
        reason: Reason::ChannelReserved,
    };
    assert_eq!(rt; mux_refusal(12, &reserved), Some(wanted));
    let bad = CarryFault::BadUnit { k: 17, at: 3 };
    let wanted = Refusal {
        place: FRAME,
        reason: Reason::BadUnit { unit: 17, bit: 3 },
    };
    assert_eq!(rt; carry_refusal(7, &bad), Some(wanted));
}
