use latm::MuxField;

/// What a command refuses: the first place that it cannot take, and why. [`refusal_line`](crate::refusal_line) is its text.
#[derive(Clone, Copy, Debug, PartialEq, Eq)]
pub struct Refusal {
    pub place: Place,
    pub reason: Reason,
}

/// Which of several inputs a refusal is about, counted from 0. Its line names that before the place.
#[derive(Clone, Copy, Debug, PartialEq, Eq)]
pub enum Within {
    /// A piece of a plan: a file and where it is entered.
    Piece(u64),
    /// A file among others.
    File(u64),
}

/// A place in a stream. Bytes, frames and bits are counted from 0.
#[derive(Clone, Copy, Debug, PartialEq, Eq)]
pub enum Place {
    /// The whole of it: the line names no place.
    Whole,
    /// A byte of the stream.
    Byte(u64),
    /// A frame of the stream.
    Frame(u64),
    /// A bit at a frame: of the AudioMuxElement (ISO/IEC 14496-3) whose first access unit the frame is, or, where the frame
    /// itself is too short, of its access unit.
    FrameBit { frame: u64, bit: u64 },
}

/// Why it is refused.
#[derive(Clone, Copy, Debug, PartialEq, Eq)]
pub enum Reason {
    /// A frame of the stream is due, and the syncword is not there.
    SyncLost,
    /// The stream ends within a frame.
    Truncated,
    /// `useSameStreamMux` is 1, and no configuration is in force.
    NoConfig,
    /// The field of StreamMuxConfig has a value that is not taken.
    OutOfProfile(MuxField),
    /// An element ends within a field of the mux.
    MuxTooShort,
    /// The audio object type is `kind`, and not 42.
    NotUsac { kind: u32 },
    /// An AudioSpecificConfig ends within a field.
    ConfigTooShort,
    /// More than 7 bits stand behind UsacConfig in an AudioSpecificConfig that is counted.
    TailTooLong,
    /// `usacSamplingFrequencyIndex` is 13, 14 or from 28 to 30.
    RateReserved,
    /// `usacSamplingFrequency` is 0.
    RateZero,
    /// `coreSbrFrameLengthIndex` is above 4.
    FrameReserved,
    /// `channelConfigurationIndex` is above 13.
    ChannelReserved,
    /// `numOutChannels` is 0.
    NoChannels,
    /// `numOutChannels` is above 64.
    TooManyChannels,
    /// `numElements` is above 64.
    TooManyElements,
    /// An access unit ends within its leading part.
    FrameTooShort,
    /// `usacIndependencyFlag` is 0 where it has to be 1.
    NotIndependent,
    /// The UsacConfig changes, and has another rate.
    RateChanged,
    /// The UsacConfig changes, with the same rate, and has another number of output channels.
    ChannelsChanged,
    /// No preroll is declared, or it has no bytes.
    NotImmediate,
    /// The preroll does not begin or does not end in the frame.
    Split,
    /// The payload is no AudioPreRoll: bits are missing at this bit of it.
    BadPreroll { bit: u64 },
    /// The configuration in the preroll is none.
    BadConfig,
    /// The configuration in the preroll is another one than the frame's.
    ConfigDiffers,
    /// The access unit of that number in the preroll is no frame: bits are missing at this bit of it.
    BadUnit { unit: u32, bit: u64 },
    /// The access unit of that number in the preroll has a preroll itself.
    Nested { unit: u32 },
    /// The first access unit of the preroll is not independent, or there is none and the frame is not independent.
    FirstDependent,
    /// The UsacConfig changes, or decoding starts within the stream, and the preroll has `have` access units, which are fewer than
    /// the core's warm-up, `need`.
    TooFew { have: u32, need: u32 },
    /// The stream ends before the frame, or the position, that is asked for.
    PastEnd,
    /// A piece would be joined to one of the same UsacConfig.
    SameConfig,
    /// The access unit of that number in the preroll is not the one that the stream has in its place before the frame.
    PrerollForeign { unit: u32 },
    /// The frame has another UsacConfig than frame 0.
    ConfigChanges,
    /// The element that is to carry the frame would have more than 8191 bytes, the most that the header of its LOAS frame counts.
    TooLong,
    /// The position of the piece is not larger than that of the piece before.
    PositionsFall,
    /// No frame of the stream begins at the position: it is no multiple of the frame length.
    NoFrameAt { position: u64 },
    /// The stream has another rate than that of the piece before.
    RateDiffers,
    /// The stream has another number of output channels than that of the piece before.
    ChannelsDiffer,
    /// The configuration of the stream declares no preroll, or there is no frame that has one.
    NotDeclared,
    /// The bytes of the configuration are more than 285, the most that a preroll holds.
    ConfigTooLong,
    /// A preroll cannot carry so many access units: none, or more than 18.
    BadCount,
    /// The target in that place of the list is not above the one before it, or no frame of the stream.
    BadTarget { place: u64 },
    /// The frame has a part for a preroll already, of any length.
    AlreadyPresent,
    /// There are fewer frames before it than its preroll is to carry.
    TooEarly,
    /// Its preroll would have more than 65788 bytes, the most that the length of an extension element counts.
    PayloadTooLong,
    /// No insertion made the frame immediate: without its preroll the last bits of it, which fill no byte, are not all 0.
    NotInserted,
}
