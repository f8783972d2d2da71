ghost use Rattle.std.specs.Prelude.{◌≡◌};
ghost use Rattle.tables.specs.Tables.{frames, at_index};

/// How long a frame is.
#[derive(Clone, Copy, Debug)]
pub struct FrameShape {
    /// The samples of a frame and a channel in the core.
    pub core: u32,
    /// sbrRatioIndex: 0 without SBR, 1 for 4:1, 2 for 8:3, 3 for 2:1.
    pub ratio: u8,
    /// The samples of a frame and a channel in the output.
    pub output: u32,
}

const FRAMES: [FrameShape; 5] = [
    FrameShape {
        core: 768,
        ratio: 0,
        output: 768,
    },
    FrameShape {
        core: 1024,
        ratio: 0,
        output: 1024,
    },
    FrameShape {
        core: 768,
        ratio: 2,
        output: 2048,
    },
    FrameShape {
        core: 1024,
        ratio: 3,
        output: 2048,
    },
    FrameShape {
        core: 1024,
        ratio: 1,
        output: 4096,
    },
];

/// The lengths of a frame, by coreSbrFrameLengthIndex. `None` where the index is reserved (5 to 7), or is no index of 3 bits.
pub fn frame_of(index: u8) -> Option<FrameShape>
    ensures { result ≡ at_index frames index }
{
    FRAMES.get(index as usize).copied()
}
