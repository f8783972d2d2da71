ghost use Rattle.std.specs.Prelude.{◌<◌};

/// What a plan has to know of a stream.
#[derive(Clone, Copy, Debug, PartialEq, Eq)]
pub struct Shape {
    /// The sampling frequency in Hz.
    pub rate: u32,
    /// The number of output samples of a frame, of one channel. It is not 0.
    pub frame_length: u32,
    /// The number of channels.
    pub channels: u32,
    /// The number of frames.
    pub frames: u64,
    ghost some: { 0 < frame_length },
}
