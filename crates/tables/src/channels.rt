ghost use Rattle.std.specs.Prelude.{◌≡◌};
ghost use Rattle.tables.specs.Tables.{channels, at_index};

const CHANNELS: [Option<u32>; 14] = [
    None,
    Some(1),
    Some(2),
    Some(3),
    Some(4),
    Some(5),
    Some(6),
    Some(8),
    Some(2),
    Some(3),
    Some(4),
    Some(7),
    Some(8),
    Some(24),
];

/// The number of output channels, by channelConfigurationIndex. `None` where UsacChannelConfig follows (0), where the index is
/// refused (14 to 31), or is no index of 5 bits.
///
/// The counts of 8 to 13 are those of this project's profile, for streams of every edition.
pub fn channels_of(index: u8) -> Option<u32>
    ensures { result ≡ at_index channels index }
{
    if usize::from(index) < CHANNELS.len() {
        CHANNELS[usize::from(index)]
    } else {
        None
    }
}
