ghost use Rattle.std.specs.Prelude.{◌≡◌};
ghost use Rattle.tables.specs.Tables.{rates, at_index};

const RATES: [Option<u32>; 28] = [
    Some(96000),
    Some(88200),
    Some(64000),
    Some(48000),
    Some(44100),
    Some(32000),
    Some(24000),
    Some(22050),
    Some(16000),
    Some(12000),
    Some(11025),
    Some(8000),
    Some(7350),
    None,
    None,
    Some(57600),
    Some(51200),
    Some(40000),
    Some(38400),
    Some(34150),
    Some(28800),
    Some(25600),
    Some(20000),
    Some(19200),
    Some(17075),
    Some(14400),
    Some(12800),
    Some(9600),
];

/// The sampling frequency of the decoder's output, in Hz, by usacSamplingFrequencyIndex. `None` where the index is reserved
/// (13, 14, 28 to 30), is the escape behind which a frequency follows (31), or is no index of 5 bits.
pub fn rate_of(index: u8) -> Option<u32>
    ensures { result ≡ at_index rates index }
{
    if usize::from(index) < RATES.len() {
        RATES[usize::from(index)]
    } else {
        None
    }
}
