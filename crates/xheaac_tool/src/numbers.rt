// Numbers of the command line.
ghost use Rattle.std.specs.Prelude.{◌≡◌, ◌<◌, ◌^◌, length};
ghost use Rattle.std.specs.Option.{option_map};
ghost use Rattle.xheaac_tool.specs.Numbers.{number_of};

/// Reads a NUMBER: 1 to 18 decimal digits, with leading zeros if there are any. `None` where the word is another one.
pub fn read_number(word: &str) -> Option<u64>
    ensures { result ≡ number_of word.now }
{
    let digits = word.as_bytes();
    if digits.is_empty() || digits.len() > 18 {
        return None;
    }
    let mut value: u64 = 0;
    for digit in digits {
        if !digit.is_ascii_digit() {
            return None;
        }
        value = 10 * value + u64::from(*digit - b'0');
    }
    Some(value)
}
