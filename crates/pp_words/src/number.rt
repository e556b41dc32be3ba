//! The numbers of the command line.

ghost use Rattle.std.specs.Prelude.{◌≡◌, ◌^◌, ◌<◌};
ghost use Rattle.std.specs.Option.{option_map};
ghost use Rattle.pp_words.specs.Number as spec;
ghost use Rattle.pp_words.specs.Number.{number_in};

use pp_limits::Range;

/// The number of one to seven digits, where it is in the range.
pub(crate) fn number(text: &str, low: u32, high: u32) -> Option<u32>
    ensures { result ≡ number_in low high text.now }
{
    let bytes = text.as_bytes();
    if bytes.is_empty() || bytes.len() > 7 || (bytes.len() > 1 && bytes[0] == b'0') {
        return None;
    }
    let mut value = 0u32;
    for byte in bytes {
        if !byte.is_ascii_digit() {
            return None;
        }
        value = 10 * value + u32::from(*byte - b'0');
    }
    (low <= value && value <= high).then_some(value)
}

/// The number that an option has, or its default; None where what is written is no number of the range.
pub(crate) fn number_of(range: Range, text: Option<&str>) -> Option<u32>
    ensures { result ≡ spec.number_of range (option_map (λ text. text.now) text.entry) }
{
    match text {
        Some(text) => number(text, range.least, range.most),
        None => Some(range.default),
    }
}
