// Decimal numbers.
ghost use Rattle.std.specs.Prelude.{◌≡◌, false, MatchOption};
ghost use Rattle.certificate_text.specs.Text.{is_number};
ghost use Rattle.certificate_text.specs.Reading.{IsReadNumber};

/// Greater numbers are read as this one: no certificate has so many lines.
pub const MOST_NUMBER: u32 = 1_000_000_000;

/// The number that a text is: one decimal digit or more, of which the first is 0 only where it is the only one. A
/// number above [`MOST_NUMBER`] is read as that. None where the text is no number.
pub fn read_number(text: &[u8]) -> Option<u32>
    ensures { MatchOption result (is_number text.now ≡ false) (IsReadNumber text.now) }
{
    if text.is_empty() || (text.len() > 1 && text[0] == b'0') {
        return None;
    }
    let mut number: u32 = 0;
    for &digit in text {
        if !digit.is_ascii_digit() {
            return None;
        }
        let longer = u64::from(number) * 10 + u64::from(digit - b'0');
        number = u64::from(MOST_NUMBER).min(longer) as u32;
    }
    Some(number)
}
