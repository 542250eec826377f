// The values of options, and the number of a sample.
ghost use Rattle.std.specs.Prelude.{◌≡◌, ◌≤◌, IfSome, option_map};
ghost use Rattle.std.specs.Char.{is_ascii_digit};
ghost use Rattle.std.specs.List.{list_all};
ghost use Rattle.craft_settings.specs.Ranges.{IsFromTo};
ghost use Rattle.sample_craft.specs.Sample.{most_number};
ghost use Rattle.solve_words.specs.Form.{is_stray as stray};
ghost use Rattle.solve_words.specs.Values.{small_number_of, number_or as number_from, report_or as report_from, report_named as named_report, is_sample_number as has_sample_form, sample_number_of};

use replay_report::Report;

// The most workers, and the greatest grain.
const MOST: u32 = 64;

// The most digits of a sample's number.
const MOST_DIGITS: usize = 6;

// The word begins with a hyphen, and is neither `--name` nor `--name=value`.
pub fn is_stray(word: &str) -> bool
    ensures { result ≡ stray word.now }
{
    match word.as_bytes() {
        [b'-', b'-', _, ..] => false,
        [b'-', ..] => true,
        _ => false,
    }
}

// The number from 1 to 64 that a text of one or two digits gives, with no leading 0.
fn small_number(text: &str) -> Option<u32>
    ensures value { result ≡ small_number_of text.now }
    ensures range { IfSome result (IsFromTo 1 64) }
{
    match text.as_bytes() {
        [a @ b'1'..=b'9'] => Some(u32::from(*a - b'0')),
        [a @ b'1'..=b'9', b @ b'0'..=b'9'] => {
            let number = 10 * u32::from(*a - b'0') + u32::from(*b - b'0');
            if number <= MOST { Some(number) } else { None }
        }
        _ => None,
    }
}

// The number that the text gives, or the default where there is no text.
pub fn number_or(text: Option<&str>, default: u32) -> Option<u32>
    requires { IsFromTo 1 64 default }
    ensures value { result ≡ number_from (option_map (λ s. s.now) text.entry) default }
    ensures range { IfSome result (IsFromTo 1 64) }
{
    match text {
        None => Some(default),
        Some(text) => small_number(text),
    }
}

// The style that the text names, or the plain one where there is no text.
pub fn report_or(text: Option<&str>) -> Option<Report>
    ensures { result ≡ report_from (option_map (λ s. s.now) text.entry) }
{
    match text {
        None => Some(Report::Plain),
        Some(text) => report_named(text),
    }
}

fn report_named(text: &str) -> Option<Report>
    ensures { result ≡ named_report text.now }
{
    if text == "plain" {
        Some(Report::Plain)
    } else if text == "limits" {
        Some(Report::Limits)
    } else if text == "levels" {
        Some(Report::Levels)
    } else {
        None
    }
}

// The number of a sample, of one to six digits with no leading 0 unless it is `0`.
pub fn sample_number(text: &str) -> Option<u32>
    ensures value { result ≡ sample_number_of text.now }
    ensures range { IfSome result (λ number. number ≤ most_number) }
{
    if is_sample_number(text.as_bytes()) {
        text.parse::<u32>().ok()
    } else {
        None
    }
}

fn is_sample_number(text: &[u8]) -> bool
    ensures { result ≡ has_sample_form text.now }
{
    !text.is_empty()
        && text.len() <= MOST_DIGITS
        && are_digits(text)
        && (text.len() == 1 || text[0] != b'0')
}

fn are_digits(text: &[u8]) -> bool
    ensures { result ≡ list_all is_ascii_digit text.now }
{
    text.iter().all(|byte| byte.is_ascii_digit())
}
