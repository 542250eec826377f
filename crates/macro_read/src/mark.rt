// The line `---`, which stands between the settings and what follows them.
ghost use Rattle.std.specs.Prelude.{◌≡◌, ◌≤◌, ◌+◌, ◌↔◌, IsTrue, IfSome, MatchOption, length, take};
ghost use Rattle.macro_read.specs.Lines.{Text};
ghost use Rattle.macro_read.specs.Mark.{IsDivided, IsMarkedBetween, IsMarkLine};
ghost use Rattle.macro_read.specs.FirstLine.{first_line_length};

use crate::lines::first_place;

/// What stands before and after the first line of an input that is `---`, ended by LF, by CR and LF, or by the end of
/// the input. None comes exactly where there is no such line.
pub fn divide(input: &[u8]) -> Option<(&[u8], &[u8])>
    ensures parts { MatchOption result ((before after : Text) → IsMarkedBetween input.now before after → ⊥)
        (λ parts. IsDivided input.now parts.0.now parts.1.now) }
    ensures size { IfSome result (λ parts. length parts.0.now + length parts.1.now ≤ length input.now) }
{
    let mut start = 0;
    while start < input.len() {
        let rest = &input[start..];
        let line = first_line(rest);
        let end = start + line.len();
        if is_mark(line) {
            return Some((&input[..start], &input[end..]));
        }
        start = end;
    }
    None
}

// The first line of a text, with what ends it.
fn first_line(text: &[u8]) -> &[u8]
    ensures { result.now ≡ take (first_line_length text.now) text.now }
{
    match first_place(text, b'\n') {
        Some(end) => &text[..=end],
        None => text,
    }
}

fn is_mark(line: &[u8]) -> bool
    ensures { IsTrue result ↔ IsMarkLine line.now }
{
    matches!(line, b"---" | b"---\n" | b"---\r\n")
}
