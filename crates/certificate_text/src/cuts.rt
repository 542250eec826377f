// Lines and words.
ghost use Rattle.std.specs.Prelude.{◌≡◌, ◌==◌, position};

/// The first place of a byte, counted from 0. What stands before it is the first of the parts that the byte cuts.
/// None where the byte doesn't occur.
pub fn end_of(bytes: &[u8], mark: u8) -> Option<usize>
    ensures { result ≡ position (λ byte. byte == mark) bytes.now }
{
    bytes.iter().position(|byte| *byte == mark)
}
