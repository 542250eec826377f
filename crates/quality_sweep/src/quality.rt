// Qualities, and the best of them so far.
ghost use Rattle.std.specs.Prelude.{◌≡◌};
ghost use Rattle.quality_sweep.specs.Ahead.{is_above};

/// Whether a number is more than the best quality.
pub(crate) fn is_above(n: u32, best: Option<u32>) -> bool
    ensures { result ≡ is_above n best }
{
    match best {
        None => true,
        Some(best) => best < n,
    }
}
