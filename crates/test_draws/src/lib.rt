//! Numbers that the tests of several crates draw. Nothing but tests uses it.
#![tactic(auto)]

ghost use Rattle.std.specs.Prelude.{◌≤◌, ◌<◌};

/// One of the numbers below, drawn from `x`, which goes on to the next draw.
pub fn draw(x: &mut u32, below: u32) -> u32
    requires { 1 ≤ below }
    ensures { result < below }
{
    *x = x.wrapping_mul(1103515245).wrapping_add(12345) & 0x7fffffff;
    (*x >> 16) % below
}
