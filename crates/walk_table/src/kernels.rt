// Kernels over columns of words, by vectors and a plain loop for the rest. In a word 0 stands for
// nothing and v + 1 for v.
ghost use Rattle.std.specs.Prelude.{◌≡◌, ℕ, ◌+◌, ◌-◌, ◌<◌, ◌≤◌, ◌==◌, if◌then◌else◌, max, min, length, slice_index};
ghost use Rattle.walk_table.specs.Words.{raised, greatest_word, lanes};

use std::simd::prelude::*;

// How many words a vector holds.
const LANES: usize = 16;

// Raises each word to the word of `src` at its place plus the gain.
fn raise_each(dst: &mut [u16], src: &[u16], gain: u16)
    requires { length src.now ≡ length dst.old }
    ensures { (k : ℕ) → k < length dst.old → slice_index dst.new k ≡ max (slice_index dst.old k) (raised gain (slice_index src.now k)) }
{
    let len = src.len();
    if len < LANES {
        raise_few(dst, src, gain);
        return;
    }
    let last = len - LANES;
    let mut i = 0;
    while i <= last {
        raise_lanes(dst, src, gain, i);
        i += LANES;
    }
    if i < len {
        raise_lanes(dst, src, gain, last);
    }
}

// The same, one by one.
fn raise_few(dst: &mut [u16], src: &[u16], gain: u16)
    requires { length src.now ≡ length dst.old }
    ensures { (k : ℕ) → k < length dst.old → slice_index dst.new k ≡ max (slice_index dst.old k) (raised gain (slice_index src.now k)) }
{
    for i in 0..src.len() {
        dst[i] = dst[i].max(after_gain(src[i], gain));
    }
}

// The sum in each lane, cut.
#[inline(always)]
fn cut_sum(a: u16x16, b: u16x16) -> u16x16
    ensures len { length result ≡ lanes }
    ensures lanes { (k : ℕ) → k < lanes → slice_index result k ≡ min greatest_word (slice_index a k + slice_index b k) }
{
    a.saturating_add(b)
}

// The larger in each lane.
#[inline(always)]
fn larger(a: u16x16, b: u16x16) -> u16x16
    ensures len { length result ≡ lanes }
    ensures lanes { (k : ℕ) → k < lanes → slice_index result k ≡ max (slice_index a k) (slice_index b k) }
{
    a.simd_max(b)
}

// The lanes of `a`, but 0 where `from` has 0.
#[inline(always)]
fn where_some(from: u16x16, a: u16x16) -> u16x16
    ensures len { length result ≡ lanes }
    ensures lanes { (k : ℕ) → k < lanes → slice_index result k ≡ (if slice_index from k == 0 then 0 else slice_index a k) }
{
    let zero = u16x16::splat(0);
    from.simd_eq(zero).select(zero, a)
}

fn raise_lanes(dst: &mut [u16], src: &[u16], gain: u16, i: usize)
    requires long { length src.now ≡ length dst.old }
    requires room { i + lanes ≤ length src.now }
    ensures at { (k : ℕ) → i ≤ k → k < i + lanes
        → slice_index dst.new k ≡ max (slice_index dst.old k) (raised gain (slice_index src.now k)) }
    ensures below { (k : ℕ) → k < i → slice_index dst.new k ≡ slice_index dst.old k }
    ensures above { (k : ℕ) → i + lanes ≤ k → slice_index dst.new k ≡ slice_index dst.old k }
{
    let from = u16x16::from_slice(&src[i..]);
    let to = u16x16::from_slice(&dst[i..]);
    let sum = cut_sum(from, u16x16::splat(gain));
    let all = larger(to, where_some(from, sum));
    all.copy_to_slice(&mut dst[i..]);
}

// Raises each word to a word.
fn raise_flat(dst: &mut [u16], word: u16)
    ensures { (k : ℕ) → k < length dst.old → slice_index dst.new k ≡ max (slice_index dst.old k) word }
{
    let len = dst.len();
    if len < LANES {
        flat_few(dst, word);
        return;
    }
    let last = len - LANES;
    let mut i = 0;
    while i <= last {
        flat_lanes(dst, word, i);
        i += LANES;
    }
    if i < len {
        flat_lanes(dst, word, last);
    }
}

// The same, one by one.
fn flat_few(dst: &mut [u16], word: u16)
    ensures { (k : ℕ) → k < length dst.old → slice_index dst.new k ≡ max (slice_index dst.old k) word }
{
    for i in 0..dst.len() {
        dst[i] = dst[i].max(word);
    }
}

fn flat_lanes(dst: &mut [u16], word: u16, i: usize)
    requires room { i + lanes ≤ length dst.old }
    ensures at { (k : ℕ) → i ≤ k → k < i + lanes → slice_index dst.new k ≡ max (slice_index dst.old k) word }
    ensures below { (k : ℕ) → k < i → slice_index dst.new k ≡ slice_index dst.old k }
    ensures above { (k : ℕ) → i + lanes ≤ k → slice_index dst.new k ≡ slice_index dst.old k }
{
    let to = u16x16::from_slice(&dst[i..]);
    let all = larger(to, u16x16::splat(word));
    all.copy_to_slice(&mut dst[i..]);
}

// The word after a gain.
#[inline(always)]
fn after_gain(word: u16, gain: u16) -> u16
    ensures { result ≡ raised gain word }
{
    if word == 0 {
        0
    } else {
        word.saturating_add(gain)
    }
}

/// Raises each word to the word of `src` that stands so many places lower, or its first where there is none, after the
/// gain.
pub fn raise(dst: &mut [u16], src: &[u16], shift: usize, gain: u16)
    requires long { length src.now ≡ length dst.old }
    requires some { 0 < length src.now }
    ensures { (k : ℕ) → k < length dst.old
        → slice_index dst.new k ≡ max (slice_index dst.old k) (raised gain (slice_index src.now (k - shift))) }
{
    let word = after_gain(src[0], gain);
    let len = dst.len();
    if shift >= len {
        raise_flat(dst, word);
        return;
    }
    let (low, high) = dst.split_at_mut(shift);
    raise_flat(low, word);
    raise_each(high, &src[..len - shift], gain);
}
