//! Kernels over columns of numbers, by vectors of eight lanes and a plain loop for the rest.
#![tactic(auto)]

ghost use Rattle.std.specs.Prelude.{◌≡◌, ℕ, ◌+◌, ◌^◌, ◌<◌, ◌≤◌, length, slice_index, MatchOption, map};
ghost use Rattle.std.specs.List.{range_with_len};
ghost use Rattle.std.specs.Simd.Lanes.{mask_l};
ghost use Rattle.lane_front.specs.Cover.{Covers, NoneCovers, IsFirstCover, is_covering};
ghost use Rattle.lane_front.specs.Lanes.{lanes};
ghost use Rattle.lane_front.specs.MaxPlus.{max_plus_of};

use std::simd::prelude::*;

#[cfg(test)]
mod tests;

// How many entries a vector holds.
const LANES: usize = 8;

/// The least place whose CP, durability and quality are at least the three numbers of `c`, in this
/// order; None where no place has them. The three columns have one length.
pub fn first_cover(cp: &[u32], dur: &[u32], quality: &[u32], c: [u32; 3]) -> Option<usize>
    requires dur_long { length dur.now ≡ length cp.now }
    requires quality_long { length quality.now ≡ length cp.now }
    ensures { MatchOption result (NoneCovers cp.now dur.now quality.now c 0 (length cp.now)) (IsFirstCover cp.now dur.now quality.now c) }
{
    let mut i = 0;
    while cp.len() - i >= LANES {
        let passed = passed_over(cp, dur, quality, c, i);
        if passed < LANES {
            return Some(i + passed);
        }
        i += LANES;
    }
    while i < cp.len() {
        if cp[i] >= c[0] && dur[i] >= c[1] && quality[i] >= c[2] {
            return Some(i);
        }
        i += 1;
    }
    None
}

// How many of the entries of one vector, from place `i` on, come before the first that covers.
fn passed_over(cp: &[u32], dur: &[u32], quality: &[u32], c: [u32; 3], i: usize) -> usize
    requires cp_room { i + lanes ≤ length cp.now }
    requires dur_room { i + lanes ≤ length dur.now }
    requires quality_room { i + lanes ≤ length quality.now }
    ensures most { result ≤ lanes }
    ensures before { NoneCovers cp.now dur.now quality.now c i (i + result) }
    ensures found { result < lanes → Covers cp.now dur.now quality.now c (i + result) }
{
    let hits = hits_at(cp, dur, quality, c, i);
    if hits == 0 {
        LANES
    } else {
        hits.trailing_zeros() as usize
    }
}

// A bit for each entry of one vector, from place `i` on, set where the entry covers.
fn hits_at(cp: &[u32], dur: &[u32], quality: &[u32], c: [u32; 3], i: usize) -> u64
    requires cp_room { i + lanes ≤ length cp.now }
    requires dur_room { i + lanes ≤ length dur.now }
    requires quality_room { i + lanes ≤ length quality.now }
    ensures { result ≡ mask_l (map (is_covering cp.now dur.now quality.now c) (range_with_len i lanes)) }
{
    let enough_cp = u32x8::from_slice(&cp[i..]).simd_ge(u32x8::splat(c[0]));
    let enough_dur = u32x8::from_slice(&dur[i..]).simd_ge(u32x8::splat(c[1]));
    let enough_quality = u32x8::from_slice(&quality[i..]).simd_ge(u32x8::splat(c[2]));
    (enough_cp & enough_dur & enough_quality).to_bitmask()
}

/// Makes each entry of `dst` the larger of itself and the entry of `src` at its place plus `add`.
/// In both columns 0 stands for nothing and v + 1 for v: where `src` has 0 the entry stays.
/// The columns have one length, and no sum reaches 2^32.
pub fn max_plus(dst: &mut [u32], src: &[u32], add: u32)
    requires long { length src.now ≡ length dst.old }
    requires fits { (k : ℕ) → k < length src.now → slice_index src.now k + add < 2 ^ 32 }
    ensures { (k : ℕ) → k < length dst.old → slice_index dst.new k ≡ max_plus_of (slice_index dst.old k) (slice_index src.now k) add }
{
    let mut i = 0;
    while src.len() - i >= LANES {
        max_plus_lanes(dst, src, add, i);
        i += LANES;
    }
    while i < src.len() {
        if src[i] != 0 {
            dst[i] = dst[i].max(src[i] + add);
        }
        i += 1;
    }
}

// `max_plus` on the entries of one vector, from place `i` on.
fn max_plus_lanes(dst: &mut [u32], src: &[u32], add: u32, i: usize)
    requires long { length src.now ≡ length dst.old }
    requires room { i + lanes ≤ length src.now }
    requires fits { (k : ℕ) → k < length src.now → slice_index src.now k + add < 2 ^ 32 }
    ensures at { (k : ℕ) → i ≤ k → k < i + lanes → slice_index dst.new k ≡ max_plus_of (slice_index dst.old k) (slice_index src.now k) add }
    ensures below { (k : ℕ) → k < i → slice_index dst.new k ≡ slice_index dst.old k }
    ensures above { (k : ℕ) → i + lanes ≤ k → slice_index dst.new k ≡ slice_index dst.old k }
{
    let from = u32x8::from_slice(&src[i..]);
    let to = u32x8::from_slice(&dst[i..]);
    let zero = u32x8::splat(0);
    let sum = from.strict_add(u32x8::splat(add));
    let larger = to.simd_lt(sum).select(sum, to);
    let next = from.simd_eq(zero).select(to, larger);
    next.copy_to_slice(&mut dst[i..]);
}
