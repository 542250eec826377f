ghost use Rattle.std.specs.Prelude.{◌≡◌, ℕ, ◌<◌, ◌≤◌, length, slice_index};

use crate::{first_cover, max_plus};

// The least place that covers, one entry after the other.
fn plain_cover(cp: &[u32], dur: &[u32], quality: &[u32], c: [u32; 3]) -> Option<usize>
    requires dur_long { length dur.now ≡ length cp.now }
    requires quality_long { length quality.now ≡ length cp.now }
{
    for i in 0..cp.len() {
        if cp[i] >= c[0] && dur[i] >= c[1] && quality[i] >= c[2] {
            return Some(i);
        }
    }
    None
}

// `max_plus`, one entry after the other.
fn plain_max_plus(dst: &mut [u32], src: &[u32], add: u32)
    requires { length src.now ≡ length dst.old }
{
    for i in 0..src.len() {
        let sum = src[i].saturating_add(add);
        if src[i] > 0 && sum > dst[i] {
            dst[i] = sum;
        }
    }
}

#[test]
fn finds_the_last(rt: HostRuntime) {
    let ones = [1u32; 9];
    for (length, found) in [(0usize, None), (7, Some(6)), (8, Some(7)), (9, Some(8))] {
        let mut cp = [0u32; 9];
        if length > 0 {
            cp[length - 1] = 1;
        }
        let last = first_cover(&cp[..length], &ones[..length], &ones[..length], [1, 1, 1]);
        assert_eq!(rt; last, found);
    }
    assert_eq!(rt; first_cover(&ones, &ones, &ones, [1, 1, 1]), Some(0));
}

#[test]
fn covers_as_the_plain_loop(rt: HostRuntime) {
    let cp = [
        3u32, 9, 1, 7, 7, 2, 8, 0, 5, 9, 4, 6, 1, 8, 8, 3, 7, 2, 9, 9, 0, 6, 5, 8, 7, 1, 9, 3, 8,
        4, 2, 9, 6, 8, 0, 9, 7, 5, 8, 9,
    ];
    let dur = [
        9u32, 1, 8, 6, 2, 9, 3, 9, 7, 0, 9, 5, 8, 4, 6, 9, 1, 8, 5, 2, 9, 7, 9, 3, 6, 9, 0, 9, 5,
        8, 9, 7, 9, 4, 9, 6, 8, 9, 9, 9,
    ];
    let quality = [
        1u32, 9, 9, 2, 8, 5, 9, 9, 0, 9, 3, 9, 9, 7, 1, 9, 9, 6, 4, 9, 9, 2, 8, 9, 5, 9, 9, 9, 3,
        9, 7, 1, 9, 9, 9, 8, 9, 9, 9, 9,
    ];
    for length in 0..=40usize {
        for least in 0..=10u32 {
            let c = [least, 9 - least.min(9), least];
            assert_eq!(rt;
                first_cover(&cp[..length], &dur[..length], &quality[..length], c),
                plain_cover(&cp[..length], &dur[..length], &quality[..length], c)
            );
        }
    }
}

#[test]
fn adds_in_place(rt: HostRuntime) {
    let mut dst = [5, 0, 3];
    max_plus(&mut dst, &[0, 4, 2], 3);
    assert!(rt; dst == [5, 7, 5]);
}

// A column with entries that stand for nothing.
fn source() -> [u32; 40]
    ensures { (place : ℕ) → place < 40 → slice_index result place ≤ 9 }
{
    let mut column = [0; 40];
    for k in 0..40u32 {
        column[k as usize] = k * 7 % 5 + k / 10;
    }
    column
}

#[test]
fn adds_as_the_plain_loop(rt: HostRuntime) {
    for length in 0..=40usize {
        let src = source();
        let mut dst = [4u32; 40];
        let mut plain = [4u32; 40];
        max_plus(&mut dst[..length], &src[..length], 2);
        plain_max_plus(&mut plain[..length], &src[..length], 2);
        assert!(rt; dst == plain);
    }
}
