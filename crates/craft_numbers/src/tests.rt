use super::*;

#[test]
fn formulas(rt: HostRuntime) {
    assert_eq!(rt; quality_gain(101, 125, 3, true, false), 246);
    assert_eq!(rt; progress_gain(100, 180, true, true), 450);
    assert_eq!(rt; base_of(240, 50, 2, 100), 50);
    assert_eq!(rt; base_of(200, 30, 35, 100), 101);
    assert_eq!(rt; (cap_add(3, 4, 10), cap_add(3, 8, 10)), (7, 10));
}
