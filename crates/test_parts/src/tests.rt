use crate::Meeting;
use worker_gate::each;

// Were the workers not side by side, the first would wait for the second in vain.
#[test]
fn workers_run_side_by_side(rt: HostRuntime) {
    let gate = Meeting::new();
    let mut passed = [false; 2];
    each(
        &rt,
        &mut passed,
        &gate,
        |k, passed: &mut bool| *passed = gate.has_come(k),
    );
    assert!(rt; passed == [true, true]);
    assert!(rt; gate.have_met());
}
