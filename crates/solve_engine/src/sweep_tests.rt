// Sweeps over base qualities, through the whole of a run.
use crate::Status;
use crate::tests::{ONE_TOUCH, craft, prints};
use std::test::Fail;

const AT_500: &str = "least base quality 500 for quality 500
at 500
steps 2 seconds 6 progress 100/100 quality 500/500
macro 1
/ac \"Basic Touch\" <wait.3>
/ac \"Basic Synthesis\" <wait.3>
at 499
steps 2 seconds 6 progress 100/100 quality 499/500
macro 1
/ac \"Basic Touch\" <wait.3>
/ac \"Basic Synthesis\" <wait.3>
";

const NEVER: &str = "no base quality to 5000 reaches 5001
at 5000
steps 2 seconds 6 progress 100/100 quality 5000/5001
macro 1
/ac \"Basic Touch\" <wait.3>
/ac \"Basic Synthesis\" <wait.3>
";

const AT_ONE: &str = "least base quality 1 for quality 0
at 1
steps 1 seconds 3 progress 100/100 quality 0/0
macro 1
/ac \"Basic Synthesis\" <wait.3>
";

// The quality that counts is the target's.
const TO_TARGET: &str = "least base quality 150 for quality 150
at 150
steps 2 seconds 6 progress 100/100 quality 150/500
macro 1
/ac \"Basic Touch\" <wait.3>
/ac \"Basic Synthesis\" <wait.3>
at 149
steps 2 seconds 6 progress 100/100 quality 149/500
macro 1
/ac \"Basic Touch\" <wait.3>
/ac \"Basic Synthesis\" <wait.3>
";

#[test]
fn sweeps(rt: HostRuntime) -> Result<(), Fail> {
    for (numbers, want) in [
        (ONE_TOUCH, (Status::Solved, AT_500, "")),
        ([5, 18, 20, 100, 5001], (Status::NotReached, NEVER, "")),
        ([1, 0, 10, 100, 0], (Status::Solved, AT_ONE, "")),
        ([1, 0, 10, 101, 100], (Status::NoMacro, "none\n", "")),
    ] {
        let file = craft(rt.alloc(), numbers)?;
        prints(&rt, &["sweep"], file.as_bytes(), want)?;
    }
    let file = craft(rt.alloc(), ONE_TOUCH)?;
    let file = file.replace(rt.alloc(), "= 500", "= 500\ntarget = 150")?;
    let want = (Status::Solved, TO_TARGET, "");
    prints(&rt, &["sweep", "--workers=2"], file.as_bytes(), want)
}

// The mark of macro text is none of the settings.
#[test]
fn refused_sweeps(rt: HostRuntime) -> Result<(), Fail> {
    let mut file = craft(rt.alloc(), ONE_TOUCH)?;
    file.push_str("---\n")?;
    let want = (Status::BadSettings, "", "settings: not a TOML document\n");
    prints(&rt, &["sweep"], file.as_bytes(), want)
}
