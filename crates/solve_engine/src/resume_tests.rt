// Crafts that are resumed, through the whole of a run.
use crate::Status;
use crate::tests::{ONE_TOUCH, craft, prints};
use std::test::Fail;

const AFTER_VENERATION: &str = "steps 3 seconds 8 progress 150/150 quality 150/500
macro 1
/ac \"Innovation\" <wait.2>
/ac \"Basic Touch\" <wait.3>
/ac \"Basic Synthesis\" <wait.3>
replay
  1 Innovation                0      0  20   18
  2 Basic Touch               0    150  10    0
  3 Basic Synthesis         150    150   0    0
";

const AFTER_TOUCH: &str = "steps 1 seconds 3 progress 100/100 quality 100/500
macro 1
/ac \"Basic Synthesis\" <wait.3>
replay
  1 Basic Synthesis         100    100   0    0
";

const FOUR_STEPS: [u32; 5] = [26, 54, 20, 150, 500];

const HIGHEST: [u32; 5] = [100, 300, 70, 1000, 500];

#[test]
fn resumes(rt: HostRuntime) -> Result<(), Fail> {
    for (numbers, done, want) in [
        (
            FOUR_STEPS,
            "--done=veneration",
            (Status::Solved, AFTER_VENERATION, ""),
        ),
        (
            ONE_TOUCH,
            "--done=basic_touch",
            (Status::Solved, AFTER_TOUCH, ""),
        ),
        (
            [26, 54, 20, 250, 500],
            "--done=basic_touch",
            (Status::NoMacro, "none\n", ""),
        ),
    ] {
        let file = craft(rt.alloc(), numbers)?;
        prints(&rt, &["resume", done], file.as_bytes(), want)?;
    }
    let file = craft(rt.alloc(), FOUR_STEPS)?;
    let words = [
        "resume",
        "--workers",
        "1",
        "--done",
        "veneration",
        "--grain=1",
    ];
    let want = (Status::Solved, AFTER_VENERATION, "");
    prints(&rt, &words, file.as_bytes(), want)
}

// Every reason why an action isn't legal, and the end of the craft.
#[test]
fn unfit(rt: HostRuntime) -> Result<(), Fail> {
    for (numbers, done, line) in [
        ([1, 0, 10, 101, 100], "basic_touch", "step 1: not_learned"),
        (ONE_TOUCH, "observe", "step 1: not_learned"),
        (HIGHEST, "trained_eye", "step 1: forbidden"),
        (HIGHEST, "observe,reflect", "step 2: not_first"),
        (HIGHEST, "byregots_blessing", "step 1: no_stacks"),
        (HIGHEST, "reflect,trained_finesse", "step 2: not_ten"),
        (
            HIGHEST,
            "waste_not,observe,prudent_touch",
            "step 3: under_waste",
        ),
        (
            HIGHEST,
            "trained_perfection,trained_perfection",
            "step 2: perfection_spent",
        ),
        (
            ONE_TOUCH,
            "basic_touch,basic_touch",
            "step 2: not_enough_cp",
        ),
        (
            ONE_TOUCH,
            "basic_synthesis,basic_synthesis,observe",
            "step 2: finished",
        ),
        (ONE_TOUCH, "basic_synthesis", "the craft is over"),
        (
            [5, 18, 10, 101, 500],
            "basic_synthesis",
            "the craft is over",
        ),
    ] {
        let file = craft(rt.alloc(), numbers)?;
        let line = format!(in rt.alloc(); "done: {line}\n")?;
        let want = (Status::BadPrefix, "", line.as_str());
        prints(&rt, &["resume", "--done", done], file.as_bytes(), want)?;
    }
    Ok(())
}

#[test]
fn backloaded(rt: HostRuntime) -> Result<(), Fail> {
    let mut file = craft(rt.alloc(), [5, 18, 30, 200, 500])?;
    file.push_str("[actions]\nbackload = true\n")?;
    let words = ["resume", "--done", "basic_synthesis,basic_touch"];
    let want = (Status::BadPrefix, "", "done: step 2: backloaded\n");
    prints(&rt, &words, file.as_bytes(), want)
}

// Settings are refused before actions that are done.
#[test]
fn refused_settings(rt: HostRuntime) -> Result<(), Fail> {
    let words = ["resume", "--done", "observe"];
    let line = "settings: missing key crafter.level\n";
    prints(&rt, &words, b"", (Status::BadSettings, "", line))
}
