// Macros after settings, through the whole of a run.
use crate::Status;
use crate::file_tests::TOUCH_BETWEEN;
use crate::tests::{ONE_TOUCH, TOUCH, craft, prints};
use std::process::Abort;
use std::test::Fail;
use std::thread::Threads;

pub(crate) const TOUCH_LINE: &str = "/ac \"Basic Touch\" <wait.3>\n";

pub(crate) const SYNTHESIS_LINE: &str = "/action \"Basic Synthesis\"\n";

pub(crate) const PLAYED: &str = "replay
  1 Basic Touch               0    100  10    0
  2 Basic Synthesis         100    100   0    0
complete
";

const PLAYED_IN_PART: &str = "replay
  1 Basic Touch               0    100  10    0
live
";

const STOPPED: &str = "replay
  1 Basic Synthesis         100      0  10   18
step 2: finished
";

const USED_UP: &str = "replay
  1 Basic Touch               0    100   0    0
failed
";

const NO_MARK: &str = "macro: no --- line\n";

const FIRST_LINE: &str = "macro: line 1 not understood\n";

// A craft, the line `---`, and what follows it.
fn answers<R: AllocGlobal + Abort + Threads + Sync>(
    rt: &R,
    word: &str,
    numbers: [u32; 5],
    follows: &[&str],
    want: (Status, &str, &str),
) -> Result<(), Fail> {
    let mut input = craft(rt.alloc(), numbers)?;
    input.push_str("---\n")?;
    for part in follows {
        input.push_str(part)?;
    }
    prints(rt, &[word], input.as_bytes(), want)
}

#[test]
fn replays(rt: HostRuntime) -> Result<(), Fail> {
    for (follows, want) in [
        ([TOUCH_LINE, SYNTHESIS_LINE], (Status::Solved, PLAYED, "")),
        (
            [SYNTHESIS_LINE, TOUCH_LINE],
            (Status::StoppedMacro, STOPPED, ""),
        ),
        ([TOUCH_LINE, "\n"], (Status::Solved, PLAYED_IN_PART, "")),
        (
            ["macro 1\r\n", "\r\n"],
            (Status::Solved, "replay\nlive\n", ""),
        ),
        (
            ["/ac \"Basic Tuch\"", ""],
            (Status::BadMacro, "", FIRST_LINE),
        ),
        (["---\n", TOUCH_LINE], (Status::BadMacro, "", FIRST_LINE)),
        (
            [TOUCH_LINE, " \n"],
            (Status::BadMacro, "", "macro: line 2 not understood\n"),
        ),
        (
            ["/ac \"Careful Synthesis\"\n", ""],
            (Status::StoppedMacro, "replay\nstep 1: not_learned\n", ""),
        ),
    ] {
        answers(&rt, "replay", ONE_TOUCH, &follows, want)?;
    }
    let want = (Status::Solved, USED_UP, "");
    answers(&rt, "replay", [5, 18, 10, 100, 500], &[TOUCH_LINE], want)
}

#[test]
fn checks(rt: HostRuntime) -> Result<(), Fail> {
    let other = format!(in rt.alloc(); "not best\n{TOUCH}")?;
    for (follows, want) in [
        ([TOUCH_LINE, SYNTHESIS_LINE], (Status::Solved, "best\n", "")),
        (
            [SYNTHESIS_LINE, TOUCH_LINE],
            (Status::NotBest, other.as_str(), ""),
        ),
        ([SYNTHESIS_LINE, ""], (Status::NotBest, other.as_str(), "")),
        (["", ""], (Status::NotBest, other.as_str(), "")),
        (
            ["/ac \"Basic Tuch\"", ""],
            (Status::BadMacro, "", FIRST_LINE),
        ),
    ] {
        answers(&rt, "check", ONE_TOUCH, &follows, want)?;
    }
    let want = (Status::NoMacro, "none\n", "");
    answers(&rt, "check", [1, 0, 10, 101, 100], &[SYNTHESIS_LINE], want)
}

// Of two macros with as much quality, as many steps and as many seconds the one of the earlier actions is the best.
#[test]
fn checks_the_order(rt: HostRuntime) -> Result<(), Fail> {
    let other = format!(in rt.alloc(); "not best\n{TOUCH_BETWEEN}")?;
    for (follows, want) in [
        (
            [SYNTHESIS_LINE, TOUCH_LINE, SYNTHESIS_LINE],
            (Status::Solved, "best\n", ""),
        ),
        (
            [TOUCH_LINE, SYNTHESIS_LINE, SYNTHESIS_LINE],
            (Status::NotBest, other.as_str(), ""),
        ),
    ] {
        let numbers = [5, 18, 30, 200, 500];
        answers(&rt, "check", numbers, &follows, want)?;
    }
    Ok(())
}

#[test]
fn refused_inputs(rt: HostRuntime) -> Result<(), Fail> {
    let file = craft(rt.alloc(), ONE_TOUCH)?;
    for word in ["replay", "check"] {
        for (rest, status, line) in [
            ("", Status::BadMacro, NO_MARK),
            (
                "--- \n",
                Status::BadSettings,
                "settings: not a TOML document\n",
            ),
            (
                " ---\n",
                Status::BadSettings,
                "settings: not a TOML document\n",
            ),
            (
                "stars = 1\n---\nx",
                Status::BadSettings,
                "settings: unknown key base.stars\n",
            ),
        ] {
            let mut input = file.clone()?;
            input.push_str(rest)?;
            prints(&rt, &[word], input.as_bytes(), (status, "", line))?;
        }
        prints(
            &rt,
            &[word],
            b"---\n",
            (
                Status::BadSettings,
                "",
                "settings: missing key crafter.level\n",
            ),
        )?;
    }
    Ok(())
}

#[test]
fn longest_inputs(rt: HostRuntime) -> Result<(), Fail> {
    let mut input = craft(rt.alloc(), ONE_TOUCH)?;
    input.push_str("---\n")?;
    input.push_str(TOUCH_LINE)?;
    input.push_str(SYNTHESIS_LINE)?;
    let mut bytes = input.into_bytes();
    bytes.resize(65536, b'\n')?;
    prints(&rt, &["replay"], &bytes, (Status::Solved, PLAYED, ""))?;
    prints(&rt, &["check"], &bytes, (Status::Solved, "best\n", ""))?;
    bytes.push(b'\n')?;
    for word in ["replay", "check"] {
        let want = (Status::BadSettings, "", "settings: too long\n");
        prints(&rt, &[word], &bytes, want)?;
    }
    Ok(())
}
