// Settings files through the whole of a run: cut short, damaged, changed, and with the optional keys.
use crate::Status;
use crate::tests::{ONE_TOUCH, TOUCH, TWO_TOUCHES, craft, is_refused, solves};
use std::test::Fail;

const TOUCH_OF_TEN: &str = "steps 2 seconds 6 progress 100/100 quality 10/500
kept 2
macro 1
/ac \"Basic Touch\" <wait.3>
/ac \"Basic Synthesis\" <wait.3>
replay
  1 Basic Touch               0     10  10    0
  2 Basic Synthesis         100     10   0    0
";

const TOUCH_OF_ONE: &str = "steps 2 seconds 6 progress 100/100 quality 1/500
kept 2
macro 1
/ac \"Basic Touch\" <wait.3>
/ac \"Basic Synthesis\" <wait.3>
replay
  1 Basic Touch               0      1  10    0
  2 Basic Synthesis         100      1   0    0
";

const TOUCH_TO_TARGET: &str = "steps 2 seconds 6 progress 100/100 quality 100/500
kept 2
macro 1
/ac \"Basic Touch\" <wait.3>
/ac \"Basic Synthesis\" <wait.3>
replay
  1 Basic Touch               0    100  20   18
  2 Basic Synthesis         100    100  10   18
";

pub(crate) const TOUCH_BETWEEN: &str = "steps 3 seconds 9 progress 200/200 quality 100/500
kept 5
macro 1
/ac \"Basic Synthesis\" <wait.3>
/ac \"Basic Touch\" <wait.3>
/ac \"Basic Synthesis\" <wait.3>
replay
  1 Basic Synthesis         100      0  20   18
  2 Basic Touch             100    100  10    0
  3 Basic Synthesis         200    100   0    0
";

const TOUCH_FIRST: &str = "steps 3 seconds 9 progress 200/200 quality 100/500
kept 4
macro 1
/ac \"Basic Touch\" <wait.3>
/ac \"Basic Synthesis\" <wait.3>
/ac \"Basic Synthesis\" <wait.3>
replay
  1 Basic Touch               0    100  20    0
  2 Basic Synthesis         100    100  10    0
  3 Basic Synthesis         200    100   0    0
";

const EYE_FILE: &str = "version = 2
[crafter]
level = 80
cp = 250
[recipe]
durability = 20
progress = 120
quality = 5000
trained_eye = true
[base]
progress = 100
quality = 100
";

const EYE: &str = "steps 2 seconds 6 progress 120/120 quality 5000/5000
kept 2
macro 1
/ac \"Trained Eye\" <wait.3>
/ac \"Basic Synthesis\" <wait.3>
replay
  1 Trained Eye               0   5000  10    0
  2 Basic Synthesis         120   5000   0    0
";

// How many bytes of the file are left, and the answer.
const CUT_SHORT: [(usize, Status, &str, &str); 8] = [
    (117, Status::Solved, TOUCH, ""),
    (116, Status::Solved, TOUCH_OF_TEN, ""),
    (115, Status::Solved, TOUCH_OF_ONE, ""),
    (
        114,
        Status::BadSettings,
        "",
        "settings: not a TOML document\n",
    ),
    (
        104,
        Status::BadSettings,
        "",
        "settings: missing key base.quality\n",
    ),
    (
        89,
        Status::BadSettings,
        "",
        "settings: missing key base.progress\n",
    ),
    (
        37,
        Status::BadSettings,
        "",
        "settings: missing key crafter.craftsmanship\n",
    ),
    (
        0,
        Status::BadSettings,
        "",
        "settings: missing key crafter.level\n",
    ),
];

#[test]
fn cut_short(rt: HostRuntime) -> Result<(), Fail> {
    for (count, status, text, line) in CUT_SHORT {
        let file = craft(rt.alloc(), ONE_TOUCH)?;
        let mut bytes = file.into_bytes();
        bytes.truncate(count);
        solves(&rt, &bytes, (status, text, line))?;
    }
    Ok(())
}

// A text of the file of one touch, what stands in its place, and why the file is refused then.
const REFUSED: [(&str, &str, &str); 5] = [
    (
        "level = 5",
        "level = 5\nlevel = 5",
        "settings: not a TOML document\n",
    ),
    (
        "level = 5",
        "level = true",
        "settings: wrong kind of value at crafter.level\n",
    ),
    (
        "cp = 18",
        "cp = 1001",
        "settings: 1001 is out of range at crafter.cp\n",
    ),
    (
        "quality = 500",
        "quality = 500\ntarget = -1",
        "settings: -1 is out of range at recipe.target\n",
    ),
    (
        "[crafter]",
        "version = 3\n[crafter]",
        "settings: 3 is out of range at version\n",
    ),
];

#[test]
fn refused_files(rt: HostRuntime) -> Result<(), Fail> {
    for (old, new, line) in REFUSED {
        let file = craft(rt.alloc(), ONE_TOUCH)?;
        let other = file.replace(rt.alloc(), old, new)?;
        is_refused(&rt, other.as_str(), line)?;
    }
    is_refused(&rt, "a = [", "settings: not a TOML document\n")?;
    is_refused(
        &rt,
        "crafter = 1",
        "settings: missing key recipe.durability\n",
    )?;
    let mut bytes = craft(rt.alloc(), ONE_TOUCH)?.into_bytes();
    bytes.push(0xFF)?;
    let line = "settings: not a TOML document\n";
    solves(&rt, &bytes, (Status::BadSettings, "", line))
}

// The numbers of a craft, a text of its file, what stands in its place, and the text of its best macro then.
const SOLVED: [([u32; 5], &str, &str, &str); 6] = [
    (
        ONE_TOUCH,
        "[crafter]\nlevel = 5\ncp = 18\n",
        "crafter = {level = 5, cp = 18}\n",
        TOUCH,
    ),
    (ONE_TOUCH, "[crafter]", "version = 2\n[crafter]", TOUCH),
    (
        [11, 36, 30, 100, 500],
        "quality = 500",
        "quality = 500\ntarget = 100",
        TOUCH_TO_TARGET,
    ),
    (
        [11, 36, 30, 100, 500],
        "quality = 500",
        "quality = 500\ntarget = 150",
        TWO_TOUCHES,
    ),
    (
        [5, 18, 30, 200, 500],
        "[base]",
        "[actions]\nbackload = false\n[base]",
        TOUCH_BETWEEN,
    ),
    (
        [5, 18, 30, 200, 500],
        "[base]",
        "[actions]\nbackload = true\n[base]",
        TOUCH_FIRST,
    ),
];

#[test]
fn optional_keys(rt: HostRuntime) -> Result<(), Fail> {
    for (numbers, old, new, text) in SOLVED {
        let file = craft(rt.alloc(), numbers)?;
        let other = file.replace(rt.alloc(), old, new)?;
        solves(&rt, other.as_bytes(), (Status::Solved, text, ""))?;
    }
    Ok(())
}

#[test]
fn trained_eye(rt: HostRuntime) -> Result<(), Fail> {
    solves(&rt, EYE_FILE.as_bytes(), (Status::Solved, EYE, ""))?;
    let first_version = EYE_FILE.replace(rt.alloc(), "version = 2\n", "")?;
    let line = "settings: unknown key recipe.trained_eye\n";
    is_refused(&rt, first_version.as_str(), line)
}
