use crate::{MacroFault, divide, macro_of, read_back};
use action_table::Action;
use std::test::Fail;

// Texts, and the actions that they name.
const READ: [(&str, &[Action]); 12] = [
    ("", &[]),
    ("\n\r\n\n", &[]),
    ("\r", &[]),
    ("macro 1", &[]),
    ("macro 12\r\nmacro 123\n", &[]),
    ("/ac \"Observe\"", &[Action::Observe]),
    ("/ac \"Observe\"\r", &[Action::Observe]),
    (
        "/ac \"Basic Touch\" <wait.3>\n/action \"Basic Synthesis\"\n",
        &[Action::BasicTouch, Action::BasicSynthesis],
    ),
    (
        "macro 1\r\n/ac \"Waste Not II\" <wait.02>\r\n/ac \"Waste Not\" <wait.2>\r\n\r\n/ac \"Master's Mend\"",
        &[Action::WasteNotII, Action::WasteNot, Action::MastersMend],
    ),
    (
        "/action \"Trained Eye\" <wait.99>\n\nmacro 2\n/ac \"Byregot's Blessing\" <wait.0>",
        &[Action::TrainedEye, Action::ByregotsBlessing],
    ),
    (
        "/ac \"Observe\"\nmacro 999\n/ac \"Observe\"\n",
        &[Action::Observe, Action::Observe],
    ),
    ("\n/action \"Refined Touch\"\n", &[Action::RefinedTouch]),
];

// Texts, and the first line of each that isn't understood.
const REFUSED: [(&str, u32); 36] = [
    ("/ac \"Basic Tuch\"", 1),
    ("/ac \"Basic Touch", 1),
    ("/ac Basic Touch", 1),
    ("/ac \"basic touch\"", 1),
    ("/ac \"BasicTouch\"", 1),
    ("/ac \"basic_touch\"", 1),
    ("/ac \"Basic Touch \"", 1),
    ("/ac \" Basic Touch\"", 1),
    ("/ac  \"Basic Touch\"", 1),
    ("/ac\t\"Basic Touch\"", 1),
    ("/ac\"Basic Touch\"", 1),
    (" /ac \"Basic Touch\"", 1),
    ("/ac \"Basic Touch\" ", 1),
    ("/ac \"Basic Touch\"  <wait.3>", 1),
    ("/ac \"Basic Touch\"<wait.3>", 1),
    ("/ac \"Basic Touch\" <wait.>", 1),
    ("/ac \"Basic Touch\" <wait.123>", 1),
    ("/ac \"Basic Touch\" <wait.3", 1),
    ("/ac \"Basic Touch\" <wait.3>>", 1),
    ("/ac \"Basic Touch\" <wait.-3>", 1),
    ("/ac \"Basic Touch\" <wait 3>", 1),
    ("/ac \"Basic Touch\" <wait.3> ", 1),
    ("/ac \"\"", 1),
    ("/act \"Observe\"", 1),
    ("/actions \"Observe\"", 1),
    ("ac \"Observe\"", 1),
    ("macro", 1),
    ("macro ", 1),
    ("macro  1", 1),
    ("macro 1234", 1),
    ("macro 1 ", 1),
    ("Macro 1", 1),
    ("macro ٣", 1),
    ("macro 1\r\r\n/ac \"Observe\"", 1),
    ("\n\r\n/ac \"Observe\"\n \nmacro", 4),
    ("macro 1\n/ac \"Observe\" <wait.3>\n\n---\n", 4),
];

#[test]
fn reads_lines(rt: HostRuntime) -> Result<(), Fail> {
    for (text, wanted) in READ {
        let bytes = text.as_bytes();
        assert!(rt; bytes.len() <= 65536);
        let read = macro_of(rt.alloc(), bytes)?;
        assert!(rt; read.as_slice() == wanted, "{text}");
    }
    for (text, wanted) in REFUSED {
        let bytes = text.as_bytes();
        assert!(rt; bytes.len() <= 65536);
        match macro_of(rt.alloc(), bytes) {
            Err(MacroFault::BadLine { line }) => assert_eq!(rt; line, wanted, "{text}"),
            _ => assert!(rt; false, "{text}"),
        }
    }
    Ok(())
}

#[test]
fn reads_blocks_back(rt: HostRuntime) -> Result<(), Fail> {
    let actions = [Action::Observe; 16];
    let (text, read) = read_back(rt.alloc(), &actions)?;
    assert_eq!(rt; text.len(), 384);
    assert!(rt; text.ends_with(b"macro 2\n/ac \"Observe\" <wait.3>\n"));
    assert!(rt; read.as_slice() == actions.as_slice());
    Ok(())
}

// Inputs, and what stands before and after their first line `---`.
const DIVIDED: [(&str, &str, &str); 11] = [
    ("---", "", ""),
    ("---\n", "", ""),
    ("---\r\n", "", ""),
    ("a\n---\nb\n", "a\n", "b\n"),
    ("a\r\n---\r\nb", "a\r\n", "b"),
    ("a = 1\n\n---", "a = 1\n\n", ""),
    ("----\n---\n---\n", "----\n", "---\n"),
    ("---\r\r\n---\n", "---\r\r\n", ""),
    ("--- \n ---\nx---\n---\n\n", "--- \n ---\nx---\n", "\n"),
    ("---\n---\r", "", "---\r"),
    ("\n\n---\n\r\n", "\n\n", "\r\n"),
];

// Inputs without such a line.
const WHOLE: [&str; 9] = [
    "",
    "\n",
    "a\n",
    "--",
    "----",
    "---\r",
    "a---\n",
    "--- \n---x",
    "-\n--\n",
];

#[test]
fn divides_at_the_mark(rt: HostRuntime) {
    for (input, before, after) in DIVIDED {
        match divide(input.as_bytes()) {
            Some((left, right)) => assert!(rt;
                left == before.as_bytes() && right == after.as_bytes(),
                "{input}"
            ),
            None => assert!(rt; false, "{input}"),
        }
    }
    for input in WHOLE {
        assert!(rt; divide(input.as_bytes()).is_none(), "{input}");
    }
}
