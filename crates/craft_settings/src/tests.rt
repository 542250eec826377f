use crate::{Key, Settings, SettingsFault, allowed, read};
use action_table::Action;
use std::alloc::{AllocError, Global};
use std::test::Fail;

// An ordinary file with base values.
const ORDINARY: &str =
    "[crafter]\nlevel = 5\ncp = 18\n[recipe]\ndurability = 20\nprogress = 100\nquality = 500\n[base]\nprogress = 100\nquality = 100\n";

// A file with each key of the stats form.
const STATS: &str = "version = 2
crafter = {level = 50, cp = 180, craftsmanship = 240, control = 200}
actions = {forbid = [\"observe\"], backload = true}
[recipe]
durability = 40
progress = 150
quality = 400
initial_quality = 7
progress_div = 50
quality_div = 30
progress_mod = 80
quality_mod = 70
penalty = true
target = 300
trained_eye = true
";

// A file with each key of the base form that the other lacks.
const BASE: &str = "version = 1
[crafter]
level = 5
cp = 18
[recipe]
durability = 20
progress = 100
quality = 500
[base]
progress = 120
quality = 90
";

// The fields that these files give, in their order.
const ORDINARY_FIELDS: [u32; 11] = [5, 18, 20, 100, 500, 0, 100, 100, 33554432, 500, 0];

const STATS_FIELDS: [u32; 11] = [50, 180, 40, 150, 400, 7, 40, 71, 8, 300, 1];

const BASE_FIELDS: [u32; 11] = [5, 18, 20, 100, 500, 0, 120, 90, 33554432, 500, 0];

// The places of some fields.
const DURABILITY: usize = 2;

const INITIAL: usize = 5;

const BASE_PROGRESS: usize = 6;

const BASE_QUALITY: usize = 7;

const FORBIDDEN: usize = 8;

const TARGET: usize = 9;

const BACKLOAD: usize = 10;

// The fields with some in place of others.
fn changed(fields: [u32; 11], changes: &[(usize, u32)]) -> [u32; 11] {
    let mut changed = fields;
    for &(place, value) in changes {
        if let Some(field) = changed.get_mut(place) {
            *field = value;
        }
    }
    changed
}

// The variant, the path or name, and the number.
fn told(fault: &SettingsFault) -> (&'static str, &[u8], i64) {
    match fault {
        SettingsFault::TooLong => ("TooLong", b"", 0),
        SettingsFault::NotToml => ("NotToml", b"", 0),
        SettingsFault::UnknownKey { path } => ("UnknownKey", path.bytes(), 0),
        SettingsFault::Missing { path } => ("Missing", path.text().as_bytes(), 0),
        SettingsFault::WrongKind { path } => ("WrongKind", path.text().as_bytes(), 0),
        SettingsFault::OutOfRange { path, value } => {
            ("OutOfRange", path.text().as_bytes(), *value)
        }
        SettingsFault::TwoBases => ("TwoBases", b"", 0),
        SettingsFault::UnknownAction { name } => ("UnknownAction", name.bytes(), 0),
        SettingsFault::WantMemory => ("WantMemory", b"", 0),
    }
}

fn is_refused(alloc: Global, bytes: &[u8], kind: &str, path: &str, value: i64) -> bool {
    match read(alloc, bytes) {
        Ok(_) => false,
        Err(fault) => told(&fault) == (kind, path.as_bytes(), value),
    }
}

// The settings with these fields, in their order.
fn gives(alloc: Global, bytes: &[u8], fields: [u32; 11]) -> bool {
    match read(alloc, bytes) {
        Ok(g) => {
            let backload = if g.backload { 1 } else { 0 };
            fields
                == [
                    g.level,
                    g.cp,
                    g.durability,
                    g.progress,
                    g.quality,
                    g.initial,
                    g.base_progress,
                    g.base_quality,
                    g.forbidden,
                    g.target,
                    backload,
                ]
        }
        Err(_) => false,
    }
}

// The text with one part in place of another.
fn edited(alloc: Global, text: &str, old: &str, new: &str) -> Result<String, AllocError> {
    match text.split_once(old) {
        Some((before, after)) => format!(in alloc; "{before}{new}{after}"),
        None => String::from_str(alloc, "no such part"),
    }
}

fn is_edit_refused(
    alloc: Global,
    text: &str,
    edit: (&str, &str),
    told: (&str, &str, i64),
) -> Result<bool, AllocError> {
    let text = edited(alloc, text, edit.0, edit.1)?;
    Ok(is_refused(alloc, text.as_bytes(), told.0, told.1, told.2))
}

// The settings of a text with one part in place of another have these fields.
fn edit_gives(
    alloc: Global,
    text: &str,
    edit: (&str, &str),
    fields: [u32; 11],
) -> Result<bool, AllocError> {
    let text = edited(alloc, text, edit.0, edit.1)?;
    Ok(gives(alloc, text.as_bytes(), fields))
}

// Whether a number of a table of the file is refused as a flag, below its range and above it.
fn is_checked(
    alloc: Global,
    text: &str,
    table: &str,
    number: &(&str, i64, i64),
) -> Result<bool, AllocError> {
    let (part, below, above) = *number;
    let Some((name, _)) = part.split_once(" = ") else {
        return Ok(false);
    };
    let path = format!(in alloc; "{table}.{name}")?;
    let flag = format!(in alloc; "{name} = true")?;
    let low = format!(in alloc; "{name} = {below}")?;
    let high = format!(in alloc; "{name} = {above}")?;
    for (new, kind, value) in [
        (flag.as_str(), "WrongKind", 0),
        (low.as_str(), "OutOfRange", below),
        (high.as_str(), "OutOfRange", above),
    ] {
        if !is_edit_refused(alloc, text, (part, new), (kind, path.as_str(), value))? {
            return Ok(false);
        }
    }
    Ok(true)
}

// Whether each number of a table of the file is.
fn are_checked(
    alloc: Global,
    text: &str,
    table: &str,
    numbers: &[(&str, i64, i64)],
) -> Result<bool, AllocError> {
    for number in numbers {
        if !is_checked(alloc, text, table, number)? {
            return Ok(false);
        }
    }
    Ok(true)
}

// The numbers, with one below and one above the range.
const CRAFTER: [(&str, i64, i64); 4] = [
    ("level = 50", 0, 101),
    ("cp = 180", -1, 1001),
    ("craftsmanship = 240", -1, 10001),
    ("control = 200", -1, 10001),
];

const RECIPE: [(&str, i64, i64); 9] = [
    ("durability = 40", 5, 105),
    ("progress = 150", 0, 100001),
    ("quality = 400", -1, 100001),
    ("initial_quality = 7", -1, 100001),
    ("progress_div = 50", 0, 1001),
    ("quality_div = 30", 0, 1001),
    ("progress_mod = 80", 0, 101),
    ("quality_mod = 70", 0, 101),
    ("target = 300", -1, 100001),
];

const BASE_VALUES: [(&str, i64, i64); 2] = [("progress = 120", 0, 5001), ("quality = 90", 0, 5001)];

#[test]
fn numbers(rt: HostRuntime) -> Result<(), Fail> {
    let alloc = rt.alloc();
    assert!(rt; are_checked(alloc, STATS, "crafter", &CRAFTER)?);
    assert!(rt; are_checked(alloc, STATS, "recipe", &RECIPE)?);
    assert!(rt; are_checked(alloc, BASE, "base", &BASE_VALUES)?);
    Ok(())
}

// Keys that the form needs.
const NEEDED: [(&str, &str); 10] = [
    (
        "crafter = {level = 50, cp = 180, craftsmanship = 240, control = 200}\n",
        "crafter.level",
    ),
    ("level = 50, ", "crafter.level"),
    ("cp = 180, ", "crafter.cp"),
    ("craftsmanship = 240, ", "crafter.craftsmanship"),
    (", control = 200", "crafter.control"),
    ("durability = 40\n", "recipe.durability"),
    ("progress = 150\n", "recipe.progress"),
    ("quality = 400\n", "recipe.quality"),
    ("progress_div = 50\n", "recipe.progress_div"),
    ("quality_div = 30\n", "recipe.quality_div"),
];

#[test]
fn missing_keys(rt: HostRuntime) -> Result<(), Fail> {
    let alloc = rt.alloc();
    for (part, path) in NEEDED {
        assert!(rt;
            is_edit_refused(alloc, STATS, (part, ""), ("Missing", path, 0))?,
            "{path}"
        );
    }
    Ok(())
}

#[test]
fn other_edits_of_stats(rt: HostRuntime) -> Result<(), Fail> {
    let alloc = rt.alloc();
    for (edit, told) in [
        (
            (
                "crafter = {level = 50, cp = 180, craftsmanship = 240, control = 200}",
                "crafter = 1",
            ),
            ("WrongKind", "crafter", 0),
        ),
        (
            ("durability = 40", "durability = 42"),
            ("OutOfRange", "recipe.durability", 42),
        ),
        (
            ("penalty = true", "penalty = 1"),
            ("WrongKind", "recipe.penalty", 0),
        ),
        (
            ("trained_eye = true", "trained_eye = 1"),
            ("WrongKind", "recipe.trained_eye", 0),
        ),
        (
            (
                "actions = {forbid = [\"observe\"], backload = true}",
                "actions = 1",
            ),
            ("WrongKind", "actions", 0),
        ),
        (
            ("[\"observe\"]", "[\"observe\", 1]"),
            ("WrongKind", "actions.forbid", 0),
        ),
        (
            ("backload = true", "backload = 1"),
            ("WrongKind", "actions.backload", 0),
        ),
        (
            ("[recipe]\n", "[recipe]\nstars = 1\n"),
            ("UnknownKey", "recipe.stars", 0),
        ),
        (
            (
                "[\"observe\"]",
                "[\"basic_synthesis\", \"basic_tuch\", \"x\"]",
            ),
            ("UnknownAction", "basic_tuch", 0),
        ),
        (
            ("version = 2\n", ""),
            ("UnknownKey", "recipe.trained_eye", 0),
        ),
    ] {
        assert!(rt; is_edit_refused(alloc, STATS, edit, told)?, "{}", edit.1);
    }
    Ok(())
}

#[test]
fn absent_keys_of_stats(rt: HostRuntime) -> Result<(), Fail> {
    let alloc = rt.alloc();
    let rows: [((&str, &str), &[(usize, u32)]); 12] = [
        (("version", "version"), &[]),
        (("initial_quality = 7\n", ""), &[(INITIAL, 0)]),
        (("progress_mod = 80\n", ""), &[(BASE_PROGRESS, 50)]),
        (("quality_mod = 70\n", ""), &[(BASE_QUALITY, 101)]),
        (
            ("penalty = true\n", ""),
            &[(BASE_PROGRESS, 50), (BASE_QUALITY, 101)],
        ),
        (("target = 300\n", ""), &[(TARGET, 400)]),
        (("trained_eye = true\n", ""), &[(FORBIDDEN, 33554440)]),
        (
            ("actions = {forbid = [\"observe\"], backload = true}\n", ""),
            &[(FORBIDDEN, 0), (BACKLOAD, 0)],
        ),
        (("forbid = [\"observe\"], ", ""), &[(FORBIDDEN, 0)]),
        ((", backload = true", ""), &[(BACKLOAD, 0)]),
        (
            (
                "[\"observe\"]",
                "[\"observe\", \"trained_eye\", \"observe\"]",
            ),
            &[(FORBIDDEN, 33554440)],
        ),
        (
            ("trained_eye = true", "trained_eye = false"),
            &[(FORBIDDEN, 33554440)],
        ),
    ];
    for (edit, changes) in &rows {
        let fields = changed(STATS_FIELDS, *changes);
        assert!(rt; edit_gives(alloc, STATS, *edit, fields)?, "{}", edit.1);
    }
    Ok(())
}

#[test]
fn edits_of_base(rt: HostRuntime) -> Result<(), Fail> {
    let alloc = rt.alloc();
    for (edit, told) in [
        (
            ("version = 1", "version = \"9\""),
            ("WrongKind", "version", 0),
        ),
        (("version = 1", "version = 0"), ("OutOfRange", "version", 0)),
        (("version = 1", "version = 3"), ("OutOfRange", "version", 3)),
        (
            ("[crafter]\nlevel = 5\ncp = 18\n", ""),
            ("Missing", "crafter.level", 0),
        ),
        (
            (
                "[recipe]\ndurability = 20\nprogress = 100\nquality = 500\n",
                "",
            ),
            ("Missing", "recipe.durability", 0),
        ),
        (
            (
                "version = 1\n[crafter]\nlevel = 5\ncp = 18\n[recipe]\ndurability = 20\nprogress = 100\nquality = 500\n",
                "recipe = 1\ncrafter = {level = 5, cp = 18}\n",
            ),
            ("WrongKind", "recipe", 0),
        ),
        (
            ("[base]\nprogress = 120\nquality = 90\n", ""),
            ("Missing", "crafter.craftsmanship", 0),
        ),
        (
            (
                BASE,
                "base = 1\ncrafter = {level = 5, cp = 18}\n[recipe]\ndurability = 20\nprogress = 100\nquality = 500\n",
            ),
            ("WrongKind", "base", 0),
        ),
        (
            ("[base]\nprogress = 120\n", "[base]\n"),
            ("Missing", "base.progress", 0),
        ),
        (("quality = 90\n", ""), ("Missing", "base.quality", 0)),
    ] {
        assert!(rt; is_edit_refused(alloc, BASE, edit, told)?, "{}", edit.1);
    }
    Ok(())
}

#[test]
fn versions_of_base(rt: HostRuntime) -> Result<(), Fail> {
    let alloc = rt.alloc();
    let rows: [((&str, &str), &[(usize, u32)]); 2] = [
        (("version = 1\n", ""), &[]),
        (("version = 1", "version = 2"), &[]),
    ];
    for (edit, changes) in &rows {
        let fields = changed(BASE_FIELDS, *changes);
        assert!(rt; edit_gives(alloc, BASE, *edit, fields)?, "{}", edit.1);
    }
    Ok(())
}

#[test]
fn ordinary_refused(rt: HostRuntime) -> Result<(), Fail> {
    let alloc = rt.alloc();
    for (edit, told) in [
        (
            ("durability = 20", "durability = 37"),
            ("OutOfRange", "recipe.durability", 37),
        ),
        (
            ("durability = 20", "durability = 105"),
            ("OutOfRange", "recipe.durability", 105),
        ),
        (
            ("cp = 18\n", "cp = 18\ncraftsmanship = 100\n"),
            ("TwoBases", "", 0),
        ),
        (
            ("[recipe]\n", "[recipe]\nstars = 1\n"),
            ("UnknownKey", "recipe.stars", 0),
        ),
        (
            (
                "cp = 18\n[recipe]\n",
                "cp = 18\ncraftsmanship = 100\n[recipe]\nstars = 1\n",
            ),
            ("UnknownKey", "recipe.stars", 0),
        ),
        (("cp = 18", "cp = \"18\""), ("WrongKind", "crafter.cp", 0)),
        (
            ("[base]", "[actions]\nforbid = [\"basic_tuch\"]\n[base]"),
            ("UnknownAction", "basic_tuch", 0),
        ),
        (
            ("level = 5\n", "level = 5\nlevel = 5\n"),
            ("NotToml", "", 0),
        ),
        (
            ("level = 5", "level = true"),
            ("WrongKind", "crafter.level", 0),
        ),
        (("cp = 18", "cp = 1001"), ("OutOfRange", "crafter.cp", 1001)),
        (
            ("quality = 500", "quality = 500\ntarget = -1"),
            ("OutOfRange", "recipe.target", -1),
        ),
        (
            ("[crafter]", "version = 3\n[crafter]"),
            ("OutOfRange", "version", 3),
        ),
        (
            ("[recipe]\n", "[recipe]\ntrained_eye = true\n"),
            ("UnknownKey", "recipe.trained_eye", 0),
        ),
        (
            (
                "[crafter]\nlevel",
                "version = 2\n[crafter]\nstars = 1\nlevel",
            ),
            ("UnknownKey", "crafter.stars", 0),
        ),
        (
            ("[base]", "[actions]\nforbid = [\"trained_eye\"]\n[base]"),
            ("UnknownAction", "trained_eye", 0),
        ),
        (
            (
                "[crafter]\nlevel",
                "zeta = 1\nalpha = 1\n[crafter]\nzeta = 1\nlevel",
            ),
            ("UnknownKey", "alpha", 0),
        ),
        (
            (
                "level = 5\ncp = 18\n[recipe]\n",
                "level = 5\ncp = 18\nzeta = 1\nbeta = 1\n[recipe]\nalpha = 1\n",
            ),
            ("UnknownKey", "crafter.beta", 0),
        ),
    ] {
        assert!(rt; is_edit_refused(alloc, ORDINARY, edit, told)?, "{}", edit.1);
    }
    Ok(())
}

#[test]
fn ordinary_given(rt: HostRuntime) -> Result<(), Fail> {
    let alloc = rt.alloc();
    let rows: [((&str, &str), &[(usize, u32)]); 6] = [
        (("level = 5", "level = 5"), &[]),
        (
            ("durability = 20", "durability = 100"),
            &[(DURABILITY, 100)],
        ),
        (
            (
                "[crafter]\nlevel = 5\ncp = 18\n",
                "crafter = {level = 5, cp = 18}\n",
            ),
            &[],
        ),
        (
            ("quality = 500", "quality = 500\ntarget = 100"),
            &[(TARGET, 100)],
        ),
        (
            ("[base]", "[actions]\nbackload = true\n[base]"),
            &[(BACKLOAD, 1)],
        ),
        (("[crafter]", "version = 2\n[crafter]"), &[]),
    ];
    for (edit, changes) in &rows {
        let fields = changed(ORDINARY_FIELDS, *changes);
        assert!(rt; edit_gives(alloc, ORDINARY, *edit, fields)?, "{}", edit.1);
    }
    Ok(())
}

#[test]
fn whole_files_refused(rt: HostRuntime) -> Result<(), Fail> {
    let alloc = rt.alloc();
    for (text, kind, path, value) in [
        (
            "[crafter]
level = 80
cp = 250
[recipe]
durability = 20
progress = 120
quality = 5000
trained_eye = true
[base]
progress = 100
quality = 100
",
            "UnknownKey",
            "recipe.trained_eye",
            0,
        ),
        (
            "[crafter]
level = 50
cp = 180
craftsmanship = 0
control = 200
[recipe]
durability = 40
progress = 150
quality = 400
progress_div = 1000
quality_div = 30
penalty = true
progress_mod = 1
",
            "OutOfRange",
            "base.progress",
            0,
        ),
        (
            "[crafter]
level = 50
cp = 180
craftsmanship = 240
control = 10000
[recipe]
durability = 40
progress = 150
quality = 400
progress_div = 50
quality_div = 1
",
            "OutOfRange",
            "base.quality",
            100035,
        ),
        ("", "Missing", "crafter.level", 0),
        ("=", "NotToml", "", 0),
        ("a = [", "NotToml", "", 0),
        ("crafter = 1", "Missing", "recipe.durability", 0),
    ] {
        assert!(rt;
            is_refused(alloc, text.as_bytes(), kind, path, value),
            "{text}"
        );
    }
    Ok(())
}

#[test]
fn whole_files_given(rt: HostRuntime) -> Result<(), Fail> {
    let alloc = rt.alloc();
    for (text, fields) in [
        (
            "version = 2
[crafter]
level = 80
cp = 250
[recipe]
durability = 20
progress = 120
quality = 5000
trained_eye = true
[base]
progress = 100
quality = 100
",
            [80, 250, 20, 120, 5000, 0, 100, 100, 0, 5000, 0],
        ),
        (
            "[crafter]
level = 50
cp = 180
craftsmanship = 240
control = 200
[recipe]
durability = 40
progress = 150
quality = 400
progress_div = 50
quality_div = 30
",
            [50, 180, 40, 150, 400, 0, 50, 101, 33554432, 400, 0],
        ),
        (
            "[crafter]
level = 100
cp = 600
craftsmanship = 4900
control = 4800
[recipe]
durability = 70
progress = 7000
quality = 15000
progress_div = 170
quality_div = 150
",
            [100, 600, 70, 7000, 15000, 0, 290, 355, 33554432, 15000, 0],
        ),
    ] {
        assert!(rt; gives(alloc, text.as_bytes(), fields), "{text}");
    }
    Ok(())
}

#[test]
fn cut_files(rt: HostRuntime) -> Result<(), Fail> {
    let alloc = rt.alloc();
    let bytes = ORDINARY.as_bytes();
    for (size, quality) in [(118, 100), (117, 100), (116, 10), (115, 1)] {
        let fields = [5, 18, 20, 100, 500, 0, 100, quality, 33554432, 500, 0];
        assert!(rt; gives(alloc, &bytes[..size], fields), "{size}");
    }
    for (size, kind, path) in [
        (114, "NotToml", ""),
        (104, "Missing", "base.quality"),
        (89, "Missing", "base.progress"),
        (37, "Missing", "crafter.craftsmanship"),
        (0, "Missing", "crafter.level"),
    ] {
        assert!(rt; is_refused(alloc, &bytes[..size], kind, path, 0), "{size}");
    }
    Ok(())
}

#[test]
fn lengths(rt: HostRuntime) -> Result<(), Fail> {
    let alloc = rt.alloc();
    let mut text = format!(in alloc; "{ORDINARY}#")?;
    for _ in 119..65536 {
        text.push('x')?;
    }
    let fields = [5, 18, 20, 100, 500, 0, 100, 100, 33554432, 500, 0];
    assert!(rt; gives(alloc, text.as_bytes(), fields));
    text.push('x')?;
    assert!(rt; is_refused(alloc, text.as_bytes(), "TooLong", "", 0));
    Ok(())
}

#[test]
fn not_utf_8(rt: HostRuntime) -> Result<(), Fail> {
    let alloc = rt.alloc();
    let mut bytes = Vec::from_slice(alloc, ORDINARY.as_bytes())?;
    bytes.push(0xFF)?;
    assert!(rt; is_refused(alloc, bytes.as_slice(), "NotToml", "", 0));
    Ok(())
}

// A crafter of level 50 on a recipe with more quality than counts; Observe and Trained Eye are forbidden.
const LEVEL_50: Settings = Settings {
    level: 50,
    cp: 180,
    durability: 40,
    progress: 150,
    quality: 400,
    initial: 0,
    base_progress: 100,
    base_quality: 100,
    forbidden: 0x2000008,
    target: 300,
    backload: false,
};

// Actions with whether the level suffices, and whether they are forbidden.
const AT_LEVEL_50: [(Action, bool, bool); 8] = [
    (Action::BasicSynthesis, true, false),
    (Action::MastersMend, true, false),
    (Action::Observe, true, true),
    (Action::WasteNotII, true, false),
    (Action::ByregotsBlessing, true, false),
    (Action::MuscleMemory, false, false),
    (Action::TrainedPerfection, false, false),
    (Action::TrainedEye, false, true),
];

#[test]
fn rules_of_level_50(rt: HostRuntime) {
    for (action, learned, forbidden) in AT_LEVEL_50 {
        assert_eq!(rt; LEVEL_50.is_learned(action), learned, "{action:?}");
        assert_eq!(rt; LEVEL_50.is_forbidden(action), forbidden, "{action:?}");
        assert_eq!(rt;
            allowed(&LEVEL_50, action),
            learned && !forbidden,
            "{action:?}"
        );
    }
    let higher = Settings {
        level: 80,
        forbidden: 0,
        ..LEVEL_50
    };
    assert!(rt; allowed(&higher, Action::TrainedEye));
    assert!(rt; !allowed(&higher, Action::AdvancedTouch));
}

#[test]
fn quality_that_counts(rt: HostRuntime) {
    for (quality, target, cap) in [
        (400, 300, 300),
        (400, 400, 400),
        (400, 100000, 400),
        (400, 0, 0),
        (0, 300, 0),
    ] {
        let g = Settings {
            quality,
            target,
            ..LEVEL_50
        };
        assert_eq!(rt; g.cap(), cap);
    }
}

// The keys in the order of the list.
const PATHS: [&str; 24] = [
    "version",
    "crafter",
    "crafter.level",
    "crafter.cp",
    "crafter.craftsmanship",
    "crafter.control",
    "recipe",
    "recipe.durability",
    "recipe.progress",
    "recipe.quality",
    "recipe.initial_quality",
    "recipe.progress_div",
    "recipe.quality_div",
    "recipe.progress_mod",
    "recipe.quality_mod",
    "recipe.penalty",
    "recipe.target",
    "recipe.trained_eye",
    "base",
    "base.progress",
    "base.quality",
    "actions",
    "actions.forbid",
    "actions.backload",
];

#[test]
fn paths_of_keys(rt: HostRuntime) {
    for place in 0..24 {
        assert_eq!(rt; Key::new(place).text(), PATHS[place]);
    }
}
