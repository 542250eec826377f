//! Texts of macros that the tests of several crates expect. Nothing but tests uses them.
#![tactic(auto)]

/// A synthesis.
pub const EASY: &str = "steps 1 seconds 3 progress 100/100 quality 0/100
kept 1
macro 1
/ac \"Basic Synthesis\" <wait.3>
replay
  1 Basic Synthesis         100      0   0    0
";

/// A touch and a synthesis.
pub const TOUCH: &str = "steps 2 seconds 6 progress 100/100 quality 100/500
kept 2
macro 1
/ac \"Basic Touch\" <wait.3>
/ac \"Basic Synthesis\" <wait.3>
replay
  1 Basic Touch               0    100  10    0
  2 Basic Synthesis         100    100   0    0
";

/// A synthesis that leaves no durability for a touch.
pub const NO_TOUCH: &str = "steps 1 seconds 3 progress 100/100 quality 0/500
kept 1
macro 1
/ac \"Basic Synthesis\" <wait.3>
replay
  1 Basic Synthesis         100      0   0   18
";

/// Two touches and a synthesis.
pub const TWO_TOUCHES: &str = "steps 3 seconds 9 progress 100/100 quality 210/500
kept 3
macro 1
/ac \"Basic Touch\" <wait.3>
/ac \"Basic Touch\" <wait.3>
/ac \"Basic Synthesis\" <wait.3>
replay
  1 Basic Touch               0    100  20   18
  2 Basic Touch               0    210  10    0
  3 Basic Synthesis         100    210   0    0
";

/// A touch and a synthesis of much CP.
pub const MUCH_CP: &str = "steps 2 seconds 6 progress 100/100 quality 100/500
kept 2
macro 1
/ac \"Basic Touch\" <wait.3>
/ac \"Basic Synthesis\" <wait.3>
replay
  1 Basic Touch               0    100  10   88
  2 Basic Synthesis         100    100   0   88
";

/// A synthesis under Veneration.
pub const VENERATION: &str = "steps 2 seconds 5 progress 150/150 quality 0/0
kept 3
macro 1
/ac \"Veneration\" <wait.2>
/ac \"Basic Synthesis\" <wait.3>
replay
  1 Veneration                0      0  20    0
  2 Basic Synthesis         150      0  10    0
";

/// Four steps, with Veneration and Innovation.
pub const INNOVATION: &str = "steps 4 seconds 10 progress 150/150 quality 150/500
kept 17
macro 1
/ac \"Veneration\" <wait.2>
/ac \"Innovation\" <wait.2>
/ac \"Basic Touch\" <wait.3>
/ac \"Basic Synthesis\" <wait.3>
replay
  1 Veneration                0      0  20   36
  2 Innovation                0      0  20   18
  3 Basic Touch               0    150  10    0
  4 Basic Synthesis         150    150   0    0
";

/// The same with its limits.
pub const INNOVATION_LIMITS: &str = "steps 4 seconds 10 progress 150/150 quality 150/500
kept 17
macro 1
/ac \"Veneration\" <wait.2>
/ac \"Innovation\" <wait.2>
/ac \"Basic Touch\" <wait.3>
/ac \"Basic Synthesis\" <wait.3>
replay
  1 Veneration                0      0  20   36    250
  2 Innovation                0      0  20   18    187
  3 Basic Touch               0    150  10    0    150
  4 Basic Synthesis         150    150   0    0    150
";

/// The same with its levels.
pub const INNOVATION_LEVELS: &str = "steps 4 seconds 10 progress 150/150 quality 150/500
kept 17
macro 1
/ac \"Veneration\" <wait.2>
/ac \"Innovation\" <wait.2>
/ac \"Basic Touch\" <wait.3>
/ac \"Basic Synthesis\" <wait.3>
replay
  1 Veneration                0      0  20   36
  2 Innovation                0      0  20   18
  3 Basic Touch               0    150  10    0
  4 Basic Synthesis         150    150   0    0
level 0 1
level 1 4
level 2 9
level 3 3
";

/// Groundwork after Trained Perfection.
pub const PERFECTION: &str = "steps 2 seconds 6 progress 360/360 quality 0/0
kept 6
macro 1
/ac \"Trained Perfection\" <wait.3>
/ac \"Groundwork\" <wait.3>
replay
  1 Trained Perfection        0      0  10   18
  2 Groundwork              360      0  10    0
";

/// Groundwork.
pub const GROUNDWORK: &str = "steps 1 seconds 3 progress 180/180 quality 0/0
kept 1
macro 1
/ac \"Groundwork\" <wait.3>
replay
  1 Groundwork              180      0   0    0
";

/// Muscle Memory.
pub const MUSCLE_MEMORY: &str = "steps 1 seconds 3 progress 180/180 quality 0/0
kept 1
macro 1
/ac \"Muscle Memory\" <wait.3>
replay
  1 Muscle Memory           180      0   0   12
";

/// Six steps, with its levels.
pub const ORDINARY: &str = "steps 6 seconds 16 progress 150/150 quality 400/400
kept 103
macro 1
/ac \"Basic Synthesis\" <wait.3>
/ac \"Veneration\" <wait.2>
/ac \"Standard Touch\" <wait.3>
/ac \"Great Strides\" <wait.2>
/ac \"Standard Touch\" <wait.3>
/ac \"Basic Synthesis\" <wait.3>
replay
  1 Basic Synthesis          60      0  30  180
  2 Veneration               60      0  30  162
  3 Standard Touch           60    126  20  130
  4 Great Strides            60    126  20   98
  5 Standard Touch           60    400  10   66
  6 Basic Synthesis         150    400   0   66
level 0 1
level 1 4
level 2 14
level 3 33
level 4 43
level 5 8
";
