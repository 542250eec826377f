ghost use Rattle.std.specs.Prelude.{◌≡◌};
ghost use Rattle.action_table.specs.Table.{table_row};

/// What an action costs and gives per use, before any effect.
///
/// `level` is the crafter's level from which on the action is known. `cp` is the price, and `combo_cp` the price
/// where the action goes on from a combo (the same number for an action without a combo price). `durability`
/// is what a use wears, `progress` and `quality` are efficiencies in percent, `seconds` is the time that a macro
/// waits, and `stacks` is what a use adds to Inner Quiet.
#[derive(Clone, Copy, PartialEq, Eq, Debug)]
pub struct Row {
    pub level: u32,
    pub cp: u32,
    pub combo_cp: u32,
    pub durability: u32,
    pub progress: u32,
    pub quality: u32,
    pub seconds: u32,
    pub stacks: u32,
}

impl Row {
    /// An effect that is put up: two seconds, and nothing else.
    pub(crate) fn buff(level: u32, cp: u32) -> Row
        ensures { result ≡ table_row level cp cp 0 0 0 2 0 }
    {
        Row {
            seconds: 2,
            ..Row::rest(level, cp)
        }
    }

    /// An action that wears nothing and adds nothing by itself.
    pub(crate) fn rest(level: u32, cp: u32) -> Row
        ensures { result ≡ table_row level cp cp 0 0 0 3 0 }
    {
        Row::synthesis(level, cp, 0, 0)
    }

    pub(crate) fn synthesis(level: u32, cp: u32, durability: u32, progress: u32) -> Row
        ensures { result ≡ table_row level cp cp durability progress 0 3 0 }
    {
        Row {
            level,
            cp,
            combo_cp: cp,
            durability,
            progress,
            quality: 0,
            seconds: 3,
            stacks: 0,
        }
    }

    pub(crate) fn touch(level: u32, cp: u32, durability: u32, quality: u32, stacks: u32) -> Row
        ensures { result ≡ table_row level cp cp durability 0 quality 3 stacks }
    {
        Row {
            quality,
            stacks,
            ..Row::synthesis(level, cp, durability, 0)
        }
    }

    /// The row whose price after the first action of its combo is 18.
    pub(crate) fn in_combo(self) -> Row
        ensures { result ≡ table_row self.level self.cp 18 self.durability self.progress self.quality self.seconds self.stacks }
    {
        Row {
            combo_cp: 18,
            ..self
        }
    }
}
