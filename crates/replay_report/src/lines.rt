ghost use Rattle.std.specs.Prelude.{◌≡◌, ◌≤◌, ◌++◌, None, codes, length, string_bytes, IfOk, OnOk};
ghost use Rattle.macro_order.specs.Order.{seconds_of};
ghost use Rattle.step_rules.specs.declared.legality.TheConstants.{MOST_STEPS};
ghost use Rattle.replay_report.specs.Holes.{column_holes};
ghost use Rattle.replay_report.specs.Lines.{columns_of, head_of, limit_column, numbers_line, table_row};

use action_table::{Action, WantMemory};
use craft_settings::Settings;
use craft_state::State;
use macro_order::seconds;
use std::alloc::{AllocError, Global};
use std::fmt::Write;

/// The first line for at most `MOST_STEPS` actions that end in the state `last`: how many steps and seconds
/// they take, the recipe's progress twice, the quality of `last` and the recipe's quality.
pub fn head(
    alloc: Global,
    g: &Settings,
    actions: &[Action],
    last: &State,
) -> Result<Vec<u8>, WantMemory>
    requires { length actions.now ≤ MOST_STEPS }
    ensures { IfOk result (λ text. text.items ≡ head_of g.now actions.now last.now) }
{
    let line = numbers(alloc, Sums::of(g, actions, last), g.progress)?;
    Ok(line.into_bytes())
}

// What a macro comes to, and the recipe's quality.
pub(crate) struct Sums {
    pub(crate) steps: usize,
    pub(crate) seconds: u32,
    pub(crate) quality: u32,
    pub(crate) most: u32,
}

impl Sums {
    pub(crate) fn of(g: &Settings, actions: &[Action], last: &State) -> Sums
        requires { length actions.now ≤ MOST_STEPS }
        ensures steps { result.steps ≡ length actions.now }
        ensures seconds { result.seconds ≡ seconds_of actions.now }
        ensures quality { result.quality ≡ last.now.quality }
        ensures most { result.most ≡ g.now.quality }
    {
        Sums {
            steps: actions.len(),
            seconds: seconds(actions),
            quality: last.quality,
            most: g.quality,
        }
    }
}

fn numbers(alloc: Global, sums: Sums, progress: u32) -> Result<String, AllocError>
    ensures { IfOk result (λ line. string_bytes line ≡ numbers_line sums.steps sums.seconds progress sums.quality sums.most) }
{
    let Sums {
        steps,
        seconds,
        quality,
        most,
    } = sums;
    format!(in alloc;
        "steps {steps} seconds {seconds} progress {progress}/{progress} quality {quality}/{most}\n"
    )
}

/// One line of the table in the plain style: the number of a step, from 1 to `MOST_STEPS`, its action, and the progress,
/// the quality, the durability and the CP after it.
pub fn table_line(
    alloc: Global,
    number: u32,
    action: Action,
    after: &State,
) -> Result<Vec<u8>, WantMemory>
    requires low { 1 ≤ number }
    requires high { number ≤ MOST_STEPS }
    ensures { IfOk result (λ text. text.items ≡ table_row number action after.now None) }
{
    let mut line = String::new(alloc);
    push_row(&mut line, number, action, after, None)?;
    Ok(line.into_bytes())
}

// Adds one line of the table.
pub(crate) fn push_row(
    text: &mut String,
    number: u32,
    action: Action,
    after: &State,
    limit: Option<u32>,
) -> Result<(), AllocError>
    ensures { OnOk result (string_bytes text.new ≡ string_bytes text.old ++ table_row number action after.now limit) }
{
    push_state(text, number, action, after)?;
    push_limit(text, limit)
}

// Adds the columns of a step.
fn push_state(
    text: &mut String,
    number: u32,
    action: Action,
    after: &State,
) -> Result<(), AllocError>
    ensures { OnOk result (string_bytes text.new ≡ string_bytes text.old ++ columns_of number action after.now) }
{
    let columns = Columns {
        progress: after.progress,
        quality: after.quality,
        durability: after.durability,
        cp: after.cp,
    };
    push_columns(text, number, action.display_name(), columns)
}

// What stands after the name of a step.
struct Columns {
    progress: u32,
    quality: u32,
    durability: u32,
    cp: u32,
}

fn push_columns(
    text: &mut String,
    number: u32,
    name: &str,
    columns: Columns,
) -> Result<(), AllocError>
    ensures { OnOk result (string_bytes text.new ≡ string_bytes text.old
        ++ column_holes number name.now columns.progress columns.quality columns.durability columns.cp) }
{
    let Columns {
        progress,
        quality,
        durability,
        cp,
    } = columns;
    write!(
        text,
        "{number:>3} {name:<20}{progress:>7}{quality:>7}{durability:>4}{cp:>5}"
    )
}

// Adds the last column, where a limit is shown, and the end of the line.
#[tactic(auto, using(crate::proofs::Padding::number_hole_is))]
fn push_limit(text: &mut String, limit: Option<u32>) -> Result<(), AllocError>
    ensures { OnOk result (string_bytes text.new ≡ string_bytes text.old ++ (limit_column limit ++ codes "\n")) }
{
    match limit {
        None => writeln!(text, ""),
        Some(limit) => writeln!(text, "{limit:>7}"),
    }
}
