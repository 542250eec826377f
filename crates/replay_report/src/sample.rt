// The text of a sample craft.
ghost use Rattle.std.specs.Prelude.{◌≡◌, ◌++◌, string_bytes, IfOk};
ghost use Rattle.step_rules.specs.Legality.{start_of};
ghost use Rattle.step_rules.specs.Macro.{Completes};
ghost use Rattle.replay_report.specs.Sample.{sample_line, sample_none_of, sample_report_of, sums_line};

use crate::counts::total;
use crate::lines::Sums;
use action_table::{Action, WantMemory};
use craft_settings::Settings;
use std::alloc::{AllocError, Global};
use step_rules::{replay, start};

/// The two lines of a sample craft and a macro that completes it: the sample's number and its settings, and then the
/// macro's steps and seconds, the quality of its last state and the recipe's, and how many prefixes the levels of the
/// search kept together.
pub fn sample_report(
    alloc: Global,
    number: u32,
    g: &Settings,
    actions: &[Action],
    counts: &[u64],
) -> Result<Vec<u8>, WantMemory>
    requires { Completes g.now (start_of g.now) actions.now }
    ensures { IfOk result (λ text. text.items ≡ sample_report_of number g.now counts.now actions.now) }
{
    let Ok(last) = replay(g, &start(g), actions) else {
        unreachable!()
    };
    let line = sums_text(alloc, Sums::of(g, actions, &last), total(counts))?;
    with_settings(alloc, number, g, line.as_bytes())
}

/// The two lines of a sample craft that no legal macro completes: the sample's number and its settings, and `none`.
pub fn sample_none(alloc: Global, number: u32, g: &Settings) -> Result<Vec<u8>, WantMemory>
    ensures { IfOk result (λ text. text.items ≡ sample_none_of number g.now) }
{
    with_settings(alloc, number, g, b"none\n")
}

// The line of a sample's number and settings, and then another line.
fn with_settings(
    alloc: Global,
    number: u32,
    g: &Settings,
    line: &[u8],
) -> Result<Vec<u8>, WantMemory>
    ensures { IfOk result (λ text. text.items ≡ sample_line number g.now ++ line.now) }
{
    let mut text = settings_text(alloc, number, g)?.into_bytes();
    text.extend_from_slice(line)?;
    Ok(text)
}

fn settings_text(alloc: Global, number: u32, g: &Settings) -> Result<String, AllocError>
    ensures { IfOk result (λ line. string_bytes line ≡ sample_line number g.now) }
{
    format!(in alloc;
        "sample {number} level {} cp {} durability {} progress {} quality {} base {} {}\n",
        g.level, g.cp, g.durability, g.progress, g.quality, g.base_progress, g.base_quality
    )
}

fn sums_text(alloc: Global, sums: Sums, kept: u128) -> Result<String, AllocError>
    ensures { IfOk result (λ line. string_bytes line ≡ sums_line sums.steps sums.seconds sums.quality sums.most kept) }
{
    let Sums {
        steps,
        seconds,
        quality,
        most,
    } = sums;
    format!(in alloc; "steps {steps} seconds {seconds} quality {quality}/{most} kept {kept}\n")
}
