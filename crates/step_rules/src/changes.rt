ghost use Rattle.std.specs.Prelude.{◌≡◌, ◌≤◌, ◌+◌, ◌*◌, ◌%◌, IsTrue};
ghost use Rattle.step_rules.specs.Legality.{is_legal, IsWithin};
ghost use Rattle.step_rules.specs.Measure.{measure};
ghost use Rattle.step_rules.specs.Step.{acted_of, settled_of, step_of, progress_efficiency, progress_after, quality_after, used_effects, upkeep, mend};

use crate::legality::is_final;
use action_table::{Action, row};
use combo_effects::{after, cp_cost, quality_efficiency, stacks_after, tick, wear};
use craft_numbers::{cap_add, progress_gain, quality_gain};
use craft_settings::Settings;
use craft_state::{Effects, Perfection, State};

/// The state after a legal action. Each step lowers the measure by at least 4, so a craft ends.
pub fn step(g: &Settings, s: &State, action: Action) -> State
    requires legal { IsTrue (is_legal g.now s.now action) }
    requires within { IsWithin g.now s.now }
    ensures value { result ≡ step_of g.now s.now action }
    ensures within { IsWithin g.now result }
    ensures falls { measure result + 4 ≤ measure s.now }
{
    next_state(g, s, action)
}

// The same, without the measure.
#[tactic(auto, unfolding(crate::specs::Step::step_of))]
fn next_state(g: &Settings, s: &State, action: Action) -> State
    requires legal { IsTrue (is_legal g.now s.now action) }
    requires within { IsWithin g.now s.now }
    ensures value { result ≡ step_of g.now s.now action }
    ensures within { IsWithin g.now result }
{
    let acted = act(g, s, action);
    if is_final(g, &acted) {
        acted
    } else {
        settle(g, &s.effects, action, &acted)
    }
}

// The price, the wear, the quality and the progress.
#[tactic(auto, unfolding(crate::specs::Step::acted_of))]
fn act(g: &Settings, s: &State, action: Action) -> State
    requires legal { IsTrue (is_legal g.now s.now action) }
    requires within { IsWithin g.now s.now }
    ensures value { result ≡ acted_of g.now s.now action }
    ensures within { IsWithin g.now result }
{
    let row = row(action, g.level);
    State {
        cp: s.cp - cp_cost(action, g.level, s.effects.combo),
        durability: s
            .durability
            .saturating_sub(wear(row.durability, &s.effects)),
        progress: next_progress(g, s, action),
        quality: next_quality(g, s, action),
        effects: use_effects(g, &s.effects, action),
    }
}

// The progress after the action's own gain.
fn next_progress(g: &Settings, s: &State, action: Action) -> u32
    requires { IsWithin g.now s.now }
    ensures value { result ≡ progress_after g.now s.now action }
    ensures within { result ≤ g.now.progress }
{
    let row = row(action, g.level);
    if row.progress == 0 {
        return s.progress;
    }
    let gain = progress_gain(
        g.base_progress,
        progress_efficiency(g, s, action),
        s.effects.veneration > 0,
        s.effects.muscle > 0,
    );
    cap_add(s.progress, gain, g.progress)
}

// The progress efficiency, halved for Groundwork where the durability doesn't last.
fn progress_efficiency(g: &Settings, s: &State, action: Action) -> u32
    ensures value { result ≡ progress_efficiency g.now s.now action }
    ensures range { result ≤ 400 }
{
    let row = row(action, g.level);
    match action {
        Action::Groundwork if s.durability < wear(row.durability, &s.effects) => row.progress / 2,
        _ => row.progress,
    }
}

// The quality after the action's own gain.
fn next_quality(g: &Settings, s: &State, action: Action) -> u32
    requires { IsWithin g.now s.now }
    ensures value { result ≡ quality_after g.now s.now action }
    ensures within { result ≤ g.now.quality }
{
    match action {
        Action::TrainedEye => return g.quality,
        _ if row(action, g.level).quality == 0 => return s.quality,
        _ => {}
    }
    let effects = &s.effects;
    let gain = quality_gain(
        g.base_quality,
        quality_efficiency(action, g.level, effects.iq),
        effects.iq,
        effects.innovation > 0,
        effects.strides > 0,
    );
    cap_add(s.quality, gain, g.quality)
}

// The effects after the price, the wear, the quality and the progress.
fn use_effects(g: &Settings, effects: &Effects, action: Action) -> Effects
    ensures { result ≡ used_effects g.now effects.now action }
{
    let row = row(action, g.level);
    let mut next = *effects;
    if row.quality > 0 {
        next.iq = stacks_after(action, g.level, effects.iq, effects.combo);
        next.strides = 0;
    }
    if row.progress > 0 {
        next.muscle = 0;
    }
    if effects.perfection == Perfection::On && row.durability > 0 {
        next.perfection = Perfection::Spent;
    }
    next.first = false;
    next
}

// Upkeep, time, the action's own effect and the combo.
#[tactic(auto, unfolding(crate::specs::Step::settled_of))]
fn settle(g: &Settings, before: &Effects, action: Action, acted: &State) -> State
    requires { IsWithin g.now acted.now }
    ensures value { result ≡ settled_of g.now before.now action acted.now }
    ensures within { IsWithin g.now result }
{
    let kept = cap_add(acted.durability, upkeep_of(before, action), g.durability);
    State {
        cp: acted.cp,
        durability: cap_add(kept, mend_of(g, action), g.durability),
        progress: acted.progress,
        quality: acted.quality,
        effects: after(&tick(&acted.effects), action),
    }
}

// The durability that Manipulation gives back.
fn upkeep_of(before: &Effects, action: Action) -> u32
    ensures value { result ≡ upkeep before.now action }
    ensures range { result ≤ 5 }
    ensures fives { result % 5 ≡ 0 }
{
    match action {
        Action::Manipulation => 0,
        _ if before.manipulation > 0 => 5,
        _ => 0,
    }
}

// The durability that the action itself gives back.
fn mend_of(g: &Settings, action: Action) -> u32
    ensures value { result ≡ mend g.now action }
    ensures range { result ≤ 100 }
    ensures fives { result % 5 ≡ 0 }
{
    match action {
        Action::MastersMend => 30,
        Action::ImmaculateMend => g.durability,
        _ => 0,
    }
}
