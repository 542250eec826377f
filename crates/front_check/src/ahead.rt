// The prefixes that the rows of a level keep.
ghost use Rattle.std.specs.Prelude.{◌≡◌, ◌++◌, IfOk, OnOk, All, IsTrue, length};
ghost use Rattle.step_rules.specs.Legality.{is_legal};
ghost use Rattle.certificate_text.specs.Text.{line_end, parts};
ghost use Rattle.certificate_laws.specs.Claims.{kept_of};
ghost use Rattle.certificate_laws.specs.Lines.{Keeps};
ghost use Rattle.front_check.specs.Judging.{CanGoOn, IsPushed, kept_child};

use crate::kept::Kept;
use action_table::Action;
use certificate_text::{Verdict, end_of, read_row};
use craft_settings::Settings;
use std::alloc::{AllocError, Global};

const LINE_END: u8 = b'\n';

/// The prefixes that the rows of a level keep, as far as each line is one verdict for each legal action.
pub(crate) fn look_ahead(
    alloc: Global,
    g: &Settings,
    kept: &[Kept],
    text: &[u8],
) -> Result<Vec<Kept>, AllocError>
    requires { All (CanGoOn g.now) kept.now }
    ensures { IfOk result (λ next. Keeps g.now kept.now (parts line_end text.now) next.items) }
{
    let mut next = Vec::new(alloc);
    let mut from = 0;
    for place in 0..kept.len() {
        let p = &kept[place];
        let rest = &text[from..];
        match end_of(rest, LINE_END) {
            Some(end) => {
                let fits = push_row(&mut next, alloc, g, p, &rest[..end])?;
                if !fits {
                    return Ok(next);
                }
                from += end + 1;
            }
            None => {
                let _last = push_row(&mut next, alloc, g, p, rest)?;
                return Ok(next);
            }
        }
    }
    Ok(next)
}

// Appends the prefixes that a line keeps, if it is one verdict for each legal action.
fn push_row(
    next: &mut Vec<Kept>,
    alloc: Global,
    g: &Settings,
    p: &Kept,
    line: &[u8],
) -> Result<bool, AllocError>
    requires { CanGoOn g.now p.now }
    ensures { IfOk result (λ fits. IsPushed g.now p.now line.now next.old.items next.new.items fits) }
{
    let actions = p.legal(alloc, g);
    let listed = actions.as_slice();
    let found = read_row(alloc, line, listed.len())?;
    match found {
        Some(row) => {
            let verdicts = row.as_slice();
            push_kept(next, g, p, listed, verdicts)?;
            Ok(true)
        }
        None => Ok(false),
    }
}

// Appends the prefixes that a row keeps.
fn push_kept(
    next: &mut Vec<Kept>,
    g: &Settings,
    p: &Kept,
    actions: &[Action],
    row: &[Verdict],
) -> Result<(), AllocError>
    requires p { CanGoOn g.now p.now }
    requires legal { All (λ action. IsTrue (is_legal g.now p.now.state action)) actions.now }
    requires each { length row.now ≡ length actions.now }
    ensures { OnOk result (next.new.items ≡ next.old.items ++ kept_of g.now p.now actions.now row.now) }
{
    for place in 0..actions.len() {
        push_child(next, g, p, actions[place], row[place])?;
    }
    Ok(())
}

// Appends the prefix with one action more, if its verdict keeps it.
fn push_child(
    next: &mut Vec<Kept>,
    g: &Settings,
    p: &Kept,
    action: Action,
    verdict: Verdict,
) -> Result<(), AllocError>
    requires p { CanGoOn g.now p.now }
    requires legal { IsTrue (is_legal g.now p.now.state action) }
    ensures { OnOk result (next.new.items ≡ next.old.items ++ kept_child g.now p.now action verdict) }
{
    if let Verdict::Kept = verdict {
        let alloc = *next.allocator();
        let child = p.extended(alloc, g, action)?;
        next.push(child)?;
    }
    Ok(())
}
