// Whether statements stand over expressions that are there, with targets that are marked.
ghost use Rattle.std.specs.Prelude.{◌≡◌, map};
ghost use Rattle.design_ir.specs.Statements.{statement_of, block_of, choices_of};
ghost use Rattle.design_table.specs.Tests.{is_at, statement_fits, block_fits, choices_fit};

use crate::tables::is_at;
use design_ir::{Arm, Stmt};

/// Whether statements have targets that are marked, and name no expression past these.
#[cycle(fits)]
pub fn block_fits(marks: &[bool], count: u32, body: &[Stmt]) -> bool
    ensures { result ≡ block_fits (is_at marks.now) count (block_of body.now) }
{
    match body {
        [] => true,
        [s, rest @ ..] => statement_fits(marks, count, s) && block_fits(marks, count, rest),
    }
}

#[cycle(fits)]
fn statement_fits(marks: &[bool], count: u32, s: &Stmt) -> bool
    ensures { result ≡ statement_fits (is_at marks.now) count (statement_of s.now) }
{
    match s {
        Stmt::Assign { target, value, .. } => {
            is_at(marks, target.0) && target.0 < count && value.0 < count
        }
        Stmt::Choose(arms) => choices_fit(marks, count, arms.as_slice()),
    }
}

#[cycle(fits)]
fn choices_fit(marks: &[bool], count: u32, arms: &[Arm]) -> bool
    ensures { result ≡ choices_fit (is_at marks.now) count (choices_of arms.now) }
{
    match arms {
        [] => true,
        [arm, rest @ ..] => {
            arm.condition.0 < count
                && block_fits(marks, count, arm.body.as_slice())
                && choices_fit(marks, count, rest)
        }
    }
}
