// The first statement that is refused.
ghost use Rattle.std.specs.Prelude.{◌≡◌, ◌<◌, length};
ghost use Rattle.design_ir.specs.Guards.{statement_exprs, choices_exprs, block_exprs};
ghost use Rattle.design_ir.specs.Named.{AllBelow};
ghost use Rattle.design_ir.specs.Statements.{statement_of};
ghost use Rattle.fragment_walks.specs.Numbers.{bounded, is_below};
ghost use Rattle.clock_domains.specs.Stops.{statement_stop, choices_stop, block_stop, target_stop};

use crate::stop::ResolveStop;
use amh_host::Place;
use design_ir::{Arms, ExprId, Stmt, Stmts};

// Whether there is a number, and it is below this one.
fn is_below(number: usize, least: Option<usize>) -> bool
    ensures { result ≡ is_below number least }
{
    match least {
        Some(first) => first < number,
        None => false,
    }
}

// Why an assignment is refused: an input is told before a signal that an earlier process drives.
fn target_stop(
    on_inputs: &[bool],
    leasts: &[Option<usize>],
    number: usize,
    target: ExprId,
    place: Place,
) -> Option<ResolveStop>
    requires inputs { target.0 < length on_inputs.now }
    requires leasts { target.0 < length leasts.now }
    ensures { result ≡ target_stop on_inputs.now (bounded number leasts.now) target.0 place }
{
    let target = target.0 as usize;
    if on_inputs[target] {
        Some(ResolveStop::DrivenInput(place))
    } else if is_below(number, leasts[target]) {
        Some(ResolveStop::TwoDrivers(place))
    } else {
        None
    }
}

/// Why the first of these statements is refused that is: by marks of the targets that stand for inputs, and for each target
/// by the first process that drives what it stands for.
#[cycle(stops)]
pub fn block_stop(
    on_inputs: &[bool],
    leasts: &[Option<usize>],
    number: usize,
    body: &Stmts,
) -> Option<ResolveStop>
    requires inputs { AllBelow (length on_inputs.now) (block_exprs body.now) }
    requires leasts { AllBelow (length leasts.now) (block_exprs body.now) }
    ensures { result ≡ block_stop (target_stop on_inputs.now (bounded number leasts.now)) body.now }
{
    for statement in body.as_slice() {
        if let Some(stop) = statement_stop(on_inputs, leasts, number, statement) {
            return Some(stop);
        }
    }
    None
}

#[cycle(stops)]
fn statement_stop(
    on_inputs: &[bool],
    leasts: &[Option<usize>],
    number: usize,
    statement: &Stmt,
) -> Option<ResolveStop>
    requires inputs { AllBelow (length on_inputs.now) (statement_exprs (statement_of statement.now)) }
    requires leasts { AllBelow (length leasts.now) (statement_exprs (statement_of statement.now)) }
    ensures { result ≡ statement_stop (target_stop on_inputs.now (bounded number leasts.now)) (statement_of statement.now) }
{
    match statement {
        Stmt::Assign { target, place, .. } => {
            target_stop(on_inputs, leasts, number, *target, *place)
        }
        Stmt::Choose(arms) => choices_stop(on_inputs, leasts, number, arms),
    }
}

#[cycle(stops)]
fn choices_stop(
    on_inputs: &[bool],
    leasts: &[Option<usize>],
    number: usize,
    arms: &Arms,
) -> Option<ResolveStop>
    requires inputs { AllBelow (length on_inputs.now) (choices_exprs arms.now) }
    requires leasts { AllBelow (length leasts.now) (choices_exprs arms.now) }
    ensures { result ≡ choices_stop (target_stop on_inputs.now (bounded number leasts.now)) arms.now }
{
    for arm in arms.as_slice() {
        if let Some(stop) = block_stop(on_inputs, leasts, number, &arm.body) {
            return Some(stop);
        }
    }
    None
}
