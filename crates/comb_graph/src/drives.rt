// The targets of the assignments of combinational processes.
ghost use Rattle.std.specs.Prelude.{◌≡◌, ◌<◌, ◌∷◌, [], length};
ghost use Rattle.std.specs.List.{flat_map};
ghost use Rattle.design_ir.specs.Guards.{statement_exprs, choices_exprs, block_exprs};
ghost use Rattle.design_ir.specs.Named.{AllBelow};
ghost use Rattle.design_ir.specs.Statements.{statement_of};
ghost use Rattle.comb_graph.specs.CombTargets.{IsMarked, block_targets, statement_targets, choices_targets, comb_targets};

use design_ir::{Arms, Design, DesignProcess, Stmt, Stmts};

/// Marks a number.
pub fn mark(marks: &mut Vec<bool>, n: usize)
    requires { n < length marks.old.items }
    ensures { IsMarked (n ∷ []) marks.old.items marks.new.items }
{
    marks[n] = true;
}

// Marks the targets of statements.
#[cycle(drives)]
fn mark_block(exprs: &mut Vec<bool>, body: &Stmts)
    requires { AllBelow (length exprs.old.items) (block_exprs body.now) }
    ensures { IsMarked (block_targets body.now) exprs.old.items exprs.new.items }
{
    for statement in body.as_slice() {
        mark_statement(exprs, statement);
    }
}

#[cycle(drives)]
fn mark_statement(exprs: &mut Vec<bool>, statement: &Stmt)
    requires { AllBelow (length exprs.old.items) (statement_exprs (statement_of statement.now)) }
    ensures { IsMarked (statement_targets (statement_of statement.now)) exprs.old.items exprs.new.items }
{
    match statement {
        Stmt::Assign { target, .. } => mark(exprs, target.0 as usize),
        Stmt::Choose(arms) => mark_arms(exprs, arms),
    }
}

#[cycle(drives)]
fn mark_arms(exprs: &mut Vec<bool>, arms: &Arms)
    requires { AllBelow (length exprs.old.items) (choices_exprs arms.now) }
    ensures { IsMarked (choices_targets arms.now) exprs.old.items exprs.new.items }
{
    for arm in arms.as_slice() {
        mark_block(exprs, &arm.body);
    }
}

// Marks the targets of a process, where it is combinational.
fn mark_process(exprs: &mut Vec<bool>, process: &DesignProcess)
    requires { AllBelow (length exprs.old.items) (block_exprs process.now.body) }
    ensures { IsMarked (comb_targets process.now) exprs.old.items exprs.new.items }
{
    match process.domain {
        Some(_) => {}
        None => mark_block(exprs, &process.body),
    }
}

/// Marks the targets of the combinational processes of a design.
pub fn mark_processes(design: &Design, exprs: &mut Vec<bool>)
    requires { length exprs.old.items ≡ length design.now.pool.exprs }
    ensures { IsMarked (flat_map comb_targets design.now.processes) exprs.old.items exprs.new.items }
{
    for process in design.processes().as_slice() {
        mark_process(exprs, process);
    }
}
