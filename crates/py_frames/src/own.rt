// The names that are a function's or a class body's own: those that its code binds, in the order of the text.
ghost use Rattle.std.specs.Prelude.{◌≡◌, ◌++◌, ◌∷◌, [], map, OnOk, IfOk, option_map};
ghost use Rattle.py_tree.specs.Seen.{tree};
ghost use Rattle.py_tree.specs.Tree.{trees, perhaps, absent};
ghost use Rattle.py_tree.specs.Steps.{steps, branches, else_of};
ghost use Rattle.py_tree.specs.Programs.{import_of, parameter_of, step_of, steps_of, branch_of, body_of};
ghost use Rattle.py_frames.specs.Own.{is_simple, annotated_names, target_names, targets_names, perhaps_names, import_bound, step_names, steps_names, branches_names, else_names, parameter_names, function_names};

use amh_host::{Names, NoMemory, Place};
use py_tree::{Block, Branch, Expr, ExprKind, Function, Imported, Param, Stmt, StmtKind};
use std::alloc::Global;

/// The names that the statements of a block bind, but for those in functions and classes among them.
pub fn own_names(alloc: Global, body: &Block) -> Result<Names, NoMemory>
    ensures { IfOk result (λ names. names ≡ steps_names (steps_of body.now)) }
{
    let mut names = Names::new(alloc);
    match add_block(&mut names, body) {
        Ok(()) => Ok(names),
        Err(_) => Err(NoMemory),
    }
}

/// A function's own names: its parameters, and what its body binds.
pub fn function_names(alloc: Global, f: &Function) -> Result<Names, NoMemory>
    ensures { IfOk result (λ names. names ≡ function_names (body_of f.now)) }
{
    let mut names = Names::new(alloc);
    let Ok(()) = add_params(&mut names, f.params.as_slice()) else {
        return Err(NoMemory);
    };
    match add_block(&mut names, &f.body) {
        Ok(()) => Ok(names),
        Err(_) => Err(NoMemory),
    }
}

#[tactic(auto, using(crate::proofs::OwnLaws::flat_map_params))]
fn add_params(names: &mut Names, params: &[Param]) -> Result<(), NoMemory>
    ensures { OnOk result (names.new ≡ names.old ++ parameter_names (map parameter_of params.now)) }
{
    for param in params {
        let Ok(()) = add_param(names, param) else {
            return Err(NoMemory);
        };
    }
    Ok(())
}

fn add_param(names: &mut Names, param: &Param) -> Result<(), NoMemory>
    ensures { OnOk result (names.new ≡ names.old ++ parameter_names (parameter_of param.now ∷ [])) }
{
    match param {
        Param::Named { name, .. } => names.push(name.as_str()),
        Param::Star(_) => Ok(()),
    }
}

#[cycle(block)]
fn add_block(names: &mut Names, block: &Block) -> Result<(), NoMemory>
    ensures { OnOk result (names.new ≡ names.old ++ steps_names (steps_of block.now)) }
{
    add_stmts(names, block.stmts.as_slice())
}

#[cycle(block)]
#[tactic(auto, using(crate::proofs::OwnLaws::flat_map_stmts))]
fn add_stmts(names: &mut Names, stmts: &[Stmt]) -> Result<(), NoMemory>
    ensures { OnOk result (names.new ≡ names.old ++ steps_names (steps (map step_of stmts.now))) }
{
    for stmt in stmts {
        let Ok(()) = add_stmt(names, stmt) else {
            return Err(NoMemory);
        };
    }
    Ok(())
}

#[cycle(block)]
fn add_stmt(names: &mut Names, stmt: &Stmt) -> Result<(), NoMemory>
    ensures { OnOk result (names.new ≡ names.old ++ step_names (step_of stmt.now)) }
{
    match &*stmt.kind {
        StmtKind::Import(_, imported) => add_imported(names, imported.as_slice()),
        StmtKind::Assign(targets, _) => add_targets(names, targets.as_slice()),
        StmtKind::Annotate { target, value, .. } => {
            add_annotated(names, stmt.place, target, value)
        }
        StmtKind::Augment(target, _, _) => add_target(names, target),
        StmtKind::If(all, other) => match add_branches(names, all.as_slice()) {
            Ok(()) => add_other(names, other),
            Err(_) => Err(NoMemory),
        },
        StmtKind::While(_, body) => add_block(names, body),
        StmtKind::For { targets, body, .. } => match add_target(names, targets) {
            Ok(()) => add_block(names, body),
            Err(_) => Err(NoMemory),
        },
        StmtKind::With { target, body, .. } => match add_perhaps(names, target) {
            Ok(()) => add_block(names, body),
            Err(_) => Err(NoMemory),
        },
        StmtKind::Def(f) => names.push(f.name.as_str()),
        StmtKind::Class { name, .. } => names.push(name.as_str()),
        _ => Ok(()),
    }
}

#[cycle(block)]
fn add_other(names: &mut Names, other: &Option<Block>) -> Result<(), NoMemory>
    ensures { OnOk result (names.new ≡ names.old ++ else_names (else_of (option_map steps_of other.now))) }
{
    match other {
        Some(block) => add_block(names, block),
        None => Ok(()),
    }
}

#[cycle(block)]
#[tactic(auto, using(crate::proofs::OwnLaws::flat_map_branches))]
fn add_branches(names: &mut Names, all: &[Branch]) -> Result<(), NoMemory>
    ensures { OnOk result (names.new ≡ names.old ++ branches_names (branches (map branch_of all.now))) }
{
    for branch in all {
        let Ok(()) = add_block(names, &branch.body) else {
            return Err(NoMemory);
        };
    }
    Ok(())
}

// What an annotation binds.
fn add_annotated(
    names: &mut Names,
    place: Place,
    target: &Expr,
    value: &Option<Expr>,
) -> Result<(), NoMemory>
    ensures { OnOk result (names.new ≡ names.old ++ annotated_names place (tree target.now) (perhaps (option_map tree value.now))) }
{
    match value {
        Some(_) => add_target(names, target),
        None => add_simple(names, place, target),
    }
}

fn add_simple(names: &mut Names, place: Place, target: &Expr) -> Result<(), NoMemory>
    ensures { OnOk result (names.new ≡ names.old ++ annotated_names place (tree target.now) absent) }
{
    if is_simple(place, target) {
        add_target(names, target)
    } else {
        Ok(())
    }
}

/// Whether the target of an annotation at a place is a name without brackets.
pub fn is_simple(place: Place, target: &Expr) -> bool
    ensures { result ≡ is_simple place (tree target.now) }
{
    match &*target.kind {
        ExprKind::Name(_) => place == target.place,
        _ => false,
    }
}

fn add_perhaps(names: &mut Names, target: &Option<Expr>) -> Result<(), NoMemory>
    ensures { OnOk result (names.new ≡ names.old ++ perhaps_names (perhaps (option_map tree target.now))) }
{
    match target {
        Some(target) => add_target(names, target),
        None => Ok(()),
    }
}

fn add_imported(names: &mut Names, imported: &[Imported]) -> Result<(), NoMemory>
    ensures { OnOk result (names.new ≡ names.old ++ map import_bound (map import_of imported.now)) }
{
    for one in imported {
        let Ok(()) = names.push(bound_as(one)) else {
            return Err(NoMemory);
        };
    }
    Ok(())
}

/// The name as which an imported name is bound.
pub fn bound_as(one: &Imported) -> &str
    ensures { result.now ≡ import_bound (import_of one.now) }
{
    match &one.bound {
        Some(bound) => bound.as_str(),
        None => one.name.as_str(),
    }
}

/// Adds the names that a target binds.
#[cycle(target)]
pub fn add_target(names: &mut Names, target: &Expr) -> Result<(), NoMemory>
    ensures { OnOk result (names.new ≡ names.old ++ target_names (tree target.now)) }
{
    match &*target.kind {
        ExprKind::Name(name) => names.push(name.as_str()),
        ExprKind::Tuple(items) => add_targets(names, items.as_slice()),
        _ => Ok(()),
    }
}

#[cycle(target)]
#[tactic(auto, using(crate::proofs::OwnLaws::flat_map_targets))]
fn add_targets(names: &mut Names, targets: &[Expr]) -> Result<(), NoMemory>
    ensures { OnOk result (names.new ≡ names.old ++ targets_names (trees (map tree targets.now))) }
{
    for target in targets {
        let Ok(()) = add_target(names, target) else {
            return Err(NoMemory);
        };
    }
    Ok(())
}
