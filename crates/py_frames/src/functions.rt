// The functions of a program, by the places of their statements, with the names that are their own.
ghost use Rattle.std.specs.Prelude.{◌≡◌, ◌++◌, map, slice_get, OnOk, IfOk, option_map};
ghost use Rattle.std.specs.List.{find};
ghost use Rattle.std.specs.Option.{option_copied};
ghost use Rattle.py_tree.specs.Programs.{step_of, steps_of, branch_of, body_of};
ghost use Rattle.py_tree.specs.Steps.{steps, branches, else_of};
ghost use Rattle.py_frames.specs.Functions.{same_place, function_at, body_place};
ghost use Rattle.py_frames.specs.Tables.{functions_in, functions_in_step, functions_in_branches, functions_in_else, functions_in_body, described, known_body, spot_at, AreSpots, IsTable};

use crate::own::function_names;
use crate::spots::{Spot, spot_of, spots_of};
use amh_host::{NoMemory, Place};
use indexmap::IndexSet;
use py_tree::{Block, Branch, Function, Stmt, StmtKind};
use py_values::OwnNames;
use std::alloc::Global;
use std::rc::Rc;

/// A function, and the names that are its own.
#[derive(Drop)]
pub struct KnownFunction {
    pub function: Rc<Function>,
    pub own: OwnNames,
}

/// The functions of a program, and an index of the places at which they stand.
#[derive(Drop)]
pub struct Functions {
    pub program: Block,
    pub table: Vec<KnownFunction>,
    pub spots: IndexSet<Spot>,
}

impl Functions {
    /// The functions of these statements.
    pub fn of(alloc: Global, program: &Block) -> Result<Functions, NoMemory>
        ensures table { IfOk result IsTable }
        ensures program { IfOk result (λ f. steps_of f.program ≡ steps_of program.now) }
    {
        let Ok(kept) = program.share() else {
            return Err(NoMemory);
        };
        let mut table = Vec::new(alloc);
        match add_block(program, alloc, &mut table) {
            Ok(()) => Ok(Functions {
                program: kept,
                spots: spots_of(alloc, table.as_slice()),
                table,
            }),
            Err(_) => Err(NoMemory),
        }
    }

    /// The function whose statement stands at a place, the first in the order of the text.
    #[tactic(auto, using(crate::proofs::TableLaws::found_function))]
    pub fn find(&self, place: Place) -> Option<&KnownFunction>
        requires { IsTable self.now }
        ensures { option_map known_body (option_copied result) ≡ option_map described (function_at place (steps_of self.now.program)) }
    {
        self.first_at(place)
    }

    // The first of the table that stands at a place.
    fn first_at(&self, place: Place) -> Option<&KnownFunction>
        requires { AreSpots self.now.spots.keys self.now.table.items }
        ensures { option_copied result ≡ find (λ x. same_place place (body_place (known_body x).0)) self.now.table.items }
    {
        if self.spots.len() == self.table.len() {
            self.indexed(place)
        } else {
            self.table.iter().find(|known| is_at(known, place))
        }
    }

    // The same, where each function stands at a place of its own.
    fn indexed(&self, place: Place) -> Option<&KnownFunction>
        requires { self.now.spots.keys ≡ map spot_at self.now.table.items }
        ensures { option_copied result ≡ find (λ x. same_place place (body_place (known_body x).0)) self.now.table.items }
    {
        match self.spots.get_index_of(&spot_of(place)) {
            Some(number) => self.at(number),
            None => None,
        }
    }

    // The function of a number.
    fn at(&self, number: usize) -> Option<&KnownFunction>
        ensures { option_copied result ≡ slice_get self.now.table.items number }
    {
        self.table.get(number)
    }
}

// Whether a function's statement stands at a place.
fn is_at(known: &KnownFunction, place: Place) -> bool
    ensures { result ≡ same_place place (body_place (known_body known.now).0) }
{
    place == known.function.place
}

// Adds the functions of a block, each before those in its body.
#[cycle(block)]
fn add_block(block: &Block, alloc: Global, table: &mut Vec<KnownFunction>) -> Result<(), NoMemory>
    ensures { OnOk result (map known_body table.new.items ≡ map known_body table.old.items ++ map described (functions_in (steps_of block.now))) }
{
    add_stmts(block.stmts.as_slice(), alloc, table)
}

#[cycle(block)]
#[tactic(auto, using(crate::proofs::TableLaws::flat_map_stmts))]
fn add_stmts(stmts: &[Stmt], alloc: Global, table: &mut Vec<KnownFunction>) -> Result<(), NoMemory>
    ensures { OnOk result (map known_body table.new.items ≡ map known_body table.old.items ++ map described (functions_in (steps (map step_of stmts.now)))) }
{
    for stmt in stmts {
        let Ok(()) = add_stmt(stmt, alloc, table) else {
            return Err(NoMemory);
        };
    }
    Ok(())
}

#[cycle(block)]
#[tactic(auto, using(crate::proofs::TableLaws::described_append))]
fn add_stmt(stmt: &Stmt, alloc: Global, table: &mut Vec<KnownFunction>) -> Result<(), NoMemory>
    ensures { OnOk result (map known_body table.new.items ≡ map known_body table.old.items ++ map described (functions_in_step (step_of stmt.now))) }
{
    match &*stmt.kind {
        StmtKind::If(all, other) => match add_branches(all.as_slice(), alloc, table) {
            Ok(()) => add_other(other, alloc, table),
            Err(_) => Err(NoMemory),
        },
        StmtKind::While(_, body) => add_block(body, alloc, table),
        StmtKind::For { body, .. } => add_block(body, alloc, table),
        StmtKind::With { body, .. } => add_block(body, alloc, table),
        StmtKind::Def(f) => add_function(f, alloc, table),
        StmtKind::Class { body, .. } => add_block(body, alloc, table),
        _ => Ok(()),
    }
}

#[cycle(block)]
fn add_other(
    other: &Option<Block>,
    alloc: Global,
    table: &mut Vec<KnownFunction>,
) -> Result<(), NoMemory>
    ensures { OnOk result (map known_body table.new.items ≡ map known_body table.old.items ++ map described (functions_in_else (else_of (option_map steps_of other.now)))) }
{
    match other {
        Some(block) => add_block(block, alloc, table),
        None => Ok(()),
    }
}

#[cycle(block)]
#[tactic(auto, using(crate::proofs::TableLaws::flat_map_branches))]
fn add_branches(
    all: &[Branch],
    alloc: Global,
    table: &mut Vec<KnownFunction>,
) -> Result<(), NoMemory>
    ensures { OnOk result (map known_body table.new.items ≡ map known_body table.old.items ++ map described (functions_in_branches (branches (map branch_of all.now)))) }
{
    for branch in all {
        let Ok(()) = add_block(&branch.body, alloc, table) else {
            return Err(NoMemory);
        };
    }
    Ok(())
}

// Adds a function, and then those in its body.
#[cycle(block)]
fn add_function(
    f: &Rc<Function>,
    alloc: Global,
    table: &mut Vec<KnownFunction>,
) -> Result<(), NoMemory>
    ensures { OnOk result (map known_body table.new.items ≡ map known_body table.old.items ++ map described (functions_in_body (body_of f.now.value))) }
{
    let Ok(known) = known_function(alloc, f) else {
        return Err(NoMemory);
    };
    let Ok(()) = table.push(known) else {
        return Err(NoMemory);
    };
    add_block(&f.body, alloc, table)
}

fn known_function(alloc: Global, f: &Rc<Function>) -> Result<KnownFunction, NoMemory>
    ensures { IfOk result (λ known. known_body known ≡ described (body_of f.now.value)) }
{
    let Ok(names) = function_names(alloc, f) else {
        return Err(NoMemory);
    };
    let Ok(own) = OwnNames::new(alloc, names) else {
        return Err(NoMemory);
    };
    match f.clone() {
        Ok(function) => Ok(KnownFunction { function, own }),
        Err(_) => Err(NoMemory),
    }
}
