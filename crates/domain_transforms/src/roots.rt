// Marks of the expressions of a fragment and of all below it, and of what stands in them.
ghost use Rattle.std.specs.Prelude.{◌≡◌, ◌<◌, ◌+◌, ◌∷◌, [], ℕ, false, length, IfOk};
ghost use Rattle.std.specs.List.{flat_map};
ghost use Rattle.design_ir.specs.declared.process.Process.{Process};
ghost use Rattle.design_ir.specs.Fragments.{leaf_of};
ghost use Rattle.design_ir.specs.Guards.{block_exprs, choices_exprs, statement_exprs};
ghost use Rattle.design_ir.specs.Named.{AllBelow, named};
ghost use Rattle.design_ir.specs.PoolRules.{IsPool};
ghost use Rattle.design_ir.specs.Statements.{statement_of};
ghost use Rattle.fragment_walks.specs.Marks.{comes_out, is_marked, marked, numbers};
ghost use Rattle.domain_transforms.specs.Placed.{forest_exprs, fragment_exprs, leaf_exprs, memory_exprs, read_exprs, write_exprs};
ghost use Rattle.domain_transforms.specs.Renamed.{inside, is_within};

use amh_host::NoMemory;
use design_ir::{
    Arms, Expr, ExprId, Exprs, Fragment, Fragments, MemRead, MemWrite, Memory, Pool, Process, Stmt,
    Stmts,
};
use std::alloc::Global;

// ---- expressions

fn mark(marks: &mut Vec<bool>, e: ExprId)
    requires { e.0 < length marks.old.items }
    ensures { marks.new.items ≡ marked (e.0 ∷ []) marks.old.items }
{
    marks[e.0 as usize] = true;
}

fn mark_items(marks: &mut Vec<bool>, items: &[ExprId])
    requires { AllBelow (length marks.old.items) items.now }
    ensures { marks.new.items ≡ marked (numbers items.now) marks.old.items }
{
    for e in items {
        mark(marks, *e);
    }
}

// ---- statements

#[cycle(roots)]
fn mark_block(marks: &mut Vec<bool>, body: &Stmts)
    requires { AllBelow (length marks.old.items) (block_exprs body.now) }
    ensures { marks.new.items ≡ marked (numbers (block_exprs body.now)) marks.old.items }
{
    for statement in body.as_slice() {
        mark_statement(marks, statement);
    }
}

#[cycle(roots)]
fn mark_statement(marks: &mut Vec<bool>, statement: &Stmt)
    requires { AllBelow (length marks.old.items) (statement_exprs (statement_of statement.now)) }
    ensures { marks.new.items ≡ marked (numbers (statement_exprs (statement_of statement.now))) marks.old.items }
{
    match statement {
        Stmt::Assign { target, value, .. } => {
            mark(marks, *target);
            mark(marks, *value);
        }
        Stmt::Choose(arms) => mark_arms(marks, arms),
    }
}

#[cycle(roots)]
fn mark_arms(marks: &mut Vec<bool>, arms: &Arms)
    requires { AllBelow (length marks.old.items) (choices_exprs arms.now) }
    ensures { marks.new.items ≡ marked (numbers (choices_exprs arms.now)) marks.old.items }
{
    for arm in arms.as_slice() {
        mark(marks, arm.condition);
        mark_block(marks, &arm.body);
    }
}

fn mark_processes(marks: &mut Vec<bool>, processes: &[Process])
    requires { AllBelow (length marks.old.items) (flat_map (λ (p : Process). block_exprs p.body) processes.now) }
    ensures { marks.new.items ≡ marked (numbers (flat_map (λ (p : Process). block_exprs p.body) processes.now)) marks.old.items }
{
    for process in processes {
        mark_block(marks, &process.body);
    }
}

// ---- memories

fn mark_write(marks: &mut Vec<bool>, write: &MemWrite)
    requires { AllBelow (length marks.old.items) (write_exprs write.now) }
    ensures { marks.new.items ≡ marked (numbers (write_exprs write.now)) marks.old.items }
{
    mark(marks, write.addr);
    mark(marks, write.word);
    mark(marks, write.enable);
}

fn mark_read(marks: &mut Vec<bool>, read: &MemRead)
    requires { AllBelow (length marks.old.items) (read_exprs read.now) }
    ensures { marks.new.items ≡ marked (numbers (read_exprs read.now)) marks.old.items }
{
    mark(marks, read.addr);
    if let Some(enable) = read.enable {
        mark(marks, enable);
    }
}

fn mark_writes(marks: &mut Vec<bool>, writes: &[MemWrite])
    requires { AllBelow (length marks.old.items) (flat_map write_exprs writes.now) }
    ensures { marks.new.items ≡ marked (numbers (flat_map write_exprs writes.now)) marks.old.items }
{
    for write in writes {
        mark_write(marks, write);
    }
}

fn mark_reads(marks: &mut Vec<bool>, reads: &[MemRead])
    requires { AllBelow (length marks.old.items) (flat_map read_exprs reads.now) }
    ensures { marks.new.items ≡ marked (numbers (flat_map read_exprs reads.now)) marks.old.items }
{
    for read in reads {
        mark_read(marks, read);
    }
}

fn mark_memory(marks: &mut Vec<bool>, memory: &Memory)
    requires { AllBelow (length marks.old.items) (memory_exprs memory.now) }
    ensures { marks.new.items ≡ marked (numbers (memory_exprs memory.now)) marks.old.items }
{
    mark_writes(marks, memory.writes.as_slice());
    mark_reads(marks, memory.reads.as_slice());
}

fn mark_memories(marks: &mut Vec<bool>, memories: &[Memory])
    requires { AllBelow (length marks.old.items) (flat_map memory_exprs memories.now) }
    ensures { marks.new.items ≡ marked (numbers (flat_map memory_exprs memories.now)) marks.old.items }
{
    for memory in memories {
        mark_memory(marks, memory);
    }
}

// ---- fragments

fn mark_leaf(marks: &mut Vec<bool>, module: &Fragment)
    requires { AllBelow (length marks.old.items) (leaf_exprs (leaf_of module.now)) }
    ensures { marks.new.items ≡ marked (numbers (leaf_exprs (leaf_of module.now))) marks.old.items }
{
    mark_processes(marks, module.processes.as_slice());
    mark_memories(marks, module.memories.as_slice());
}

#[cycle(fragment_roots)]
fn mark_fragment(marks: &mut Vec<bool>, module: &Fragment)
    requires { AllBelow (length marks.old.items) (fragment_exprs module.now) }
    ensures { marks.new.items ≡ marked (numbers (fragment_exprs module.now)) marks.old.items }
{
    mark_leaf(marks, module);
    mark_all(marks, &module.submodules);
}

#[cycle(fragment_roots)]
fn mark_all(marks: &mut Vec<bool>, modules: &Fragments)
    requires { AllBelow (length marks.old.items) (forest_exprs modules.now) }
    ensures { marks.new.items ≡ marked (numbers (forest_exprs modules.now)) marks.old.items }
{
    for module in modules.as_slice() {
        mark_fragment(marks, module);
    }
}

// ---- what stands in marked expressions

// Marks the parts of an expression.
fn mark_parts(marks: &mut Vec<bool>, e: &Expr)
    requires { AllBelow (length marks.old.items) (named e.now) }
    ensures { marks.new.items ≡ marked (numbers (named e.now)) marks.old.items }
{
    match e {
        Expr::Const { .. } | Expr::Reset { .. } | Expr::Sig(_) => {}
        Expr::Unary { a, .. }
        | Expr::Slice { a, .. }
        | Expr::Cast { a, .. }
        | Expr::Matches { a, .. } => mark(marks, *a),
        Expr::Binary { a, b, .. } => {
            mark(marks, *a);
            mark(marks, *b);
        }
        Expr::Mux { s, a, b } => {
            mark(marks, *s);
            mark(marks, *a);
            mark(marks, *b);
        }
        Expr::Cat(items) => mark_items(marks, items.as_slice()),
        Expr::Part { a, offset, .. } => {
            mark(marks, *a);
            mark(marks, *offset);
        }
        Expr::Pick { index, items } => {
            mark(marks, *index);
            mark_items(marks, items.as_slice());
        }
    }
}

// Hands the mark of an expression down to its parts.
fn spread(pool: &Pool, marks: &mut Vec<bool>, e: ExprId)
    requires rules { IsPool pool.now }
    requires there { e.0 < length pool.now.exprs }
    requires size { length marks.old.items ≡ length pool.now.exprs }
    ensures size { length marks.new.items ≡ length pool.now.exprs }
    ensures reach { (n : ℕ) → n < length pool.now.exprs → comes_out (inside pool.now) marks.new.items marks.new.items e.0 n ≡ comes_out (inside pool.now) marks.old.items marks.old.items (e.0 + 1) n }
{
    if marks[e.0 as usize] {
        mark_parts(marks, pool.at(e));
    }
}

// Hands all marks down, each expression after all that stand over it.
fn spread_all(pool: &Pool, marks: &mut Vec<bool>)
    requires size { length marks.old.items ≡ length pool.now.exprs }
    ensures size { length marks.new.items ≡ length pool.now.exprs }
    ensures reach { (n : ℕ) → n < length pool.now.exprs → is_marked marks.new.items n ≡ comes_out (inside pool.now) marks.old.items marks.old.items (length pool.now.exprs) n }
{
    let count = pool.count();
    for i in 0..count {
        spread(pool, marks, ExprId(count - 1 - i));
    }
}

// No marks for so many expressions.
fn unmarked(alloc: Global, count: u32) -> Result<Vec<bool>, NoMemory>
    ensures size { IfOk result (λ v. length v.items ≡ count) }
    ensures each { IfOk result (λ v. (n : ℕ) → is_marked v.items n ≡ false) }
{
    Ok(vec![in alloc; false; count as usize]?)
}

/// For each expression whether it is one of a fragment, or stands in one of them.
pub(crate) fn within_marks(alloc: Global, pool: &Pool, f: &Fragment) -> Result<Vec<bool>, NoMemory>
    requires { AllBelow (length pool.now.exprs) (fragment_exprs f.now) }
    ensures size { IfOk result (λ v. length v.items ≡ length pool.now.exprs) }
    ensures each { IfOk result (λ v. (n : ℕ) → n < length pool.now.exprs → is_marked v.items n ≡ is_within pool.now (fragment_exprs f.now) n) }
{
    let mut marks = unmarked(alloc, pool.count())?;
    mark_fragment(&mut marks, f);
    spread_all(pool, &mut marks);
    Ok(marks)
}
