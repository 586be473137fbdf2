// Statements within a class.
ghost use Rattle.std.specs.Prelude.{◌≡◌, IfOk, map, option_map};
ghost use Rattle.amh_host.specs.declared.place.Place.{Place};
ghost use Rattle.py_tree.specs.Seen.{tree, trailer_of};
ghost use Rattle.py_tree.specs.Tree.{perhaps};
ghost use Rattle.py_tree.specs.Steps.{Annotate, Augment, For, With, Class as class_step, branches, else_of, bases_of};
ghost use Rattle.py_tree.specs.Programs.{step_of, kind_step, steps_of, branch_of, body_of};
ghost use Rattle.private_names.specs.Names.{mangled_name};
ghost use Rattle.private_names.specs.Expressions.{mangled_tree, mangled_perhaps};
ghost use Rattle.private_names.specs.Statements.{mangled_bases, mangled_step, mangled_steps, mangled_branches, mangled_else, mangled_body, has_body};

use crate::class::Class;
use amh_host::NoMemory;
use py_tree::{Block, Branch, Expr, Function, Name, Operator, Stmt, StmtKind, Trailer};
use std::rc::Rc;

impl Class {
    /// The statements of a block within the class.
    #[cycle(block)]
    pub fn block(&self, block: &Block) -> Result<Block, NoMemory>
        ensures { IfOk result (λ made. steps_of made ≡ mangled_steps self.now.name (steps_of block.now)) }
    {
        let mut made = Vec::new(self.alloc);
        for stmt in block.stmts.as_slice() {
            made.push(self.stmt(stmt)?)?;
        }
        Ok(Block {
            stmts: Rc::new(self.alloc, made)?,
        })
    }

    #[cycle(block)]
    fn stmt(&self, stmt: &Stmt) -> Result<Stmt, NoMemory>
        ensures { IfOk result (λ made. step_of made ≡ mangled_step self.now.name (step_of stmt.now)) }
    {
        if self.is_none() && !has_body(stmt) {
            return stmt.share();
        }
        let kind = self.stmt_kind(&stmt.kind)?;
        Stmt::new(self.alloc, stmt.place, kind)
    }

    // What a statement is, within the class, wherever it stands.
    #[cycle(block)]
    fn stmt_kind(&self, kind: &StmtKind) -> Result<StmtKind, NoMemory>
        ensures { IfOk result (λ made. (p : Place) → kind_step made p ≡ mangled_step self.now.name (kind_step kind.now p)) }
    {
        match kind {
            StmtKind::Pass => Ok(StmtKind::Pass),
            StmtKind::Break => Ok(StmtKind::Break),
            StmtKind::Continue => Ok(StmtKind::Continue),
            StmtKind::Return(e) => Ok(StmtKind::Return(self.optional(e)?)),
            StmtKind::Assert(e, text) => Ok(StmtKind::Assert(self.expr(e)?, self.optional(text)?)),
            StmtKind::Raise(e) => Ok(StmtKind::Raise(self.expr(e)?)),
            StmtKind::ImportAll(path) => Ok(StmtKind::ImportAll(self.names(path.as_slice())?)),
            StmtKind::Import(of, all) => Ok(StmtKind::Import(self.path(of)?, self.imports(all)?)),
            StmtKind::Assign(to, e) => Ok(StmtKind::Assign(self.exprs(to)?, self.expr(e)?)),
            StmtKind::Annotate {
                target,
                annotation,
                value,
            } => self.annotate(target, annotation, value),
            StmtKind::Augment(to, o, e) => self.augment(to, *o, e),
            StmtKind::Evaluate(e) => Ok(StmtKind::Evaluate(self.expr(e)?)),
            StmtKind::If(all, other) => Ok(StmtKind::If(self.branches(all)?, self.other(other)?)),
            StmtKind::While(e, body) => Ok(StmtKind::While(self.expr(e)?, self.block(body)?)),
            StmtKind::For {
                targets,
                source,
                body,
            } => self.turns(targets, source, self.block(body)?),
            StmtKind::With {
                context,
                target,
                body,
            } => self.with(context, target, self.block(body)?),
            StmtKind::Def(f) => Ok(StmtKind::Def(self.function(f)?)),
            StmtKind::Class {
                name,
                arguments,
                body,
            } => {
                let within = Class::called(self.alloc, name.as_str())?;
                self.class(name, arguments, within.block(body)?)
            }
        }
    }

    #[cycle(block)]
    fn branches(&self, all: &Vec<Branch>) -> Result<Vec<Branch>, NoMemory>
        ensures { IfOk result (λ made. branches (map branch_of made.items) ≡ mangled_branches self.now.name (branches (map branch_of all.now.items))) }
    {
        let mut made = Vec::new(self.alloc);
        for branch in all.as_slice() {
            let test = self.expr(&branch.test)?;
            let body = self.block(&branch.body)?;
            made.push(Branch { test, body })?;
        }
        Ok(made)
    }

    #[cycle(block)]
    fn other(&self, other: &Option<Block>) -> Result<Option<Block>, NoMemory>
        ensures { IfOk result (λ made. else_of (option_map steps_of made) ≡ mangled_else self.now.name (else_of (option_map steps_of other.now))) }
    {
        match other {
            Some(block) => Ok(Some(self.block(block)?)),
            None => Ok(None),
        }
    }

    #[cycle(block)]
    fn function(&self, f: &Rc<Function>) -> Result<Rc<Function>, NoMemory>
        ensures { IfOk result (λ made. body_of made.value ≡ mangled_body self.now.name (body_of f.now.value)) }
    {
        let made = Function {
            place: f.place,
            name: self.name(&f.name)?,
            is_async: f.is_async,
            params: self.params(&f.params)?,
            result: self.optional(&f.result)?,
            body: self.block(&f.body)?,
        };
        Ok(Rc::new(self.alloc, made)?)
    }

    fn annotate(
        &self,
        target: &Expr,
        annotation: &Expr,
        value: &Option<Expr>,
    ) -> Result<StmtKind, NoMemory>
        ensures { IfOk result (λ made. (p : Place) → kind_step made p ≡ Annotate p (mangled_tree self.now.name (tree target.now)) (mangled_tree self.now.name (tree annotation.now)) (mangled_perhaps self.now.name (perhaps (option_map tree value.now)))) }
    {
        Ok(StmtKind::Annotate {
            target: self.expr(target)?,
            annotation: self.expr(annotation)?,
            value: self.optional(value)?,
        })
    }

    fn augment(&self, target: &Expr, sign: Operator, e: &Expr) -> Result<StmtKind, NoMemory>
        ensures { IfOk result (λ made. (p : Place) → kind_step made p ≡ Augment p (mangled_tree self.now.name (tree target.now)) sign (mangled_tree self.now.name (tree e.now))) }
    {
        let target = self.expr(target)?;
        Ok(StmtKind::Augment(target, sign, self.expr(e)?))
    }

    // The statement `for` with this body.
    fn turns(&self, targets: &Expr, source: &Expr, body: Block) -> Result<StmtKind, NoMemory>
        ensures { IfOk result (λ made. (p : Place) → kind_step made p ≡ For p (mangled_tree self.now.name (tree targets.now)) (mangled_tree self.now.name (tree source.now)) (steps_of body)) }
    {
        Ok(StmtKind::For {
            targets: self.expr(targets)?,
            source: self.expr(source)?,
            body,
        })
    }

    // The statement `with` with this body.
    fn with(&self, context: &Expr, target: &Option<Expr>, body: Block) -> Result<StmtKind, NoMemory>
        ensures { IfOk result (λ made. (p : Place) → kind_step made p ≡ With p (mangled_tree self.now.name (tree context.now)) (mangled_perhaps self.now.name (perhaps (option_map tree target.now))) (steps_of body)) }
    {
        Ok(StmtKind::With {
            context: self.expr(context)?,
            target: self.optional(target)?,
            body,
        })
    }

    // A class of this name, with this body, within the class around it.
    fn class(
        &self,
        name: &Name,
        arguments: &Option<Trailer>,
        body: Block,
    ) -> Result<StmtKind, NoMemory>
        ensures { IfOk result (λ made. (p : Place) → kind_step made p ≡ class_step p (mangled_name self.now.name name.now) (mangled_bases self.now.name (bases_of (option_map trailer_of arguments.now))) (steps_of body)) }
    {
        Ok(StmtKind::Class {
            name: self.name(name)?,
            arguments: self.brackets(arguments)?,
            body,
        })
    }

    fn brackets(&self, arguments: &Option<Trailer>) -> Result<Option<Trailer>, NoMemory>
        ensures { IfOk result (λ made. bases_of (option_map trailer_of made) ≡ mangled_bases self.now.name (bases_of (option_map trailer_of arguments.now))) }
    {
        match arguments {
            Some(trailer) => Ok(Some(self.trailer(trailer)?)),
            None => Ok(None),
        }
    }
}

// Whether other statements stand in a statement.
fn has_body(stmt: &Stmt) -> bool
    ensures { result ≡ has_body (step_of stmt.now) }
{
    match &*stmt.kind {
        StmtKind::If(_, _) => true,
        StmtKind::While(_, _) => true,
        StmtKind::For { .. } => true,
        StmtKind::With { .. } => true,
        StmtKind::Def(_) => true,
        StmtKind::Class { .. } => true,
        _ => false,
    }
}
