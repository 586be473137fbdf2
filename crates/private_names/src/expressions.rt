// Expressions within a class.
ghost use Rattle.std.specs.Prelude.{◌≡◌, IfOk, map, option_map};
ghost use Rattle.amh_host.specs.declared.place.Place.{Place};
ghost use Rattle.py_tree.specs.Seen.{tree, kind_tree, link_tree, pair_tree, each_of, trailer_of, argument_of};
ghost use Rattle.py_tree.specs.Tree.{trees, links, pairs, perhaps, trailers, arguments};
ghost use Rattle.private_names.specs.Expressions.{mangled_tree, mangled_trees, mangled_links, mangled_pairs, mangled_perhaps, mangled_each, mangled_trailers, mangled_trailer, mangled_arguments, mangled_argument};

use crate::class::Class;
use amh_host::NoMemory;
use py_tree::{Argument, Comprehension, Expr, ExprKind, Link, Pair, Trailer};

impl Class {
    /// An expression within the class: one handle more of it, where there is none.
    #[cycle(expr)]
    pub fn expr(&self, e: &Expr) -> Result<Expr, NoMemory>
        ensures { IfOk result (λ made. tree made ≡ mangled_tree self.now.name (tree e.now)) }
    {
        if self.is_none() {
            return e.share();
        }
        let kind = self.kind(&e.kind)?;
        Expr::new(self.alloc, e.place, kind)
    }

    // What an expression is, within the class, wherever it stands.
    #[cycle(expr)]
    fn kind(&self, kind: &ExprKind) -> Result<ExprKind, NoMemory>
        ensures { IfOk result (λ made. (p : Place) → kind_tree made p ≡ mangled_tree self.now.name (kind_tree kind.now p)) }
    {
        match kind {
            ExprKind::Name(name) => Ok(ExprKind::Name(self.name(name)?)),
            ExprKind::Number(n) => Ok(ExprKind::Number(*n)),
            ExprKind::Decimal(d) => Ok(ExprKind::Decimal(*d)),
            ExprKind::Quotient(n, by) => Ok(ExprKind::Quotient(*n, *by)),
            ExprKind::Str(text) => Ok(ExprKind::Str(text.share()?)),
            ExprKind::Format(pieces) => Ok(ExprKind::Format(self.pieces(pieces)?)),
            ExprKind::Constant(constant) => Ok(ExprKind::Constant(*constant)),
            ExprKind::Tuple(all) => Ok(ExprKind::Tuple(self.exprs(all)?)),
            ExprKind::List(all) => Ok(ExprKind::List(self.exprs(all)?)),
            ExprKind::Dict(all) => Ok(ExprKind::Dict(self.pairs(all)?)),
            ExprKind::ListOf(e, each) => Ok(ExprKind::ListOf(self.expr(e)?, self.each(each)?)),
            ExprKind::DictOf(pair, each) => Ok(ExprKind::DictOf(
                self.pair(pair)?,
                self.each(each)?,
            )),
            ExprKind::Trailed(e, all) => Ok(ExprKind::Trailed(self.expr(e)?, self.trailers(all)?)),
            ExprKind::Await(e) => Ok(ExprKind::Await(self.expr(e)?)),
            ExprKind::Power(a, b) => Ok(ExprKind::Power(self.expr(a)?, self.expr(b)?)),
            ExprKind::Unary(sign, e) => Ok(ExprKind::Unary(*sign, self.expr(e)?)),
            ExprKind::Not(e) => Ok(ExprKind::Not(self.expr(e)?)),
            ExprKind::Binary(e, all) => Ok(ExprKind::Binary(self.expr(e)?, self.links(all)?)),
            ExprKind::Compare(e, all) => Ok(ExprKind::Compare(self.expr(e)?, self.links(all)?)),
            ExprKind::Boolean(e, all) => Ok(ExprKind::Boolean(self.expr(e)?, self.links(all)?)),
            ExprKind::Choice {
                chosen,
                test,
                other,
            } => Ok(ExprKind::Choice {
                chosen: self.expr(chosen)?,
                test: self.expr(test)?,
                other: self.expr(other)?,
            }),
        }
    }

    /// Expressions one after another.
    #[cycle(expr)]
    pub fn exprs(&self, all: &Vec<Expr>) -> Result<Vec<Expr>, NoMemory>
        ensures { IfOk result (λ made. trees (map tree made.items) ≡ mangled_trees self.now.name (trees (map tree all.now.items))) }
    {
        let mut made = Vec::new(self.alloc);
        for e in all.as_slice() {
            made.push(self.expr(e)?)?;
        }
        Ok(made)
    }

    #[cycle(expr)]
    fn links(&self, all: &Vec<Link>) -> Result<Vec<Link>, NoMemory>
        ensures { IfOk result (λ made. links (map link_tree made.items) ≡ mangled_links self.now.name (links (map link_tree all.now.items))) }
    {
        let mut made = Vec::new(self.alloc);
        for link in all.as_slice() {
            let operand = self.expr(&link.operand)?;
            made.push(Link {
                operator: link.operator,
                operand,
            })?;
        }
        Ok(made)
    }

    #[cycle(expr)]
    fn pairs(&self, all: &Vec<Pair>) -> Result<Vec<Pair>, NoMemory>
        ensures { IfOk result (λ made. pairs (map pair_tree made.items) ≡ mangled_pairs self.now.name (pairs (map pair_tree all.now.items))) }
    {
        let mut made = Vec::new(self.alloc);
        for pair in all.as_slice() {
            made.push(self.pair(pair)?)?;
        }
        Ok(made)
    }

    #[cycle(expr)]
    fn pair(&self, pair: &Pair) -> Result<Pair, NoMemory>
        ensures { IfOk result (λ made. pair_tree made ≡ (mangled_tree self.now.name (pair_tree pair.now).0, mangled_tree self.now.name (pair_tree pair.now).1)) }
    {
        Ok(Pair {
            key: self.expr(&pair.key)?,
            value: self.expr(&pair.value)?,
        })
    }

    #[cycle(expr)]
    fn each(&self, each: &Comprehension) -> Result<Comprehension, NoMemory>
        ensures { IfOk result (λ made. each_of made ≡ mangled_each self.now.name (each_of each.now)) }
    {
        Ok(Comprehension {
            targets: self.expr(&each.targets)?,
            source: self.expr(&each.source)?,
            condition: self.optional(&each.condition)?,
        })
    }

    /// An expression within the class, where there is one.
    #[cycle(expr)]
    pub fn optional(&self, e: &Option<Expr>) -> Result<Option<Expr>, NoMemory>
        ensures { IfOk result (λ made. perhaps (option_map tree made) ≡ mangled_perhaps self.now.name (perhaps (option_map tree e.now))) }
    {
        match e {
            Some(e) => Ok(Some(self.expr(e)?)),
            None => Ok(None),
        }
    }

    #[cycle(expr)]
    fn trailers(&self, all: &Vec<Trailer>) -> Result<Vec<Trailer>, NoMemory>
        ensures { IfOk result (λ made. trailers (map trailer_of made.items) ≡ mangled_trailers self.now.name (trailers (map trailer_of all.now.items))) }
    {
        let mut made = Vec::new(self.alloc);
        for trailer in all.as_slice() {
            made.push(self.trailer(trailer)?)?;
        }
        Ok(made)
    }

    /// What trails a primary.
    #[cycle(expr)]
    pub fn trailer(&self, trailer: &Trailer) -> Result<Trailer, NoMemory>
        ensures { IfOk result (λ made. trailer_of made ≡ mangled_trailer self.now.name (trailer_of trailer.now)) }
    {
        match trailer {
            Trailer::Attribute(name) => Ok(Trailer::Attribute(self.name(name)?)),
            Trailer::Call(all) => Ok(Trailer::Call(self.arguments(all)?)),
            Trailer::CallOf(e, each) => Ok(Trailer::CallOf(self.expr(e)?, self.each(each)?)),
            Trailer::Index(e) => Ok(Trailer::Index(self.expr(e)?)),
            Trailer::Slice { start, stop, step } => Ok(Trailer::Slice {
                start: self.optional(start)?,
                stop: self.optional(stop)?,
                step: self.optional(step)?,
            }),
        }
    }

    #[cycle(expr)]
    fn arguments(&self, all: &Vec<Argument>) -> Result<Vec<Argument>, NoMemory>
        ensures { IfOk result (λ made. arguments (map argument_of made.items) ≡ mangled_arguments self.now.name (arguments (map argument_of all.now.items))) }
    {
        let mut made = Vec::new(self.alloc);
        for argument in all.as_slice() {
            made.push(self.argument(argument)?)?;
        }
        Ok(made)
    }

    // The keyword of an argument stays: the parameter that it means may stand in another class.
    #[cycle(expr)]
    fn argument(&self, argument: &Argument) -> Result<Argument, NoMemory>
        ensures { IfOk result (λ made. argument_of made ≡ mangled_argument self.now.name (argument_of argument.now)) }
    {
        match argument {
            Argument::Positional(e) => Ok(Argument::Positional(self.expr(e)?)),
            Argument::Starred(e) => Ok(Argument::Starred(self.expr(e)?)),
            Argument::Keyword(name, e) => Ok(Argument::Keyword(name.share()?, self.expr(e)?)),
        }
    }
}
