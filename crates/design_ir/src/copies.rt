// Copies of what pools and designs hold.
ghost use Rattle.std.specs.Prelude.{◌≡◌, IfOk};

use crate::domain::Domain;
use crate::expr::{Expr, Pattern};
use crate::ids::ExprId;
use crate::memory::{MemRead, MemWrite, Memory};
use crate::port::{Column, Port};
use crate::signal::Sig;
use amh_bits::Int;
use amh_host::{Items, NoMemory, Text};
use shape_rules::Shape;
use std::alloc::Global;

/// What can be copied where there is memory for it.
pub(crate) trait Copied: Sized + Drop {
    ghost use Rattle.std.specs.Prelude.{◌≡◌, IfOk};

    /// The same once more.
    fn copied(&self, alloc: Global) -> Result<Self, NoMemory>
        ensures { IfOk result (λ x. x ≡ self.now) };
}

/// Copies of these, in order.
pub(crate) fn copies<T: Copied>(alloc: Global, items: &[T]) -> Result<Vec<T>, NoMemory>
    ensures { IfOk result (λ v. v.items ≡ items.now) }
{
    let mut all = Vec::new(alloc);
    for x in items {
        all.push(x.copied(alloc)?)?;
    }
    Ok(all)
}

impl<T: Copied> Copied for Items<T> {
    fn copied(&self, alloc: Global) -> Result<Items<T>, NoMemory> {
        let mut items = Items::new(alloc);
        for x in self.as_slice() {
            items.push(x.copied(alloc)?)?;
        }
        Ok(items)
    }
}

impl Copied for Text {
    fn copied(&self, alloc: Global) -> Result<Text, NoMemory> {
        let mut text = Text::new(alloc);
        text.push(self.as_str())?;
        Ok(text)
    }
}

impl Copied for u32 {
    fn copied(&self, alloc: Global) -> Result<u32, NoMemory> {
        Ok(*self)
    }
}

impl Copied for Shape {
    fn copied(&self, alloc: Global) -> Result<Shape, NoMemory> {
        Ok(*self)
    }
}

impl Copied for Int {
    fn copied(&self, alloc: Global) -> Result<Int, NoMemory> {
        Ok(*self)
    }
}

impl Copied for ExprId {
    fn copied(&self, alloc: Global) -> Result<ExprId, NoMemory> {
        Ok(*self)
    }
}

impl Copied for Pattern {
    fn copied(&self, alloc: Global) -> Result<Pattern, NoMemory> {
        Ok(*self)
    }
}

impl Copied for Sig {
    fn copied(&self, alloc: Global) -> Result<Sig, NoMemory> {
        Ok(Sig {
            name: self.name.copied(alloc)?,
            shape: self.shape,
            init: self.init,
            reset_less: self.reset_less,
        })
    }
}

impl Copied for Expr {
    fn copied(&self, alloc: Global) -> Result<Expr, NoMemory> {
        Ok(match self {
            Expr::Const { value, shape } => Expr::Const {
                value: *value,
                shape: *shape,
            },
            Expr::Sig(s) => Expr::Sig(*s),
            Expr::Unary { op, a } => Expr::Unary { op: *op, a: *a },
            Expr::Binary { op, a, b } => Expr::Binary {
                op: *op,
                a: *a,
                b: *b,
            },
            Expr::Mux { s, a, b } => Expr::Mux {
                s: *s,
                a: *a,
                b: *b,
            },
            Expr::Slice { a, low, width } => Expr::Slice {
                a: *a,
                low: *low,
                width: *width,
            },
            Expr::Cat(items) => Expr::Cat(items.copied(alloc)?),
            Expr::Part {
                a,
                offset,
                width,
                stride,
            } => Expr::Part {
                a: *a,
                offset: *offset,
                width: *width,
                stride: *stride,
            },
            Expr::Pick { index, items } => Expr::Pick {
                index: *index,
                items: items.copied(alloc)?,
            },
            Expr::Cast { a, signed } => Expr::Cast {
                a: *a,
                signed: *signed,
            },
            Expr::Matches { a, patterns } => Expr::Matches {
                a: *a,
                patterns: patterns.copied(alloc)?,
            },
            Expr::Reset { domain, place } => Expr::Reset {
                domain: domain.copied(alloc)?,
                place: *place,
            },
        })
    }
}

impl Copied for MemWrite {
    fn copied(&self, alloc: Global) -> Result<MemWrite, NoMemory> {
        Ok(MemWrite {
            domain: self.domain.copied(alloc)?,
            addr: self.addr,
            word: self.word,
            enable: self.enable,
            granularity: self.granularity,
        })
    }
}

impl Copied for MemRead {
    fn copied(&self, alloc: Global) -> Result<MemRead, NoMemory> {
        let domain = match &self.domain {
            Some(name) => Some(name.copied(alloc)?),
            None => None,
        };
        Ok(MemRead {
            domain,
            addr: self.addr,
            word: self.word,
            enable: self.enable,
            transparent: self.transparent.copied(alloc)?,
        })
    }
}

impl Copied for Memory {
    fn copied(&self, alloc: Global) -> Result<Memory, NoMemory> {
        Ok(Memory {
            name: self.name.copied(alloc)?,
            shape: self.shape,
            depth: self.depth,
            rows: self.rows.copied(alloc)?,
            writes: self.writes.copied(alloc)?,
            reads: self.reads.copied(alloc)?,
        })
    }
}

impl Copied for Domain {
    fn copied(&self, alloc: Global) -> Result<Domain, NoMemory> {
        Ok(Domain {
            name: self.name.copied(alloc)?,
            clk: self.clk,
            rst: self.rst,
            falling: self.falling,
            async_reset: self.async_reset,
        })
    }
}

impl Copied for Port {
    fn copied(&self, alloc: Global) -> Result<Port, NoMemory> {
        Ok(Port {
            name: self.name.copied(alloc)?,
            sig: self.sig,
            is_input: self.is_input,
        })
    }
}

impl Copied for Column {
    fn copied(&self, alloc: Global) -> Result<Column, NoMemory> {
        Ok(Column {
            name: self.name.copied(alloc)?,
            sig: self.sig,
        })
    }
}
