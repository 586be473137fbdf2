// A design of the table from its lines.

use crate::expressions::{expression, expressions};
use crate::lines::place_of;
use crate::memories::Bank;
use crate::signals::Signals;
use crate::sound::design_of;
use amh_host::{Items, Place};
use design_ir::{Arm, Arms, Design, DesignProcess, DesignProcesses, DomainId, ExprId, Stmt, Stmts};
use std::alloc::Global;
use table_text::{Stop, split_first, words_of};

// A choice that is open: the arms that are whole, and the one that is read.
#[derive(Drop)]
struct Open {
    outer: Stmts,
    arms: Arms,
    condition: Option<ExprId>,
}

// The statements so far: the processes of the sides before, and the side that is read, within the open choices.
#[derive(Drop)]
struct Reader {
    signals: Signals,
    processes: DesignProcesses,
    body: Stmts,
    open: Vec<Open>,
    bank: Bank,
    asked: Vec<Option<ExprId>>,
}

/// A design, and for each line the expression whose integer it asks for.
#[derive(Drop)]
pub struct Case {
    pub design: Design,
    pub asked: Vec<Option<ExprId>>,
}

/// The design that lines stand for, and what they ask for.
pub fn read_case(alloc: Global, lines: &[String]) -> Result<Case, Stop> {
    let mut reader = Reader {
        signals: Signals::new(alloc)?,
        processes: Items::new(alloc),
        body: Stmts::new(alloc),
        open: Vec::new(alloc),
        bank: Bank::new(alloc),
        asked: Vec::new(alloc),
    };
    for k in 0..lines.len() {
        let line = lines[k].as_str();
        let words = words_of(alloc, line)?;
        let asked = reader.read(alloc, words.as_slice(), place_of(k, line))?;
        reader.asked.push(asked)?;
    }
    reader.end(alloc)
}

impl Reader {
    // What a line says, and the expression that it asks for.
    fn read(
        &mut self,
        alloc: Global,
        words: &[&str],
        place: Place,
    ) -> Result<Option<ExprId>, Stop> {
        let Some((first, rest)) = split_first(words) else {
            return Err(Stop::NoCase);
        };
        if first == "eval" {
            return Ok(Some(expression(alloc, &mut self.signals, rest)?));
        }
        self.add(alloc, first, rest, place)?;
        Ok(None)
    }

    // What a line says by its first word and those behind it.
    fn add(&mut self, alloc: Global, first: &str, rest: &[&str], place: Place) -> Result<(), Stop> {
        match first {
            "design" if place.line == 1 => Ok(()),
            "signal" => self.signals.declare(alloc, rest),
            "domain" => self.signals.define(alloc, rest),
            "assign" => self.assign(alloc, rest, place),
            "choose" => self.choose(alloc),
            "arm" => self.arm(alloc, rest),
            "end" => self.close(alloc),
            "memory" => self.bank.begin(alloc, rest),
            "read" => self.bank.read(alloc, &mut self.signals, rest),
            "sample" => self.bank.sample(alloc, &mut self.signals, rest),
            "write" => self.bank.write(alloc, &mut self.signals, rest),
            "chain" | "order" | "set" | "edge" | "show" | "counts" => Ok(()),
            domain => self.turn(alloc, domain),
        }
    }

    // An assignment more.
    fn assign(&mut self, alloc: Global, words: &[&str], place: Place) -> Result<(), Stop> {
        let stack = expressions(alloc, &mut self.signals, words)?;
        let [value, target] = stack.as_slice() else {
            return Err(Stop::NoCase);
        };
        let (target, value) = (*target, *value);
        Ok(
            self.body.push(Stmt::Assign {
                target,
                value,
                place,
            })?,
        )
    }

    // Takes the statements that are read, and begins others.
    fn taken(&mut self, alloc: Global) -> Stmts {
        std::mem::replace(&mut self.body, Stmts::new(alloc))
    }

    // A choice within what is read.
    fn choose(&mut self, alloc: Global) -> Result<(), Stop> {
        let outer = self.taken(alloc);
        self.open.push(Open {
            outer,
            arms: Arms::new(alloc),
            condition: None,
        })?;
        Ok(())
    }

    // The innermost choice with the arm that was read.
    fn innermost(&mut self, alloc: Global) -> Result<Open, Stop> {
        let Some(mut open) = self.open.pop() else {
            return Err(Stop::NoCase);
        };
        let body = self.taken(alloc);
        match open.condition {
            Some(condition) => open.arms.push(Arm { condition, body })?,
            None if body.len() > 0 => return Err(Stop::NoCase),
            None => {}
        }
        Ok(open)
    }

    // An arm of the innermost choice.
    fn arm(&mut self, alloc: Global, words: &[&str]) -> Result<(), Stop> {
        let mut open = self.innermost(alloc)?;
        open.condition = Some(expression(alloc, &mut self.signals, words)?);
        self.open.push(open)?;
        Ok(())
    }

    // The end of the innermost choice.
    fn close(&mut self, alloc: Global) -> Result<(), Stop> {
        let open = self.innermost(alloc)?;
        self.body = open.outer;
        Ok(self.body.push(Stmt::Choose(open.arms))?)
    }

    // The end of the statements that are read, and the beginning of those of a domain, which come in order.
    fn turn(&mut self, alloc: Global, domain: &str) -> Result<(), Stop> {
        let side = self.signals.side(alloc, domain)?;
        if side <= self.processes.len() {
            return Err(Stop::NoCase);
        }
        self.fill(alloc, side)
    }

    // Ends the statements that are read, and those of the sides up to so many, which have none.
    fn fill(&mut self, alloc: Global, count: usize) -> Result<(), Stop> {
        for _ in self.processes.len()..count {
            self.next(alloc)?;
        }
        Ok(())
    }

    // Ends the statements that are read.
    fn next(&mut self, alloc: Global) -> Result<(), Stop> {
        if !self.open.is_empty() {
            return Err(Stop::NoCase);
        }
        let domain = domain_of(self.processes.len())?;
        let body = self.taken(alloc);
        Ok(self.processes.push(DesignProcess { domain, body })?)
    }

    // The design, once all lines are read.
    fn end(mut self, alloc: Global) -> Result<Case, Stop> {
        if self.signals.domains.len() == 0 {
            self.signals.side(alloc, "sync")?;
        }
        let domains = self.signals.domains.len();
        self.fill(alloc, domains)?;
        self.next(alloc)?;
        let Reader {
            signals,
            processes,
            bank,
            asked,
            ..
        } = self;
        let design = design_of(alloc, signals, processes, bank.end()?)?;
        Ok(Case { design, asked })
    }
}

// The domain of a side, of which the first has none.
fn domain_of(side: usize) -> Result<Option<DomainId>, Stop> {
    match side {
        0 => Ok(None),
        1..=65536 => Ok(Some(DomainId((side - 1) as u16))),
        _ => Err(Stop::NoCase),
    }
}
