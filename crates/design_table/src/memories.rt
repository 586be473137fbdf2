// The memories of a design of the table.

use crate::expressions::{expression, expressions};
use crate::numbers::{shape, small};
use crate::signals::{Signals, copied};
use amh_bits::Int;
use amh_host::{Items, Numbers, Text};
use design_ir::{Ints, MemRead, MemWrite, Memories, Memory, SigId};
use std::alloc::Global;
use table_text::{Stop, integer, natural};

/// The memories whose lines are read, and the one that the next ports are of.
#[derive(Drop)]
pub struct Bank {
    whole: Memories,
    last: Option<Memory>,
}

impl Bank {
    /// No memory.
    pub fn new(alloc: Global) -> Bank {
        Bank {
            whole: Items::new(alloc),
            last: None,
        }
    }

    /// The memory of a line behind the word `memory`.
    pub fn begin(&mut self, alloc: Global, words: &[&str]) -> Result<(), Stop> {
        let memory = memory(alloc, words)?;
        match std::mem::replace(&mut self.last, Some(memory)) {
            Some(before) => Ok(self.whole.push(before)?),
            None => Ok(()),
        }
    }

    /// The port of a line behind the word `read`.
    pub fn read(
        &mut self,
        alloc: Global,
        signals: &mut Signals,
        words: &[&str],
    ) -> Result<(), Stop> {
        let [word, addr @ ..] = words else {
            return Err(Stop::NoCase);
        };
        let addr = expression(alloc, signals, addr)?;
        self.add_read(MemRead {
            domain: None,
            addr,
            word: signals.known(word)?,
            enable: None,
            transparent: Items::new(alloc),
        })
    }

    /// The port of a line behind the word `sample`.
    pub fn sample(
        &mut self,
        alloc: Global,
        signals: &mut Signals,
        words: &[&str],
    ) -> Result<(), Stop> {
        let [word, ports, operands @ ..] = words else {
            return Err(Stop::NoCase);
        };
        let stack = expressions(alloc, signals, operands)?;
        let [enable, addr] = stack.as_slice() else {
            return Err(Stop::NoCase);
        };
        let (enable, addr) = (*enable, *addr);
        let word = signals.known(word)?;
        self.add_read(MemRead {
            domain: Some(domain_of(alloc, signals, word)?),
            addr,
            word,
            enable: Some(enable),
            transparent: ports_of(alloc, ports)?,
        })
    }

    /// The port of a line behind the word `write`.
    pub fn write(
        &mut self,
        alloc: Global,
        signals: &mut Signals,
        words: &[&str],
    ) -> Result<(), Stop> {
        let [domain, granularity, operands @ ..] = words else {
            return Err(Stop::NoCase);
        };
        let stack = expressions(alloc, signals, operands)?;
        let [enable, word, addr] = stack.as_slice() else {
            return Err(Stop::NoCase);
        };
        let (enable, word, addr) = (*enable, *word, *addr);
        signals.side(alloc, domain)?;
        self.add_write(MemWrite {
            domain: copied(alloc, domain)?,
            addr,
            word,
            enable,
            granularity: small(granularity)?,
        })
    }

    fn add_read(&mut self, port: MemRead) -> Result<(), Stop> {
        match &mut self.last {
            Some(memory) => Ok(memory.reads.push(port)?),
            None => Err(Stop::NoCase),
        }
    }

    fn add_write(&mut self, port: MemWrite) -> Result<(), Stop> {
        match &mut self.last {
            Some(memory) => Ok(memory.writes.push(port)?),
            None => Err(Stop::NoCase),
        }
    }

    /// All memories, once their lines are read.
    pub fn end(self) -> Result<Memories, Stop> {
        let Bank { mut whole, last } = self;
        if let Some(memory) = last {
            whole.push(memory)?;
        }
        Ok(whole)
    }
}

// A memory without ports: its name, its shape, and its rows.
fn memory(alloc: Global, words: &[&str]) -> Result<Memory, Stop> {
    let [name, width, sign, depth, numbers @ ..] = words else {
        return Err(Stop::NoCase);
    };
    let depth = natural(depth)?;
    if depth > 4_096 || numbers.len() > depth as usize {
        return Err(Stop::NoCase);
    }
    let depth = depth as u32;
    Ok(Memory {
        name: copied(alloc, name)?,
        shape: shape(width, sign)?,
        depth,
        rows: rows_of(alloc, depth, numbers)?,
        writes: Items::new(alloc),
        reads: Items::new(alloc),
    })
}

// So many rows, the first of which are numbers and the others 0.
fn rows_of(alloc: Global, depth: u32, numbers: &[&str]) -> Result<Ints, Stop> {
    let mut rows = Items::new(alloc);
    for k in 0..depth as usize {
        let row = if k < numbers.len() {
            integer(numbers[k])?
        } else {
            Int::of_u128(0)
        };
        rows.push(row)?;
    }
    Ok(rows)
}

// The numbers of write ports that stand between commas, or none at `-`.
fn ports_of(alloc: Global, word: &str) -> Result<Numbers, Stop> {
    let mut ports = Items::new(alloc);
    if word == "-" {
        return Ok(ports);
    }
    for number in word.split(',') {
        ports.push(small(number)? as u32)?;
    }
    Ok(ports)
}

// The name of the domain in which a signal is driven.
fn domain_of(alloc: Global, signals: &Signals, s: SigId) -> Result<Text, Stop> {
    let domains = signals.domains.as_slice();
    match signals.sides.get(s.0 as usize) {
        Some(side) if 0 < *side && *side <= domains.len() => {
            Ok(copied(alloc, domains[*side - 1].name.as_str())?)
        }
        _ => Err(Stop::NoCase),
    }
}
