// A memory and its ports, as they are made.
ghost use Rattle.std.specs.Prelude.{◌≡◌, ◌≢◌, length, Some, None, Ok, IfOk, IfErr, option_copied, codes};
ghost use Rattle.std.specs.List.{AllByRecursion};
ghost use Rattle.amh_bits.specs.Patterns.{IsOf};
ghost use Rattle.memory_ports.specs.Ports.{with_signals, IsGrown};
ghost use Rattle.memory_ports.specs.Memories.{IsSpec};
ghost use Rattle.memory_ports.specs.Calls.{IsOwed, Unless, WhereLimit, left_behind, new_refusal, new_memory, write_signals, write_refusal, write_port, and_write, read_signals, read_refusal, read_port, and_read};

use crate::copies::{all_rows, copied, copied_numbers, copied_option};
use crate::ports::{ReadPort, WritePort, made_read, made_write};
use crate::refusal::MemStop;
use crate::rules::{is_bad_domain, is_bad_granularity, is_bad_transparent, is_full};
use amh_host::{Numbers, Text};
use design_ir::{Ints, MemRead, MemReads, MemWrite, MemWrites, Memory, Pool};
use shape_rules::Shape;
use std::alloc::Global;
use std::marker::Model;

/// A memory that is being made. Contracts see the `Memory` that it has come to, whose name is empty.
#[derive(Drop)]
pub struct MemorySpec {
    alloc: Global,
    memory: Memory,
}

impl Model for MemorySpec {
    ghost use Rattle.design_ir.specs.declared.memory.Memory.{Memory};
    ghost use Rattle.memory_ports.specs.Memories.{IsSpec};

    ghost Value = { Memory };

    ghost view = { λ a. a.memory };

    ghost invariant = { λ a. IsSpec a.memory };
}

impl MemorySpec {
    /// A memory without ports. `TooManyRows` comes exactly where there are more rows than the depth; else `Limit` exactly
    /// where there are more than 65,536 rows, or more than 1,048,576 bits in them.
    pub fn new(alloc: Global, shape: Shape, depth: u32, rows: &Ints) -> Result<MemorySpec, MemStop>
        requires { AllByRecursion (IsOf shape.signed shape.width) rows.now }
        ensures made { IfOk result (λ m. (new_refusal shape depth (length rows.now) ≡ None) × (m ≡ new_memory shape depth rows.now)) }
        ensures refused { IfErr result (λ stop. IsOwed (new_refusal shape depth (length rows.now)) stop) }
    {
        if rows.len() > depth as usize {
            return Err(MemStop::TooManyRows);
        }
        if depth > 65_536 || depth * shape.width as u32 > 1_048_576 {
            return Err(MemStop::Limit);
        }
        let rows = all_rows(alloc, depth as usize, rows.as_slice())?;
        let memory = Memory {
            name: Text::new(alloc),
            shape,
            depth,
            rows,
            writes: MemWrites::new(alloc),
            reads: MemReads::new(alloc),
        };
        Ok(MemorySpec { alloc, memory })
    }

    /// A write port more, with its signals. `BadDomain` comes exactly for `comb`, or another domain than that of an earlier
    /// write port; else `BadGranularity` exactly where it is 0 or does not divide the width; else `Limit` exactly where the
    /// memory has 64 ports, or the pool has no room for a signal or its expression.
    pub fn add_write(
        &mut self,
        pool: &mut Pool,
        domain: &str,
        granularity: Option<u8>,
    ) -> Result<WritePort, MemStop>
        ensures added { IfOk result (λ p. (write_refusal pool.old self.old domain.now granularity ≡ None) × (p ≡ write_port pool.old)) }
        ensures memory { IfOk result (λ _. self.new ≡ and_write pool.old self.old domain.now granularity) }
        ensures pool { IfOk result (λ _. pool.new ≡ with_signals pool.old (write_signals self.old granularity)) }
        ensures refused { IfErr result (λ stop. IsOwed (write_refusal pool.old self.old domain.now granularity) stop) }
        ensures unchanged { IfErr result (λ stop. (self.new ≡ self.old) × Unless stop (pool.new ≡ pool.old)) }
        ensures grown { IfErr result (λ _. IsGrown pool.old pool.new) }
        ensures full { IfErr result (λ stop. WhereLimit stop (pool.new ≡ left_behind pool.old self.old (write_signals self.old granularity))) }
    {
        if is_bad_domain(&self.memory, domain) {
            return Err(MemStop::BadDomain);
        }
        if is_bad_granularity(&self.memory, granularity) {
            return Err(MemStop::BadGranularity);
        }
        if is_full(&self.memory) {
            return Err(MemStop::Limit);
        }
        let domain = copied(self.alloc, domain)?;
        let made = match made_write(self.alloc, pool, &self.memory, granularity) {
            Ok(made) => made,
            Err(stop) => return Err(stop),
        };
        let port = MemWrite {
            domain,
            addr: made.addr,
            word: made.word,
            enable: made.enable,
            granularity: made.granularity,
        };
        self.memory.writes.push(port)?;
        Ok(made.port)
    }

    /// A read port more, with its signals; a comb one has no domain, and `comb` names none. `BadTransparent` comes exactly
    /// where it is to be transparent for a number that is no write port of its domain, or for any where it is comb; else
    /// `Limit` exactly where the memory has 64 ports, or the pool has no room for a signal or its expression.
    pub fn add_read(
        &mut self,
        pool: &mut Pool,
        domain: Option<&str>,
        transparent: &Numbers,
    ) -> Result<ReadPort, MemStop>
        requires { option_copied domain ≢ Some (codes "comb") }
        ensures added { IfOk result (λ p. (read_refusal pool.old self.old (option_copied domain.entry) transparent.now ≡ None) × (p ≡ read_port pool.old (option_copied domain.entry))) }
        ensures memory { IfOk result (λ _. self.new ≡ and_read pool.old self.old (option_copied domain.entry) transparent.now) }
        ensures pool { IfOk result (λ _. pool.new ≡ with_signals pool.old (read_signals self.old (option_copied domain.entry))) }
        ensures refused { IfErr result (λ stop. IsOwed (read_refusal pool.old self.old (option_copied domain.entry) transparent.now) stop) }
        ensures unchanged { IfErr result (λ stop. (self.new ≡ self.old) × Unless stop (pool.new ≡ pool.old)) }
        ensures grown { IfErr result (λ _. IsGrown pool.old pool.new) }
        ensures full { IfErr result (λ stop. WhereLimit stop (pool.new ≡ left_behind pool.old self.old (read_signals self.old (option_copied domain.entry)))) }
    {
        if is_bad_transparent(&self.memory, domain, transparent.as_slice()) {
            return Err(MemStop::BadTransparent);
        }
        if is_full(&self.memory) {
            return Err(MemStop::Limit);
        }
        let transparent = copied_numbers(self.alloc, transparent.as_slice())?;
        let own_domain = copied_option(self.alloc, domain)?;
        let made = match made_read(self.alloc, pool, &self.memory, domain) {
            Ok(made) => made,
            Err(stop) => return Err(stop),
        };
        let port = MemRead {
            domain: own_domain,
            addr: made.addr,
            word: made.port.word,
            enable: made.enable,
            transparent,
        };
        self.memory.reads.push(port)?;
        Ok(made.port)
    }

    /// The memory as far as it is made, without a name.
    pub fn so_far(&self) -> &Memory
        ensures { result.now ≡ self.now }
    {
        &self.memory
    }

    /// Opens the memory, so that a caller knows what it keeps to.
    pub fn known(&self)
        ensures { IsSpec self.now }
    {
        let _ = &self.alloc;
    }

    /// The memory, without a name. It refuses nothing.
    pub fn finish(self) -> Result<Memory, MemStop>
        ensures made { result ≡ Ok self }
        ensures spec { IsSpec self }
    {
        Ok(self.memory)
    }
}
