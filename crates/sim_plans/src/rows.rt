// The rows of a memory.
ghost use Rattle.std.specs.Prelude.{◌≡◌, length, nat_lt, slice_set, IfOk};
ghost use Rattle.design_ir.specs.Circuits.{at};

use amh_bits::Int;
use amh_host::NoMemory;
use design_ir::Ints;
use std::alloc::Global;
use std::marker::Model;

/// The rows of a memory, by their addresses. Past the depth 0 is read, and nothing is written.
#[derive(Drop)]
pub struct Rows {
    numbers: Vec<Int>,
}

impl Model for Rows {
    ghost use Rattle.std.specs.Prelude.{List, ℤ};

    ghost Value = { List ℤ };

    ghost view = { λ r. r.numbers.items };
}

impl Rows {
    /// The same rows.
    pub fn copied(alloc: Global, rows: &Ints) -> Result<Rows, NoMemory>
        ensures { IfOk result (λ r. r ≡ rows.now) }
    {
        let numbers = Vec::from_slice(alloc, rows.as_slice())?;
        Ok(Rows { numbers })
    }

    /// Whether there is a row with this address.
    pub fn has(&self, address: u128) -> bool
        ensures { result ≡ nat_lt address (length self.now) }
    {
        address < self.numbers.len() as u128
    }

    /// The row with this address.
    pub fn at(&self, address: u128) -> Int
        ensures { result ≡ at self.now address }
    {
        if self.has(address) {
            self.numbers[address as usize]
        } else {
            Int::of_u128(0)
        }
    }

    /// Puts a number in place of the row with this address.
    pub fn put(&mut self, address: u128, row: Int)
        ensures { self.new ≡ slice_set self.old address row }
    {
        if self.has(address) {
            self.numbers[address as usize] = row;
        }
    }
}
