// Numbers that wait, each once.
ghost use Rattle.std.specs.Prelude.{◌≡◌, ◌<◌, [], if◌then◌else◌, false, true, length, ℕ, slice_set, slice_index, slice_index_or, replicate, IfOk};
ghost use Rattle.std.specs.List.{AllByRecursion};
ghost use Rattle.design_ir.specs.Circuits.{is_among};
ghost use Rattle.sim_plans.specs.Waiting.{IsWaiting, IsFront};

use amh_host::NoMemory;
use std::alloc::Global;
use std::marker::Model;

/// Some of the numbers below a bound, each once, in the order in which they came. Once it is made it takes no memory.
#[derive(Drop)]
pub struct Agenda {
    marks: Vec<bool>,
    list: Vec<usize>,
    len: usize,
}

impl Model for Agenda {
    ghost use Rattle.std.specs.Prelude.{◌≡◌, ◌≤◌, take, length};
    ghost use Rattle.sim_plans.specs.Waiting.{Waiting, IsWaiting};

    ghost Value = { Waiting };

    ghost view = { λ a. record { marks = a.marks.items; list = take a.len a.list.items } };

    ghost invariant = { λ a. (a.len ≤ length a.list.items) × (length a.list.items ≡ length a.marks.items) × IsWaiting record { marks = a.marks.items; list = take a.len a.list.items } };
}

impl Agenda {
    /// None of the numbers below a bound.
    pub fn new(alloc: Global, bound: usize) -> Result<Agenda, NoMemory>
        ensures { IfOk result (λ a. a ≡ record { marks = replicate bound false; list = [] }) }
    {
        let marks = vec![in alloc; false; bound]?;
        let list = vec![in alloc; 0; bound]?;
        Ok(Agenda {
            marks,
            list,
            len: 0,
        })
    }

    /// How many wait.
    pub fn len(&self) -> usize
        ensures count { result ≡ length self.now.list }
        ensures rules { IsWaiting self.now }
    {
        self.len
    }

    /// Those that wait.
    pub fn items(&self) -> &[usize]
        ensures list { result.now ≡ self.now.list }
        ensures rules { IsWaiting self.now }
    {
        &self.list[..self.len]
    }

    /// One of those that wait.
    pub fn get(&self, i: usize) -> usize
        requires { i < length self.now.list }
        ensures { result ≡ slice_index self.now.list i }
    {
        self.list[i]
    }

    /// Whether a number waits.
    pub fn has(&self, n: usize) -> bool
        ensures { result ≡ slice_index_or self.now.marks n false }
    {
        match self.marks.get(n) {
            Some(mark) => *mark,
            None => false,
        }
    }

    /// Lets a number wait, behind those that do.
    pub fn mark(&mut self, n: usize)
        requires { n < length self.old.marks }
        ensures marks { self.new.marks ≡ slice_set self.old.marks n true }
        ensures list { IsFront self.old.list self.new.list }
    {
        if self.marks[n] {
            return;
        }
        self.marks[n] = true;
        self.list[self.len] = n;
        self.len += 1;
    }

    /// Lets a number wait where this is wanted.
    pub fn mark_if(&mut self, wanted: bool, n: usize)
        requires { n < length self.old.marks }
        ensures { self.new.marks ≡ (if wanted then slice_set self.old.marks n true else self.old.marks) }
    {
        if wanted {
            self.mark(n);
        }
    }

    /// Lets none wait any more.
    pub fn clear(&mut self)
        ensures { self.new ≡ record { marks = replicate (length self.old.marks) false; list = [] } }
    {
        unmark(&self.list[..self.len], &mut self.marks);
        self.len = 0;
    }
}

// Takes the marks of these numbers away.
fn unmark(list: &[usize], marks: &mut Vec<bool>)
    requires { AllByRecursion (λ n. n < length marks.old.items) list.now }
    ensures count { length marks.new.items ≡ length marks.old.items }
    ensures gone { (n : ℕ) → slice_index_or marks.new.items n false ≡ true → (is_among list.now n ≡ false) × (slice_index_or marks.old.items n false ≡ true) }
{
    for n in list {
        marks[*n] = false;
    }
}
