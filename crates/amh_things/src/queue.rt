// Lists that are filled at the end and emptied from the front.
ghost use Rattle.std.specs.Prelude.{◌≡◌, ◌++◌, ◌∷◌, [], length, OnOk, IfNone};
ghost use Rattle.std.specs.Option.{option_to_list};

use lists::NoMemory;
use std::alloc::Global;
use std::collections::VecDeque;
use std::marker::Model;

/// Elements that are still to be put elsewhere, in order. Contracts see the list of them.
#[derive(Drop)]
pub struct Queue<T> {
    items: VecDeque<T>,
}

impl<T> Model for Queue<T> {
    ghost use Rattle.std.specs.Prelude.{List};

    ghost Value = { List T };

    ghost view = { λ q. q.items.items };
}

impl<T: Drop> Queue<T> {
    /// No elements, which takes no memory.
    pub fn new(alloc: Global) -> Self
        ensures { result ≡ [] }
    {
        Queue {
            items: VecDeque::new(alloc),
        }
    }

    /// Adds an element at the end.
    pub fn push(&mut self, item: T) -> Result<(), NoMemory>
        ensures { OnOk result (self.new ≡ self.old ++ item ∷ []) }
    {
        match self.items.push_back(item) {
            Ok(()) => Ok(()),
            Err(_) => Err(NoMemory),
        }
    }

    /// Takes the first element out.
    pub fn next(&mut self) -> Option<T>
        ensures first { self.old ≡ option_to_list result ++ self.new }
        ensures none { IfNone result (self.old ≡ []) }
    {
        self.items.pop_front()
    }

    /// How many elements there are.
    pub fn len(&self) -> usize
        ensures { result ≡ length self.now }
    {
        self.items.len()
    }
}
