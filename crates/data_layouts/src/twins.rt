// Names, each of which is to stand once.
ghost use Rattle.std.specs.Prelude.{◌≡◌, ◌++◌, ◌∷◌, [], map, not, true, IfOk};
ghost use Rattle.std.specs.List.{list_any};
ghost use Rattle.lists.specs.Texts.{text_eq};
ghost use Rattle.data_layouts.specs.Names.{has_twins};

use amh_host::NoMemory;
use indexmap::IndexSet;
use std::alloc::Global;
use std::marker::Model;

/// What has a name.
pub(crate) trait Named {
    ghost use Rattle.std.specs.Prelude.{◌≡◌, List, ℕ};

    /// The name's bytes.
    ghost name_of: { Self → List ℕ };

    fn name(&self) -> &str
        ensures { result.now ≡ name_of self.now };
}

/// Whether a name stands twice among these.
pub(crate) fn has_twins<T: Named>(alloc: Global, items: &[T]) -> Result<bool, NoMemory>
    ensures { IfOk result (λ twice. twice ≡ has_twins (map T.name_of items.now)) }
{
    let mut seen = Seen::new(alloc);
    for item in items {
        if !seen.add(item.name())? {
            return Ok(true);
        }
    }
    Ok(false)
}

// The names so far, by their bytes.
#[derive(Drop)]
struct Seen {
    alloc: Global,
    names: IndexSet<String>,
}

impl Model for Seen {
    ghost use Rattle.std.specs.Prelude.{List, ℕ, map, string_bytes};

    ghost Value = { List (List ℕ) };

    ghost view = { λ s. map string_bytes s.names.keys };
}

impl Seen {
    // No name yet.
    fn new(alloc: Global) -> Seen
        ensures { result ≡ [] }
    {
        Seen {
            alloc,
            names: IndexSet::new(alloc),
        }
    }

    // Adds a name, and tells whether it is new; only then there is one more.
    fn add(&mut self, name: &str) -> Result<bool, NoMemory>
        ensures told { IfOk result (λ is_new. is_new ≡ not (list_any (text_eq name.now) self.old)) }
        ensures added { IfOk result (λ is_new. is_new ≡ true → self.new ≡ self.old ++ name.now ∷ []) }
    {
        let Ok(copy) = String::from_str(self.alloc, name) else {
            return Err(NoMemory);
        };
        match self.names.insert(copy) {
            Ok(is_new) => Ok(is_new),
            Err(_) => Err(NoMemory),
        }
    }
}
