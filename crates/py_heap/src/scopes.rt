// Scopes: binding names and reading them.
ghost use Rattle.std.specs.Prelude.{◌≡◌, ◌<◌, length, unwrap_or, Ok};
ghost use Rattle.std.specs.Option.{option_copied};
ghost use Rattle.py_heap.specs.Heaps.{seen};
ghost use Rattle.py_values.specs.Runs.{Answers, paired};
ghost use Rattle.py_values.specs.Bindings.{bound_in};
ghost use Rattle.py_heap.specs.declared.scopes.LookUp.{LookUp};
ghost use Rattle.py_heap.specs.Names.{new_scope, scope_at, bindings_at, enclosing_in, in_module, in_chain, in_chained, in_class, look_up, own_bound, scope_bound};

use crate::heap::{Frozen, Heap, next_number};
use py_values::{Bindings, OwnNames, Scope, ScopeId, Val, ValueStop};

/// What a name means where it is read.
#[derive(Clone, Copy, PartialEq, Eq, Drop)]
pub enum LookUp {
    /// This value.
    Found(Val),
    /// A body that runs binds the name, and has not bound it yet.
    Unbound,
    /// No scope has it, so it is a builtin or nothing.
    Nowhere,
}

impl Heap {
    /// A new scope, which binds nothing yet.
    pub fn scope(
        &mut self,
        frozen: &Frozen,
        enclosing: Option<ScopeId>,
        is_class: bool,
        own: OwnNames,
    ) -> Result<ScopeId, ValueStop>
        ensures { Answers (paired result self.new) (new_scope (seen frozen.now self.old) enclosing is_class own) }
    {
        let Ok(id) = next_number(frozen.made.scopes.len(), self.scopes.len()) else {
            return Err(ValueStop::NoMemory);
        };
        let bindings = Bindings::new(self.alloc);
        let Ok(()) = self.scopes.push(Scope {
            enclosing,
            is_class,
            own,
            bindings,
        })
        else {
            return Err(ValueStop::NoMemory);
        };
        Ok(ScopeId(id))
    }
}

impl Heap {
    /// The scope of a number, where there is one: its names with their values, and the scope that encloses it.
    pub fn scope_at<'a>(&'a self, frozen: &'a Frozen, id: ScopeId) -> Option<&'a Scope>
        ensures { option_copied result ≡ scope_at (seen frozen.now self.now) id.0 }
    {
        let before = frozen.made.scopes.len();
        let i = id.0 as usize;
        if i < before {
            frozen.made.scopes.get(i)
        } else {
            self.scopes.get(i - before)
        }
    }

    /// The scope that encloses another.
    pub fn enclosing(&self, frozen: &Frozen, scope: ScopeId) -> Option<ScopeId>
        ensures { result ≡ enclosing_in (scope_at (seen frozen.now self.now) scope.0) }
    {
        match self.scope_at(frozen, scope) {
            Some(scope) => scope.enclosing,
            None => None,
        }
    }

    /// The value of a name that a scope itself binds.
    pub fn bound(&self, frozen: &Frozen, scope: ScopeId, name: &str) -> Option<Val>
        ensures { result ≡ bound_in name.now (bindings_at (seen frozen.now self.now) scope.0) }
    {
        match self.scope_at(frozen, scope) {
            Some(scope) => scope.bindings.get(name),
            None => None,
        }
    }

    // What the scopes of a chain say of a name.
    fn in_chain(&self, frozen: &Frozen, scopes: u32, first: Option<ScopeId>, name: &str) -> LookUp
        ensures { result ≡ in_chain scopes (seen frozen.now self.now) name.now first }
    {
        let mut at = first;
        for _turn in 0..scopes {
            let Some(id) = at else {
                return LookUp::Nowhere;
            };
            let Some(scope) = self.scope_at(frozen, id) else {
                return LookUp::Nowhere;
            };
            if let Some(meaning) = told(scope, name) {
                return meaning;
            }
            at = scope.enclosing;
        }
        LookUp::Nowhere
    }

    /// What a name means where code of a scope reads it.
    pub fn look_up(&self, frozen: &Frozen, scope: ScopeId, name: &str) -> LookUp
        ensures { result ≡ look_up (seen frozen.now self.now) scope.0 name.now }
    {
        let Some(first) = self.scope_at(frozen, scope) else {
            return LookUp::Nowhere;
        };
        if first.is_class {
            return self.in_class(frozen, scope.0, first, name);
        }
        match told(first, name) {
            Some(meaning) => meaning,
            None => self.in_chain(frozen, scope.0, first.enclosing, name),
        }
    }

    // What a name means in the body of a class.
    fn in_class(&self, frozen: &Frozen, scopes: u32, scope: &Scope, name: &str) -> LookUp
        ensures { result ≡ in_class (seen frozen.now self.now) name.now scope.now (in_chain scopes (seen frozen.now self.now) name.now scope.now.enclosing) }
    {
        match scope.bindings.get(name) {
            Some(v) => LookUp::Found(v),
            None if scope.own.has(name) => self.in_module(frozen, name),
            None => self.in_chain(frozen, scopes, scope.enclosing, name),
        }
    }

    // What the module's scope says of a name.
    fn in_module(&self, frozen: &Frozen, name: &str) -> LookUp
        ensures { result ≡ in_module (seen frozen.now self.now) name.now }
    {
        match self.bound(frozen, ScopeId(0), name) {
            Some(v) => LookUp::Found(v),
            None => LookUp::Nowhere,
        }
    }

    // Binds a name in a scope of this heap, by its place in it.
    fn bind_own(&mut self, i: usize, name: &str, v: Val) -> Result<(), ValueStop>
        requires { i < length self.old.scopes }
        ensures { Answers (paired result self.new) (Ok (tt, own_bound self.old i name.now v)) }
    {
        match self.scopes[i].bindings.bind(name, v) {
            Ok(()) => Ok(()),
            Err(_) => Err(ValueStop::NoMemory),
        }
    }

    /// Binds a name in a scope: one that stands keeps its place. A scope that was frozen refuses it.
    pub fn bind(
        &mut self,
        frozen: &Frozen,
        scope: ScopeId,
        name: &str,
        v: Val,
    ) -> Result<(), ValueStop>
        ensures { Answers (paired result self.new) (scope_bound (seen frozen.now self.old) scope.0 name.now v) }
    {
        let before = frozen.made.scopes.len();
        let i = scope.0 as usize;
        if i < before {
            return Err(ValueStop::Raised);
        }
        if i - before < self.scopes.len() {
            self.bind_own(i - before, name, v)
        } else {
            Err(ValueStop::Raised)
        }
    }
}

// What one scope of a chain says of a name by itself.
fn told(scope: &Scope, name: &str) -> Option<LookUp>
    ensures { (behind : LookUp) → in_chained name.now scope.now behind ≡ unwrap_or result behind }
{
    if scope.is_class {
        return None;
    }
    match scope.bindings.get(name) {
        Some(v) => Some(LookUp::Found(v)),
        None if scope.own.has(name) => Some(LookUp::Unbound),
        None => None,
    }
}
