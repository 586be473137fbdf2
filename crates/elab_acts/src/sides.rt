// `m.d`, its domains, and statements that are put under them.
ghost use Rattle.std.specs.Prelude.{◌≡◌, ◌+◌, ◌<◌, ◌≤◌, ◌++◌, ◌∷◌, [], map, drop, length, nat_lt, Some, None, IfOk, OnOk, option_map, slice_get};
ghost use Rattle.std.specs.Option.{option_copied};
ghost use Rattle.std.specs.List.{AllByRecursion};
ghost use Rattle.py_values.specs.declared.val.Val.TheVariants as val;
ghost use Rattle.py_heap.specs.Heaps.{seen};
ghost use Rattle.design_ir.specs.declared.process.Side.{Side as side};
ghost use Rattle.elab_acts.specs.Sides.{module_attribute, domain_given, index_name, is_domain_of, domain_stored, equation_of, row_of_list, equations_in, deepest, collected, statement_told, statements_told, statements_added};
ghost use Rattle.elab_store.specs.Sound.{IsSound, IsEquation};
ghost use Rattle.elab_store.specs.Stores.{side_of};
ghost use Rattle.elab_store.specs.Held.{held_of, Gives};

use crate::blocks::{block_named, give_block_name};
use design_ir::{Pool, Side};
use elab_machines::state_machines::part_named;
use elab_store::kept::{DomainName, Equation, Kept};
use elab_store::names::is_text;
use elab_store::store::{Elaboration, Store};
use identifiers::is_identifier;
use lists::NoMemory;
use py_frames::request::{Answer, Cause};
use py_heap::{Frozen, Heap};
use py_values::Val;

/// How deep lists of statements may stand in one another.
const DEEPEST: u32 = 64;

/// The name that an index is.
pub fn index_name<'a>(heap: &'a Heap, frozen: &'a Frozen, i: Val) -> Option<&'a str>
    ensures { option_copied result ≡ index_name (seen frozen.now heap.now) i }
{
    match i {
        Val::Str(x) => Some(heap.text(frozen, x)),
        _ => None,
    }
}

// Whether a thing is the domain of this name of this module.
fn is_domain_of(store: &Store, of: u32, name: Option<&str>, kept: Option<Kept>) -> bool
    ensures { result ≡ is_domain_of store.now of (option_copied name.entry) kept }
{
    match (name, kept) {
        (Some(text), Some(Kept::Domain { of: n, name: d })) => {
            n == of && store.is_domain(d, text)
        }
        _ => false,
    }
}

fn equation_of(kept: Option<Kept>) -> Option<Equation>
    ensures { result ≡ equation_of kept }
{
    match kept {
        Some(Kept::Statement(q)) => Some(q),
        _ => None,
    }
}

// The row of a list or of a tuple.
fn row_of_list<'a>(heap: &'a Heap, frozen: &'a Frozen, v: Val) -> Option<&'a [Val]>
    ensures { option_copied result ≡ row_of_list (seen frozen.now heap.now) v }
{
    match v {
        Val::List(o) | Val::Tuple(o) => Some(heap.row(frozen, o)),
        _ => None,
    }
}

// Puts the statements that a value is behind others, and says whether it is some.
fn collect(
    store: &Store,
    heap: &Heap,
    frozen: &Frozen,
    v: Val,
    room: u32,
    into: &mut Vec<Equation>,
) -> Result<bool, NoMemory>
    ensures { IfOk result (λ all. collected all into.new.items ≡ option_map (λ qs. into.old.items ++ qs) (equations_in room (seen frozen.now heap.now) store.now v)) }
{
    if let Some(q) = equation_of(store.kept_of(v)) {
        into.push(q)?;
        return Ok(true);
    }
    let Some(row) = row_of_list(heap, frozen, v) else {
        return Ok(false);
    };
    if room == 0 {
        return Ok(false);
    }
    for item in row {
        if !collect(store, heap, frozen, *item, room - 1, into)? {
            return Ok(false);
        }
    }
    Ok(true)
}

// Gives a module one statement more, and says why it is refused, where it is.
fn put(
    store: &mut Store,
    pool: &Pool,
    of: usize,
    side: &Side,
    q: &Equation,
) -> Result<Option<Cause>, NoMemory>
    requires { IsEquation pool.now q.now }
    ensures { IfOk result (λ why. (store.new, why) ≡ statement_told of side.now q.now (slice_get store.old.modules of) store.old) }
{
    if of >= store.modules.len() {
        return Ok(None);
    }
    let builder = &mut store.modules[of];
    if builder.in_switch() {
        return Ok(Some(Cause::Raised));
    }
    let added = builder.added_by(side);
    if added > 65_536 || store.statements as usize > 65_536 - added {
        return Ok(Some(Cause::Limit));
    }
    match builder.assign(pool, side, q.target, q.value, q.place) {
        Ok(()) => {
            store.statements += added as u32;
            Ok(None)
        }
        // the target is one, and there is room
        Err(_) => Err(NoMemory),
    }
}

// Gives a module statements, one after the other, up to the first that is refused.
fn put_all(
    store: &mut Store,
    pool: &Pool,
    of: usize,
    side: &Side,
    equations: &[Equation],
) -> Result<Option<Cause>, NoMemory>
    requires { AllByRecursion (IsEquation pool.now) equations.now }
    ensures { IfOk result (λ why. (store.new, why) ≡ statements_told of side.now equations.now store.old) }
{
    for q in equations {
        match put(store, pool, of, side, q)? {
            None => {}
            Some(why) => return Ok(Some(why)),
        }
    }
    Ok(None)
}

/// An attribute of a module: `m.d`, `m.submodules`, `m.domains`, or the name of a block.
pub fn module_attribute(
    elaboration: &mut Elaboration,
    of: u32,
    name: &str,
) -> Result<Answer, NoMemory>
    ensures { Gives result elaboration.new (module_attribute of name.now (held_of elaboration.old)) }
{
    if is_text(name, "d") {
        elaboration.give_kept(Kept::Domains(of))
    } else if is_text(name, "submodules") {
        elaboration.give_kept(Kept::Submodules(of))
    } else if is_text(name, "domains") {
        elaboration.give_kept(Kept::Definitions(of))
    } else {
        match part_named(of, name) {
            Some(part) => elaboration.give_kept(Kept::OfMachine(part)),
            None => give_block_name(elaboration, of, block_named(name)),
        }
    }
}

/// A domain of a module.
pub fn give_domain(
    elaboration: &mut Elaboration,
    of: u32,
    name: Option<&str>,
) -> Result<Answer, NoMemory>
    ensures { Gives result elaboration.new (domain_given of (option_copied name.entry) (held_of elaboration.old)) }
{
    let Some(text) = name else {
        return elaboration.refuse(Cause::Raised);
    };
    if is_text(text, "comb") {
        return elaboration.give_kept(Kept::Domain {
            of,
            name: DomainName::Comb,
        });
    }
    if !is_identifier(elaboration.alloc, text)? {
        return elaboration.refuse(Cause::Raised);
    }
    let name = elaboration.store.name_domain(elaboration.alloc, text)?;
    elaboration.give_kept(Kept::Domain { of, name })
}

/// A value is assigned to a domain's name.
pub fn store_domain(
    elaboration: &mut Elaboration,
    of: u32,
    name: Option<&str>,
    v: &Val,
) -> Result<Answer, NoMemory>
    ensures { Gives result elaboration.new (domain_stored of (option_copied name.entry) v.now (held_of elaboration.old)) }
{
    let kept = elaboration.store.kept_of(*v);
    if is_domain_of(&elaboration.store, of, name, kept) {
        elaboration.give(Val::None)
    } else {
        elaboration.refuse(Cause::Raised)
    }
}

/// Statements are put under a domain.
pub fn add_statements(
    elaboration: &mut Elaboration,
    heap: &Heap,
    frozen: &Frozen,
    x: &Val,
    of: u32,
    name: DomainName,
    v: &Val,
) -> Result<Answer, NoMemory>
    requires { IsSound (held_of elaboration.old) }
    ensures { Gives result elaboration.new (statements_added x.now of (side_of elaboration.old.store name) (equations_in deepest (seen frozen.now heap.now) elaboration.old.store v.now) (held_of elaboration.old)) }
{
    let Some(side) = elaboration.store.side_of(elaboration.alloc, name)? else {
        return elaboration.refuse(Cause::Raised);
    };
    let mut equations = Vec::new(elaboration.alloc);
    if !collect(
        &elaboration.store,
        heap,
        frozen,
        *v,
        DEEPEST,
        &mut equations,
    )? {
        return elaboration.refuse(Cause::Raised);
    }
    put_statements(elaboration, x, of, &side, equations.as_slice())
}

/// Statements are put on a side of a module, and a value is given.
pub fn put_statements(
    elaboration: &mut Elaboration,
    x: &Val,
    of: u32,
    side: &Side,
    equations: &[Equation],
) -> Result<Answer, NoMemory>
    requires { AllByRecursion (IsEquation elaboration.old.pool) equations.now }
    ensures { Gives result elaboration.new (statements_added x.now of (Some side.now) (Some equations.now) (held_of elaboration.old)) }
{
    if !equations.is_empty() && elaboration.store.in_machine(of) {
        return elaboration.refuse(Cause::Raised);
    }
    let why = put_all(
        &mut elaboration.store,
        &elaboration.pool,
        of as usize,
        side,
        equations,
    )?;
    match why {
        None => elaboration.give(*x),
        Some(why) => elaboration.refuse(why),
    }
}
