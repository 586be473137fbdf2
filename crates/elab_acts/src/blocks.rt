// The blocks of a module: `m.If(c)` and the like, which `with` enters and leaves.
ghost use Rattle.std.specs.Prelude.{◌≡◌, ◌<◌, length, Some, None, IfOk, IfSome, slice_get, option_map};
ghost use Rattle.module_dsl.specs.declared.step.Block.TheVariants as dsl;
ghost use Rattle.py_heap.specs.Heaps.{seen};
ghost use Rattle.amh_things.specs.Meant.{expr_meant};
ghost use Rattle.amh_things.specs.Patterns.{AreWithin};
ghost use Rattle.std.specs.Prelude.{Option as Stopped};
ghost use Rattle.module_dsl.specs.declared.refusal.BuildStop.{BuildStop};
ghost use Rattle.module_dsl.specs.Builders.{IsOwed};
ghost use Rattle.elab_acts.specs.Blocks.{block_named, block_name_given, begin_with, condition_called, condition_given, plain_called, case_given, case_patterns, case_called, case_subject, store_with_patterns, block_called, block_of, stop_cause, entering, entered_at, block_entered, leaving, passed, block_left};
ghost use Rattle.elab_store.specs.Seen.{called_of};
ghost use Rattle.elab_store.specs.Sound.{IsSound};
ghost use Rattle.elab_acts.specs.Entering.{IsEntering};
ghost use Rattle.elab_store.specs.Kept.{IsMasked};
ghost use Rattle.elab_store.specs.Stores.{kept_of};
ghost use Rattle.elab_store.specs.Held.{held_of, Gives};

use amh_things::comparing::all_plain;
use amh_things::patterns::patterns_meant;
use amh_things::plan::PlanStop;
use design_ir::{ExprId, Exprs, Patterns, Pool};
use elab_store::calls::Called;
use elab_store::kept::{Begin, BlockName, Kept};
use elab_store::names::is_text;
use elab_store::store::{Elaboration, Store};
use lists::NoMemory;
use module_dsl::{Block, BuildStop};
use py_frames::request::{Answer, Cause};
use py_heap::{Frozen, Heap};
use py_values::Val;
use std::alloc::Global;

/// The block of a name.
pub(crate) fn block_named(name: &str) -> Option<BlockName>
    ensures { result ≡ block_named name.now }
{
    if is_text(name, "If") {
        Some(BlockName::If)
    } else if is_text(name, "Elif") {
        Some(BlockName::Elif)
    } else if is_text(name, "Else") {
        Some(BlockName::Else)
    } else if is_text(name, "Switch") {
        Some(BlockName::Switch)
    } else if is_text(name, "Case") {
        Some(BlockName::Case)
    } else if is_text(name, "Default") {
        Some(BlockName::Default)
    } else {
        None
    }
}

// What a refusal of a builder is told as.
fn told(stop: BuildStop) -> Result<Option<Cause>, NoMemory>
    ensures cause { IfOk result (λ why. why ≡ Some (stop_cause stop)) }
    ensures owed { IfOk result (λ _. (owed : Stopped BuildStop) → IsOwed owed stop → owed ≡ Some stop) }
{
    match stop {
        BuildStop::Order | BuildStop::NotTarget => Ok(Some(Cause::Raised)),
        BuildStop::Limit => Ok(Some(Cause::Limit)),
        BuildStop::NoMemory => Err(NoMemory),
    }
}

// How a block with a condition begins.
fn begin_with(name: BlockName, e: ExprId) -> Begin
    ensures { result ≡ begin_with name e }
{
    match name {
        BlockName::If => Begin::If(e),
        BlockName::Elif => Begin::Elif(e),
        _ => Begin::Switch(e),
    }
}

/// The name of a block, where it is one.
pub(crate) fn give_block_name(
    elaboration: &mut Elaboration,
    of: u32,
    name: Option<BlockName>,
) -> Result<Answer, NoMemory>
    ensures { Gives result elaboration.new (block_name_given of name (held_of elaboration.old)) }
{
    match name {
        Some(name) => elaboration.give_kept(Kept::BlockName { of, name }),
        None => elaboration.refuse(Cause::Raised),
    }
}

/// A call of a block's name.
pub fn call_block(
    elaboration: &mut Elaboration,
    heap: &Heap,
    frozen: &Frozen,
    of: u32,
    name: BlockName,
    call: &Called,
) -> Result<Answer, NoMemory>
    requires { IsSound (held_of elaboration.old) }
    ensures { Gives result elaboration.new (block_called (seen frozen.now heap.now) of name (called_of call.now) (held_of elaboration.old)) }
{
    match name {
        BlockName::If | BlockName::Elif | BlockName::Switch => call_condition(
            elaboration,
            of,
            name,
            call,
        ),
        BlockName::Else => call_plain(elaboration, of, Begin::Else, call),
        BlockName::Default => call_plain(elaboration, of, Begin::Default, call),
        BlockName::Case => call_case(elaboration, heap, frozen, of, call),
    }
}

// A block with a condition or a subject: one value, and no keyword.
fn call_condition(
    elaboration: &mut Elaboration,
    of: u32,
    name: BlockName,
    call: &Called,
) -> Result<Answer, NoMemory>
    requires { IsSound (held_of elaboration.old) }
    ensures { Gives result elaboration.new (condition_called of name (called_of call.now).placed (called_of call.now).keywords (held_of elaboration.old)) }
{
    match call.placed {
        [v] if call.keywords.is_empty() => give_condition(elaboration, of, name, v),
        _ => elaboration.refuse(Cause::Raised),
    }
}

fn give_condition(
    elaboration: &mut Elaboration,
    of: u32,
    name: BlockName,
    v: &Val,
) -> Result<Answer, NoMemory>
    requires { IsSound (held_of elaboration.old) }
    ensures { Gives result elaboration.new (condition_given of name (held_of elaboration.old) (expr_meant elaboration.old.pool elaboration.old.store.things v.now)) }
{
    match elaboration
        .store
        .value_meant(elaboration.alloc, &mut elaboration.pool, v)
    {
        Ok(e) => elaboration.give_kept(Kept::Block {
            of,
            begin: begin_with(name, e),
        }),
        Err(PlanStop::Refused(why)) => elaboration.refuse(why),
        Err(PlanStop::NoMemory) => Err(NoMemory),
    }
}

// A block without arguments.
fn call_plain(
    elaboration: &mut Elaboration,
    of: u32,
    begin: Begin,
    call: &Called,
) -> Result<Answer, NoMemory>
    ensures { Gives result elaboration.new (plain_called of begin (called_of call.now).placed (called_of call.now).keywords (held_of elaboration.old)) }
{
    if call.placed.is_empty() && call.keywords.is_empty() {
        elaboration.give_kept(Kept::Block { of, begin })
    } else {
        elaboration.refuse(Cause::Raised)
    }
}

// A case: patterns, and no keyword.
fn call_case(
    elaboration: &mut Elaboration,
    heap: &Heap,
    frozen: &Frozen,
    of: u32,
    call: &Called,
) -> Result<Answer, NoMemory>
    requires { IsSound (held_of elaboration.old) }
    ensures { Gives result elaboration.new (case_called (seen frozen.now heap.now) of (called_of call.now).placed (called_of call.now).keywords (held_of elaboration.old)) }
{
    if !call.keywords.is_empty() {
        return elaboration.refuse(Cause::Raised);
    }
    match case_subject(&elaboration.store, of) {
        Some(subject) => give_case(elaboration, heap, frozen, of, subject, call.placed),
        None => elaboration.give_kept(Kept::Block {
            of,
            begin: Begin::Misplaced,
        }),
    }
}

// A case of a subject.
fn give_case(
    elaboration: &mut Elaboration,
    heap: &Heap,
    frozen: &Frozen,
    of: u32,
    subject: ExprId,
    vals: &[Val],
) -> Result<Answer, NoMemory>
    requires { subject.0 < length elaboration.old.pool.exprs }
    ensures { Gives result elaboration.new (case_given of (case_patterns (seen frozen.now heap.now) (held_of elaboration.old) subject vals.now) (held_of elaboration.old)) }
{
    let shape = elaboration.pool.shape(subject);
    let vals = all_plain(elaboration.alloc, &elaboration.store.things, vals)?;
    match patterns_meant(elaboration.alloc, heap, frozen, shape, vals.as_slice())? {
        Some(patterns) => {
            let number = add_patterns(&mut elaboration.store, patterns)?;
            elaboration.give_kept(Kept::Block {
                of,
                begin: Begin::Case(number),
            })
        }
        None => elaboration.refuse(Cause::Raised),
    }
}

/// A `with` begins over a thing.
pub fn enter_block(elaboration: &mut Elaboration, x: &Val) -> Result<Answer, NoMemory>
    requires { IsSound (held_of elaboration.old) }
    ensures { Gives result elaboration.new (block_entered (kept_of elaboration.old.store x.now) (held_of elaboration.old)) }
{
    match elaboration.store.kept_of(*x) {
        Some(Kept::Block { of, begin }) => {
            if elaboration.store.in_machine(of) {
                return elaboration.refuse(Cause::Raised);
            }
            let block = block_of(&elaboration.store, elaboration.alloc, begin)?;
            enter_at(elaboration, of as usize, block)
        }
        _ => elaboration.refuse(Cause::Raised),
    }
}

// A block of a module is entered.
fn enter_at(
    elaboration: &mut Elaboration,
    of: usize,
    block: Option<Block>,
) -> Result<Answer, NoMemory>
    requires { IfSome block (IsEntering elaboration.old.pool (slice_get elaboration.old.store.modules of)) }
    ensures { Gives result elaboration.new (entered_at of (slice_get elaboration.old.store.modules of) block (held_of elaboration.old)) }
{
    let Some(block) = block else {
        return elaboration.refuse(Cause::Raised);
    };
    let why = begin_block(&mut elaboration.store, &mut elaboration.pool, of, block)?;
    pass(elaboration, why)
}

/// A `with` over a thing ends.
pub fn leave_block(elaboration: &mut Elaboration, x: &Val) -> Result<Answer, NoMemory>
    ensures { Gives result elaboration.new (block_left (kept_of elaboration.old.store x.now) (held_of elaboration.old)) }
{
    match elaboration.store.kept_of(*x) {
        Some(Kept::Block { of, .. }) => {
            let why = end_block(&mut elaboration.store, of as usize)?;
            pass(elaboration, why)
        }
        _ => elaboration.refuse(Cause::Raised),
    }
}

// Nothing is bound by `as`.
fn pass(elaboration: &mut Elaboration, why: Option<Cause>) -> Result<Answer, NoMemory>
    ensures { Gives result elaboration.new (passed (held_of elaboration.old, why)) }
{
    match why {
        None => elaboration.give(Val::None),
        Some(why) => elaboration.refuse(why),
    }
}

// The subject of the `Switch` in which a case of a module would stand directly.
fn case_subject(store: &Store, of: u32) -> Option<ExprId>
    ensures { result ≡ case_subject of store.now }
{
    if store.in_machine(of) {
        return None;
    }
    match store.modules.get(of as usize) {
        Some(builder) if builder.in_switch() => Some(builder.subject()),
        _ => None,
    }
}

// The patterns of one case more.
fn add_patterns(store: &mut Store, patterns: Patterns) -> Result<u32, NoMemory>
    requires { AreWithin patterns }
    ensures { IfOk result (λ n. (n ≡ length store.old.patterns) × (store.new ≡ store_with_patterns patterns store.old)) }
{
    let number = store.patterns.len();
    if number >= 4_294_967_295 {
        return Err(NoMemory);
    }
    store.patterns.push(patterns)?;
    Ok(number as u32)
}

// The block that begins so; none for a case that was misplaced.
fn block_of(store: &Store, alloc: Global, begin: Begin) -> Result<Option<Block>, NoMemory>
    ensures block { IfOk result (λ b. b ≡ block_of store.now.patterns begin) }
    ensures masked { IfOk result (λ b. IfSome b IsMasked) }
{
    Ok(match begin {
        Begin::If(e) => Some(Block::If(e)),
        Begin::Elif(e) => Some(Block::Elif(e)),
        Begin::Else => Some(Block::Else),
        Begin::Switch(e) => Some(Block::Switch(e)),
        Begin::Case(number) => return case_of(store, alloc, number as usize),
        Begin::Default => Some(Block::Default),
        Begin::Misplaced => None,
    })
}

// The case with these patterns.
fn case_of(store: &Store, alloc: Global, number: usize) -> Result<Option<Block>, NoMemory>
    ensures block { IfOk result (λ b. b ≡ option_map (λ p. dsl.Case p) (slice_get store.now.patterns number)) }
    ensures masked { IfOk result (λ b. IfSome b IsMasked) }
{
    match store.patterns.get(number) {
        Some(patterns) => Ok(Some(Block::Case(copied_patterns(alloc, patterns)?))),
        None => Ok(None),
    }
}

// A block of a module begins.
fn begin_block(
    store: &mut Store,
    pool: &mut Pool,
    of: usize,
    block: Block,
) -> Result<Option<Cause>, NoMemory>
    requires { IsEntering pool.old (slice_get store.old.modules of) block }
    ensures { IfOk result (λ why. (record { pool = pool.new; store = store.new }, why) ≡ entering of (slice_get store.old.modules of) block (record { pool = pool.old; store = store.old })) }
{
    if of >= store.modules.len() {
        return Ok(Some(Cause::Raised));
    }
    let builder = &mut store.modules[of];
    if let Err(stop) = builder.enter(pool, block) {
        let why = told(stop)?;
        return Ok(why);
    }
    Ok(None)
}

// The innermost block of a module ends.
fn end_block(store: &mut Store, of: usize) -> Result<Option<Cause>, NoMemory>
    ensures { IfOk result (λ why. (store.new, why) ≡ leaving of (slice_get store.old.modules of) store.old) }
{
    if of >= store.modules.len() {
        return Ok(Some(Cause::Raised));
    }
    let builder = &mut store.modules[of];
    if let Err(stop) = builder.leave() {
        let why = told(stop)?;
        return Ok(why);
    }
    Ok(None)
}

// The same patterns again.
fn copied_patterns(alloc: Global, patterns: &Patterns) -> Result<Patterns, NoMemory>
    ensures { IfOk result (λ ps. ps ≡ patterns.now) }
{
    let mut list = Patterns::new(alloc);
    for pattern in patterns.as_slice() {
        list.push(*pattern)?;
    }
    Ok(list)
}
