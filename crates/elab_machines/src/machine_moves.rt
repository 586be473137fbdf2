// What the innermost machine of a module does where a state begins or ends, or the machine ends.
ghost use Rattle.std.specs.Prelude.{◌≡◌, ◌≢◌, ◌<◌, ◌&&◌, ◌+◌, length, drop, Some, None, IfOk, slice_get, true, false};
ghost use Rattle.std.specs.Prelude.{◌==◌};
ghost use Rattle.std.specs.List.{AllByRecursion, list_any, list_all};
ghost use Rattle.design_ir.specs.declared.ids.ExprId.{ExprId as Number};
ghost use Rattle.design_ir.specs.Settling.{is_signal, is_match, names_place};
ghost use Rattle.design_ir.specs.PoolRules.{IsPool};
ghost use Rattle.module_dsl.specs.Blocks.{in_switch};
ghost use Rattle.module_dsl.specs.Builders.{built_blocks, built_count};
ghost use Rattle.fsm_lowering.specs.declared.refusal.FsmStop.{FsmStop};
ghost use Rattle.fsm_lowering.specs.Machines.{HasRegister};
ghost use Rattle.elab_store.specs.OpenMachines.{is_open, innermost, is_without_state, in_machine};
ghost use Rattle.elab_machines.specs.StateMachines.{chain_ended, store_begun, is_placed, is_at_choice, is_case_of, is_at_case, is_apart, is_unsettled, state_begins, state_ends, machine_ends, next_goes, moved, asked_of};
ghost use Rattle.elab_store.specs.Sound.{IsMachine, IsFront};
ghost use Rattle.elab_machines.specs.Moves.{action_moves, IsMoved, moved_as, told_after, asked_after};

use amh_host::Place;
use design_ir::{Expr, ExprId, Exprs, Pool, SigId};
use elab_store::own_machine::OwnMachine;
use elab_store::store::Store;
use fsm_lowering::{Fsm, FsmStop, Stage};
use lists::NoMemory;
use module_dsl::{Block, Builder};

/// What is done with a machine at the begin or the end of a `with`.
#[derive(Clone, Copy, PartialEq, Eq, Drop)]
pub enum Action {
    BeginState,
    EndState,
    EndMachine,
}

// ---- places

// The choice over the register is the innermost block, or there is none yet.
fn is_at_choice(machine: &Fsm, b: &Builder) -> bool
    ensures { result ≡ is_at_choice machine.now b.now }
{
    !machine.is_begun() || (b.in_switch() && b.subject().0 == machine.register().0)
}

// A case of the choice over the register is the innermost block.
fn is_at_case(machine: &Fsm, b: &Builder) -> bool
    ensures { result ≡ is_at_case machine.now b.now }
{
    match b.case_subject() {
        Some(subject) => subject.0 == machine.register().0,
        None => false,
    }
}

// ---- the register before it has its shape

fn is_signal(s: SigId, e: &Expr) -> bool
    ensures { result ≡ is_signal s.0 e.now }
{
    match e {
        Expr::Sig(t) => t.0 == s.0,
        _ => false,
    }
}

fn is_match(e: &Expr) -> bool
    ensures { result ≡ is_match e.now }
{
    match e {
        Expr::Matches { .. } => true,
        _ => false,
    }
}

fn are_place(es: &[ExprId], k: u32) -> bool
    ensures { result ≡ list_any (λ (e : Number). e.0 == k) es.now }
{
    es.iter().any(|e| e.0 == k)
}

// Whether an expression names the one at this place.
fn names_place(e: &Expr, k: u32) -> bool
    ensures { result ≡ names_place e.now k }
{
    match e {
        Expr::Const { .. } | Expr::Sig(_) | Expr::Reset { .. } => false,
        Expr::Unary { a, .. }
        | Expr::Slice { a, .. }
        | Expr::Cast { a, .. }
        | Expr::Matches { a, .. } => a.0 == k,
        Expr::Binary { a, b, .. } => a.0 == k || b.0 == k,
        Expr::Part { a, offset, .. } => a.0 == k || offset.0 == k,
        Expr::Mux { s, a, b } => s.0 == k || a.0 == k || b.0 == k,
        Expr::Cat(items) => are_place(items.as_slice(), k),
        Expr::Pick { index, items } => index.0 == k || are_place(items.as_slice(), k),
    }
}

// Whether an expression is not the register, and names it in a match alone.
fn is_apart(machine: &Fsm, e: &Expr) -> bool
    ensures { result ≡ is_apart machine.now e.now }
{
    !is_signal(machine.signal(), e) && (is_match(e) || !names_place(e, machine.register().0))
}

// Whether all that were made since the register are so.
fn are_apart(pool: &Pool, machine: &Fsm) -> bool
    requires { machine.now.register.0 < length pool.now.exprs }
    ensures { result ≡ list_all (is_apart machine.now) (drop (machine.now.register.0 + 1) pool.now.exprs) }
{
    let count = pool.count();
    for k in machine.register().0 + 1..count {
        if !is_apart(machine, pool.at(ExprId(k))) {
            return false;
        }
    }
    true
}

// Whether the register may get its shape.
fn is_unsettled(pool: &Pool, machine: &Fsm) -> bool
    requires { HasRegister pool.now machine.now }
    ensures value { result ≡ is_unsettled pool.now machine.now }
    ensures rules { IsPool pool.now }
{
    pool.known();
    pool.sig_at(machine.signal()).shape.width == 0 && are_apart(pool, machine)
}

// ---- moves

fn begin_state(
    pool: &mut Pool,
    machine: &mut Fsm,
    b: &mut Builder,
    name: &str,
    place: Place,
) -> Result<Option<FsmStop>, NoMemory>
    requires { HasRegister pool.old machine.old }
    ensures moved { IfOk result (λ why. IsMoved why (state_begins name.now place pool.old machine.old b.old) (moved_as pool.old machine.old b.old) (moved_as pool.new machine.new b.new)) }
    ensures count { built_count b.new ≡ built_count b.old }
{
    if !is_at_choice(machine, b) {
        return Ok(Some(FsmStop::Order));
    }
    if let Some(stop) = machine.state_stop(pool, b, name) {
        return Ok(Some(stop));
    }
    match machine.state(pool, b, name, place) {
        Ok(()) => Ok(None),
        // nothing else is refused
        Err(_) => Err(NoMemory),
    }
}

fn end_state(pool: &Pool, machine: &mut Fsm, b: &mut Builder) -> Result<Option<FsmStop>, NoMemory>
    ensures moved { IfOk result (λ why. IsMoved why (state_ends pool.now machine.old b.old) (moved_as pool.now machine.old b.old) (moved_as pool.now machine.new b.new)) }
    ensures count { built_count b.new ≡ built_count b.old }
{
    if !is_at_case(machine, b) {
        return Ok(Some(FsmStop::Order));
    }
    match machine.end_state(b) {
        Ok(()) => Ok(None),
        Err(FsmStop::NoMemory) => Err(NoMemory),
        Err(stop) => Ok(Some(stop)),
    }
}

fn end_machine(
    pool: &mut Pool,
    machine: &mut Fsm,
    b: &mut Builder,
) -> Result<Option<FsmStop>, NoMemory>
    requires register { HasRegister pool.old machine.old }
    requires front { IsFront pool.old machine.old }
    ensures moved { IfOk result (λ why. IsMoved why (machine_ends pool.old machine.old b.old) (moved_as pool.old machine.old b.old) (moved_as pool.new machine.new b.new)) }
    ensures count { built_count b.new ≡ built_count b.old }
{
    if !is_at_choice(machine, b) || !is_unsettled(pool, machine) {
        return Ok(Some(FsmStop::Order));
    }
    match machine.finish(pool, b) {
        Ok(()) => Ok(None),
        Err(FsmStop::NoMemory) => Err(NoMemory),
        Err(stop) => Ok(Some(stop)),
    }
}

fn act(
    pool: &mut Pool,
    machine: &mut Fsm,
    b: &mut Builder,
    action: Action,
    name: &str,
    place: Place,
) -> Result<Option<FsmStop>, NoMemory>
    requires register { HasRegister pool.old machine.old }
    requires front { IsFront pool.old machine.old }
    ensures moved { IfOk result (λ why. IsMoved why (action_moves action name.now place pool.old machine.old b.old) (moved_as pool.old machine.old b.old) (moved_as pool.new machine.new b.new)) }
    ensures count { built_count b.new ≡ built_count b.old }
{
    match action {
        Action::BeginState => begin_state(pool, machine, b, name, place),
        Action::EndState => end_state(pool, machine, b),
        Action::EndMachine => end_machine(pool, machine, b),
    }
}

// ---- the begin of a machine

// Nothing goes on with an `If` before this.
fn end_chain(pool: &mut Pool, b: &mut Builder, register: ExprId) -> Result<(), NoMemory>
    requires placed { in_switch (built_blocks b.old).around ≡ false }
    ensures ended { IfOk result (λ _. b.new ≡ chain_ended register b.old) }
    ensures count { built_count b.new ≡ built_count b.old }
    ensures pool { pool.new ≡ pool.old }
{
    // a choice may begin here, and makes no expression
    if b.enter(pool, Block::Switch(register)).is_err() {
        return Err(NoMemory);
    }
    match b.leave() {
        Ok(()) => Ok(()),
        Err(_) => Err(NoMemory),
    }
}

// What is told of a refusal: want of memory is no answer.
fn told(stop: FsmStop) -> Result<FsmStop, NoMemory>
    ensures { IfOk result (λ why. (why ≡ stop) × (stop ≢ FsmStop.NoMemory)) }
{
    match stop {
        FsmStop::NoMemory => Err(NoMemory),
        _ => Ok(stop),
    }
}

/// Whether an `FSM` of a module may begin here.
pub fn has_place(store: &Store, of: u32) -> bool
    ensures { result ≡ is_placed of (slice_get store.now.modules of) store.now.machines }
{
    match store.modules.get(of as usize) {
        Some(b) => !b.in_switch() && !store.in_machine(of),
        None => false,
    }
}

/// A machine of a module begins.
pub fn put_machine(
    store: &mut Store,
    pool: &mut Pool,
    of: u32,
    machine: Fsm,
) -> Result<(), NoMemory>
    requires { is_placed of (slice_get store.old.modules of) store.old.machines ≡ true }
    ensures begun { IfOk result (λ _. store.new ≡ store_begun of machine store.old) }
    ensures pool { pool.new ≡ pool.old }
{
    end_chain(pool, &mut store.modules[of as usize], machine.register())?;
    store.machines.push(OwnMachine { of, machine })?;
    Ok(())
}

/// The innermost machine of a module does something; where none is open that is out of order.
pub fn act_on_innermost(
    store: &mut Store,
    pool: &mut Pool,
    of: u32,
    action: Action,
    name: &str,
    place: Place,
) -> Result<Option<FsmStop>, NoMemory>
    requires { AllByRecursion (IsMachine pool.old) store.old.machines }
    ensures { IfOk result (λ why. moved (action_moves action name.now place) of place (record { pool = pool.old; store = store.old }) ≡ told_after why place (record { pool = pool.new; store = store.new })) }
{
    let Some(k) = store.innermost(of) else {
        return Ok(Some(FsmStop::Order));
    };
    if k >= store.machines.len() || of as usize >= store.modules.len() {
        return Ok(Some(FsmStop::Order));
    }
    let own = &mut store.machines[k];
    let b = &mut store.modules[of as usize];
    let why = act(pool, &mut own.machine, b, action, name, place)?;
    Ok(why)
}

/// A machine is asked for a state, open or ended.
pub fn ask_machine(
    store: &mut Store,
    pool: &mut Pool,
    number: usize,
    name: &str,
    place: Place,
) -> Result<Option<FsmStop>, NoMemory>
    requires { AllByRecursion (IsMachine pool.old) store.old.machines }
    ensures { IfOk result (λ why. asked_of number (slice_get store.old.machines number) name.now place (record { pool = pool.old; store = store.old }) ≡ asked_after why place (record { 0 = length pool.old.exprs }) (record { pool = pool.new; store = store.new })) }
{
    if number >= store.machines.len() {
        return Ok(Some(FsmStop::Order));
    }
    let machine = &mut store.machines[number].machine;
    if let Err(stop) = machine.ongoing(pool, name, place) {
        let why = told(stop)?;
        return Ok(Some(why));
    }
    Ok(None)
}

/// `m.next`: the innermost machine goes on to a state.
pub fn move_innermost(
    store: &mut Store,
    pool: &mut Pool,
    of: u32,
    name: &str,
    place: Place,
) -> Result<Option<FsmStop>, NoMemory>
    requires { AllByRecursion (IsMachine pool.old) store.old.machines }
    ensures { IfOk result (λ why. moved (next_goes of (record { pool = pool.old; store = store.old }) name.now place) of place (record { pool = pool.old; store = store.old }) ≡ told_after why place (record { pool = pool.new; store = store.new })) }
{
    let Some(k) = store.innermost(of) else {
        return Ok(Some(FsmStop::Order));
    };
    if k >= store.machines.len() || of as usize >= store.modules.len() {
        return Ok(Some(FsmStop::Order));
    }
    let machine = &mut store.machines[k].machine;
    let b = &mut store.modules[of as usize];
    match machine.next_stop(pool, b, name) {
        None => {}
        Some(stop) => return Ok(Some(stop)),
    }
    let added = b.added_by(machine.side());
    if added > 65_536 || store.statements as usize > 65_536 - added {
        return Ok(Some(FsmStop::Limit));
    }
    match machine.next(pool, b, name, place) {
        Ok(()) => {
            store.statements += added as u32;
            Ok(None)
        }
        // it is in its place, and there is room
        Err(_) => Err(NoMemory),
    }
}
