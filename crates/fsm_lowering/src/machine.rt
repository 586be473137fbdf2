// State machines.
ghost use Rattle.std.specs.Prelude.{Option, nat_le, true, false, ◌≡◌, ◌≢◌, ◌<◌, ◌∷◌, ◌++◌, ◌↔◌, [], length, None, Some, IfOk, IfErr, OnOk, IsSome, IsTrue, option_copied, codes, ◌⊎◌, ◌||◌};
ghost use Rattle.design_ir.specs.Settling.{IsUnsettled};
ghost use Rattle.design_ir.specs.PoolRules.{IsPool, expr_added, signal_added};
ghost use Rattle.module_dsl.specs.Builders.{built_blocks, built_count, and_left};
ghost use Rattle.fsm_lowering.specs.declared.refusal.FsmStop.{FsmStop};
ghost use Rattle.fsm_lowering.specs.States.{first_unentered, is_entered, number_of, condition_in, range_width, is_finished};
ghost use Rattle.fsm_lowering.specs.Machines.{AreStates, open_switch, open_case, no_bits, HasRegister, in_state, state_number};
ghost use Rattle.fsm_lowering.specs.Calls.{is_too_many, is_full, IsAtChoice, IsAtCase, is_begun, has_no_place, with_choice, IsOwed, Unless, UnlessMemory, next_stop, IsAtMost, stop_where, new_refusal, with_signal, with_register, machine_at, state_refusal, and_state, with_case, end_refusal, and_ended, next_refusal, and_mention, with_next, ongoing_refusal, and_asked, finish_refusal, and_finished, with_end, with_shape, first_number, undefined_state, undefined_init, has_no_bits, settled_at};

use crate::conditions::{
    assign, begin_case, begin_switch, leave, made, number_pattern, state_number,
};
use crate::refusal::FsmStop;
use crate::states::{
    Stage, State, condition_in, copied, enter, first_unentered, hold, is_entered, mention,
    number_of, range_width,
};
use amh_bits::Int;
use amh_host::{Place, Text};
use design_ir::{Expr, ExprId, Exprs, Pool, PoolStop, Side, Sig, SigId};
use module_dsl::{Block, Builder};
use shape_rules::Shape;
use std::alloc::Global;
use std::marker::Model;

/// A state machine of a module: one choice over a register. Contracts see a `Machine`.
///
/// Each call after `new` needs the pool with the machine's register, and the calls that begin or end a block of the builder
/// need that the innermost one is the machine's own.
#[derive(Drop)]
pub struct Fsm {
    alloc: Global,
    side: Side,
    init: Option<Text>,
    place: Place,
    signal: SigId,
    register: ExprId,
    states: Vec<State>,
    first: Option<usize>,
    stage: Stage,
}

impl Model for Fsm {
    ghost use Rattle.fsm_lowering.specs.Machines.{Machine, AreStates};

    ghost Value = { Machine };

    ghost view = { λ a. record { side = a.side; init = a.init; place = a.place; signal = a.signal; register = a.register; states = a.states.items; first = a.first; stage = a.stage } };

    ghost invariant = { λ a. AreStates a.states.items a.first };
}

impl Fsm {
    /// A machine without states, whose statements change in a clocked domain. It makes the register and its expression, and
    /// `Limit` comes exactly where the pool has no room for one of them.
    pub fn new(
        alloc: Global,
        pool: &mut Pool,
        domain: &str,
        name: &str,
        init: Option<&str>,
        place: Place,
    ) -> Result<Fsm, FsmStop>
        requires { domain.now ≢ codes "comb" }
        ensures made { IfOk result (λ m. (new_refusal pool.old ≡ None) × (m ≡ machine_at pool.old domain.now (option_copied init.entry) place) × (pool.new ≡ with_register pool.old name.now)) }
        ensures register { IfOk result (λ m. HasRegister pool.new m × IsUnsettled pool.new m.signal.0) }
        ensures refused { IfErr result (λ stop. IsOwed (new_refusal pool.old) stop) }
        ensures unchanged { IfErr result (λ stop. UnlessMemory stop (pool.new ≡ pool.old)) }
        ensures pool { IfErr result (λ _. (pool.new ≡ pool.old) ⊎ (pool.new ≡ with_signal pool.old name.now)) }
    {
        if pool.count() >= 262_144 {
            return Err(FsmStop::Limit);
        }
        let side = Side::Clocked(copied(alloc, domain)?);
        let init = match init {
            None => None,
            Some(name) => Some(copied(alloc, name)?),
        };
        let mut register_name = copied(alloc, name)?;
        register_name.push("_state")?;
        let signal = unsettled(pool, register_name)?;
        let register = made(pool, Expr::Sig(signal))?;
        Ok(Fsm {
            alloc,
            side,
            init,
            place,
            signal,
            register,
            states: Vec::new(alloc),
            first: None,
            stage: Stage::Between,
        })
    }

    /// A state begins. `Order` comes exactly where a state is open, the machine is finished, or its choice cannot begin since
    /// the module is directly in a `Switch`; else `Repeated` exactly where the state was entered before; else `Limit` exactly
    /// where it would be the 257th, or the pool has no room for its condition.
    pub fn state(
        &mut self,
        pool: &mut Pool,
        b: &mut Builder,
        name: &str,
        place: Place,
    ) -> Result<(), FsmStop>
        requires register { HasRegister pool.old self.old }
        requires in_place { IsAtChoice self.old b.old }
        ensures begun { IfOk result (λ _. (state_refusal pool.old self.old b.old name.now ≡ None) × (self.new ≡ and_state self.old name.now place (record { 0 = length pool.old.exprs })) × (b.new ≡ with_case pool.old self.old b.old name.now) × (pool.new ≡ expr_added pool.old (in_state self.old (number_of self.old.states name.now)))) }
        ensures in_place { IfOk result (λ _. open_case (built_blocks b.new).around ≡ Some self.new.register) }
        ensures count { built_count b.new ≡ built_count b.old }
        ensures refused { IfErr result (λ stop. IsOwed (state_refusal pool.old self.old b.old name.now) stop) }
        ensures unchanged { IfErr result (λ stop. Unless stop ((self.new ≡ self.old) × (b.new ≡ b.old) × (pool.new ≡ pool.old))) }
        ensures pool { IfErr result (λ _. IsAtMost pool.old (in_state self.old (number_of self.old.states name.now)) pool.new) }
    {
        if !self.stage.is_between() {
            return Err(FsmStop::Order);
        }
        if is_entered(self.states.as_slice(), name) {
            return Err(FsmStop::Repeated);
        }
        self.begin_choice(pool, b)?;
        let number = number_of(self.states.as_slice(), name);
        if number >= 256 {
            return Err(FsmStop::Limit);
        }
        let condition = ExprId(pool.count());
        let patterns = number_pattern(self.alloc, number)?;
        begin_case(pool, b, self.register, patterns)?;
        enter(self.alloc, &mut self.states, name, place, condition)?;
        self.first = Some(self.first.unwrap_or(number));
        self.stage = Stage::Within;
        Ok(())
    }

    /// The state that is open ends. `Order` comes exactly where none is.
    pub fn end_state(&mut self, b: &mut Builder) -> Result<(), FsmStop>
        requires in_place { IsAtCase self.old b.old }
        ensures ended { IfOk result (λ _. (end_refusal self.old ≡ None) × (self.new ≡ and_ended self.old) × (b.new ≡ and_left b.old)) }
        ensures in_place { IfOk result (λ _. open_switch (built_blocks b.new).around ≡ Some self.new.register) }
        ensures count { built_count b.new ≡ built_count b.old }
        ensures refused { IfErr result (λ stop. IsOwed (end_refusal self.old) stop × (self.new ≡ self.old) × (b.new ≡ b.old)) }
    {
        if !self.stage.is_within() {
            return Err(FsmStop::Order);
        }
        leave(b)?;
        self.stage = Stage::Between;
        Ok(())
    }

    /// The register takes the number of this state at the next edge. `Order` comes exactly where no state is open, or the
    /// module is directly in a `Switch`; else `Limit` exactly where it would be the 257th state, the pool has no room for the
    /// number, or the module none for the statement.
    pub fn next(
        &mut self,
        pool: &mut Pool,
        b: &mut Builder,
        name: &str,
        place: Place,
    ) -> Result<(), FsmStop>
        requires { HasRegister pool.old self.old }
        ensures given { IfOk result (λ _. (next_refusal pool.old self.old b.old name.now place ≡ None) × (self.new ≡ and_mention self.old name.now place) × (b.new ≡ with_next pool.old self.old b.old place) × (pool.new ≡ expr_added pool.old (state_number (number_of self.old.states name.now)))) }
        ensures refused { IfErr result (λ stop. IsOwed (next_refusal pool.old self.old b.old name.now place) stop) }
        ensures unchanged { IfErr result (λ stop. Unless stop ((self.new ≡ self.old) × (b.new ≡ b.old) × (pool.new ≡ pool.old))) }
        ensures module { IfErr result (λ _. b.new ≡ b.old) }
        ensures pool { IfErr result (λ _. IsAtMost pool.old (state_number (number_of self.old.states name.now)) pool.new) }
    {
        if !self.stage.is_within() || b.in_switch() {
            return Err(FsmStop::Order);
        }
        let number = number_of(self.states.as_slice(), name);
        if number >= 256 {
            return Err(FsmStop::Limit);
        }
        let value = made(pool, state_number(number))?;
        mention(self.alloc, &mut self.states, name, place)?;
        // the statement last: where it is refused the module is as it was
        assign(pool, b, &self.side, self.register, value, place)?;
        Ok(())
    }

    /// An expression that is 1 where the machine is in this state. `Order` comes exactly where the machine is finished and the
    /// state was not entered; else `Limit` exactly where it would be the 257th state, or the pool has no room.
    pub fn ongoing(&mut self, pool: &mut Pool, name: &str, place: Place) -> Result<ExprId, FsmStop>
        requires { HasRegister pool.old self.old }
        ensures made { IfOk result (λ id. (ongoing_refusal pool.old self.old name.now ≡ None) × (id ≡ record { 0 = length pool.old.exprs }) × (self.new ≡ and_asked self.old name.now place id) × (pool.new ≡ expr_added pool.old (in_state self.old (number_of self.old.states name.now)))) }
        ensures refused { IfErr result (λ stop. IsOwed (ongoing_refusal pool.old self.old name.now) stop) }
        ensures unchanged { IfErr result (λ stop. UnlessMemory stop ((self.new ≡ self.old) × (pool.new ≡ pool.old))) }
        ensures pool { IfErr result (λ _. IsAtMost pool.old (in_state self.old (number_of self.old.states name.now)) pool.new) }
    {
        if self.stage.is_finished() && !is_entered(self.states.as_slice(), name) {
            return Err(FsmStop::Order);
        }
        let number = number_of(self.states.as_slice(), name);
        if number >= 256 {
            return Err(FsmStop::Limit);
        }
        let e = Expr::Matches {
            a: self.register,
            patterns: number_pattern(self.alloc, number)?,
        };
        let condition = made(pool, e)?;
        hold(self.alloc, &mut self.states, name, place, condition)?;
        Ok(condition)
    }

    /// The machine ends. `Order` comes exactly where a state is open or it is finished; else `UndefinedState` exactly at the
    /// first mention of the first state that was never entered, else at the machine where its `init` was never entered; else
    /// `Limit` exactly where the bits of all signals would be too many. Without any state it is dropped.
    pub fn finish(&mut self, pool: &mut Pool, b: &mut Builder) -> Result<(), FsmStop>
        requires unsettled { IsUnsettled pool.old self.old.signal.0 }
        requires in_place { IsAtChoice self.old b.old }
        ensures finished { IfOk result (λ _. (finish_refusal pool.old self.old ≡ None) × (self.new ≡ and_finished self.old) × (b.new ≡ with_end self.old b.old) × (pool.new ≡ with_shape pool.old self.old)) }
        ensures count { built_count b.new ≡ built_count b.old }
        ensures refused { IfErr result (λ stop. IsOwed (finish_refusal pool.old self.old) stop) }
        ensures unchanged { IfErr result (λ stop. UnlessMemory stop ((pool.new ≡ pool.old) × ((self.new ≡ self.old) × (b.new ≡ b.old)))) }
    {
        if !self.stage.is_between() {
            return Err(FsmStop::Order);
        }
        if let Some(mention) = self.undefined() {
            return Err(FsmStop::UndefinedState(mention));
        }
        if let Some(number) = self.first_number() {
            settle(pool, self.signal, self.states.len(), number)?;
        }
        if self.first.is_some() {
            leave(b)?;
        }
        self.stage = Stage::Finished;
        Ok(())
    }

    /// The first expression that `state` or `ongoing` made for a state that was entered, and `None` exactly for another name.
    pub fn held(&self, name: &str) -> Option<ExprId>
        requires { is_finished self.now.stage ≡ true }
        ensures held { result ≡ condition_in self.now.states name.now }
        ensures exactly { IsSome result ↔ IsTrue (is_entered self.now.states name.now) }
    {
        condition_in(self.states.as_slice(), name)
    }

    /// Opens the machine, so that a caller knows what its states keep to.
    pub fn known(&self)
        ensures { AreStates self.now.states self.now.first }
    {
        let _ = &self.first;
    }

    /// The expression that is the register.
    pub fn register(&self) -> ExprId
        ensures { result ≡ self.now.register }
    {
        self.register
    }

    /// The signal that is the register.
    pub fn signal(&self) -> SigId
        ensures { result ≡ self.now.signal }
    {
        self.signal
    }

    /// The side whose statements change the state.
    pub fn side(&self) -> &Side
        ensures { result.now ≡ self.now.side }
    {
        &self.side
    }

    /// Where the machine stands.
    pub fn stage(&self) -> Stage
        ensures { result ≡ self.now.stage }
    {
        self.stage
    }

    /// Whether a state was entered.
    pub fn is_begun(&self) -> bool
        ensures { result ≡ is_begun self.now }
    {
        self.first.is_some()
    }

    /// What `state` would refuse.
    pub fn state_stop(&self, pool: &Pool, b: &Builder, name: &str) -> Option<FsmStop>
        ensures { result ≡ state_refusal pool.now self.now b.now name.now }
    {
        if !self.stage.is_between() || (!self.is_begun() && b.in_switch()) {
            return Some(FsmStop::Order);
        }
        let entered = is_entered(self.states.as_slice(), name);
        if entered {
            return Some(FsmStop::Repeated);
        }
        self.limit(pool, name)
    }

    /// What `next` would refuse but for the count of the module's statements.
    pub fn next_stop(&self, pool: &Pool, b: &Builder, name: &str) -> Option<FsmStop>
        ensures { result ≡ next_stop pool.now self.now b.now name.now }
    {
        if !self.stage.is_within() || b.in_switch() {
            return Some(FsmStop::Order);
        }
        self.limit(pool, name)
    }

    // Whether this would be one state or one expression too many.
    fn limit(&self, pool: &Pool, name: &str) -> Option<FsmStop>
        ensures { result ≡ stop_where FsmStop.Limit (is_too_many self.now name.now || is_full pool.now) None }
    {
        if number_of(self.states.as_slice(), name) >= 256 || pool.count() >= 262_144 {
            Some(FsmStop::Limit)
        } else {
            None
        }
    }

    // The choice over the register begins, with the first state.
    fn begin_choice(&self, pool: &mut Pool, b: &mut Builder) -> Result<(), FsmStop>
        requires { is_begun self.now ≡ true → open_switch (built_blocks b.old).around ≡ Some self.now.register }
        ensures begun { IfOk result (λ _. (has_no_place self.now b.old ≡ false) × (b.new ≡ with_choice pool.old self.now b.old) × (open_switch (built_blocks b.new).around ≡ Some self.now.register)) }
        ensures count { built_count b.new ≡ built_count b.old }
        ensures refused { IfErr result (λ stop. IsOwed (stop_where FsmStop.Order (has_no_place self.now b.old) None) stop × (b.new ≡ b.old)) }
        ensures pool { pool.new ≡ pool.old }
    {
        match self.first {
            Some(_) => Ok(()),
            None => begin_switch(pool, b, self.register),
        }
    }

    // Where a state was mentioned first, or given as `init`, that was never entered.
    fn undefined(&self) -> Option<Place>
        ensures { (others : Option FsmStop) → undefined_state (first_unentered self.now.states) (undefined_init self.now.states self.now.init self.now.place others) ≡ undefined_state result others }
    {
        if let Some(mention) = first_unentered(self.states.as_slice()) {
            return Some(mention);
        }
        match &self.init {
            Some(name) if !is_entered(self.states.as_slice(), name.as_str()) => Some(self.place),
            _ => None,
        }
    }

    // The number of the first state.
    fn first_number(&self) -> Option<usize>
        ensures { result ≡ first_number self.now }
    {
        match &self.init {
            Some(name) => Some(number_of(self.states.as_slice(), name.as_str())),
            None => self.first,
        }
    }
}

// The register as it is made: no state is known yet.
fn unsettled(pool: &mut Pool, name: Text) -> Result<SigId, FsmStop>
    ensures made { IfOk result (λ id. (nat_le 16384 (length pool.old.signals) ≡ false) × (id ≡ record { 0 = length pool.old.signals }) × (pool.new ≡ signal_added pool.old (no_bits name))) }
    ensures rules { IsPool pool.old }
    ensures refused { IfErr result (λ stop. IsOwed (stop_where FsmStop.Limit (nat_le 16384 (length pool.old.signals)) None) stop × (pool.new ≡ pool.old)) }
{
    pool.known();
    let signal = Sig {
        name,
        shape: Shape {
            width: 0,
            signed: false,
        },
        init: Int::of_u128(0),
        reset_less: false,
    };
    match pool.sig(signal) {
        Ok(id) => Ok(id),
        Err(PoolStop::Limit) => Err(FsmStop::Limit),
        Err(_) => Err(FsmStop::NoMemory),
    }
}

// The register gets the shape of so many states, and the number of the first.
fn settle(pool: &mut Pool, signal: SigId, count: usize, first: usize) -> Result<(), FsmStop>
    requires unsettled { IsUnsettled pool.old signal.0 }
    requires few { count < 257 }
    requires among { first < count }
    ensures settled { IfOk result (λ _. (has_no_bits pool.old (range_width count) (Some first) ≡ false) × (pool.new ≡ settled_at pool.old signal (range_width count) (Some first))) }
    ensures refused { IfErr result (λ stop. (stop ≡ FsmStop.Limit) × (has_no_bits pool.old (range_width count) (Some first) ≡ true) × (pool.new ≡ pool.old)) }
{
    let shape = Shape {
        width: range_width(count),
        signed: false,
    };
    match pool.settle(signal, shape, Int::of_u128(first as u128)) {
        Ok(()) => Ok(()),
        Err(_) => Err(FsmStop::Limit),
    }
}
