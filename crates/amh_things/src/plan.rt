// What an act makes and answers, before anything is done.
ghost use Rattle.std.specs.Prelude.{◌≡◌, ◌+◌, ◌≤◌, ◌<◌, ◌^◌, length, [], Ok};
ghost use Rattle.amh_things.specs.Ends.{AreEnds};
ghost use Rattle.amh_things.specs.Plans.{IsPlanned, valued, value_made, valued_made, read_made, thing_made, value_given};
ghost use Rattle.amh_things.specs.Things.{read_as};

use crate::queue::Queue;
use crate::thing::{Reading, Thing};
use design_ir::{Expr, ExprId};
use lists::NoMemory;
use py_frames::request::{Answer, Cause};
use py_values::{Hw, Val};
use std::alloc::Global;
use std::marker::Model;

/// How many expressions and things there are, which are the numbers of the next ones.
#[derive(Clone, Copy, PartialEq, Eq)]
pub struct Ends {
    exprs: u32,
    things: u32,
}

impl Model for Ends {
    ghost use Rattle.amh_things.specs.Ends.{Ends, AreEnds};

    ghost Value = { Ends };

    ghost view = { λ e. record { exprs = e.exprs; things = e.things } };

    ghost invariant = { λ e. AreEnds e.exprs e.things };

    ghost inverse = { λ e. record { exprs = e.exprs; things = e.things } };
}

/// What an act puts at the end of the pool and at the end of the things, and what it answers.
#[derive(Drop)]
pub struct Plan {
    pub exprs: Queue<Expr>,
    pub things: Queue<Thing>,
    pub answer: Answer,
}

/// Why there is no plan.
#[derive(Clone, Copy, PartialEq, Eq, Drop)]
pub enum PlanStop {
    /// The request is refused.
    Refused(Cause),
    /// No memory was left.
    NoMemory,
}

impl Ends {
    /// So many expressions and things.
    pub fn of(exprs: u32, things: u32) -> Ends
        requires { AreEnds exprs things }
        ensures { result ≡ record { exprs = exprs; things = things } }
    {
        Ends { exprs, things }
    }

    /// The number of the next expression.
    pub fn exprs(self) -> u32
        ensures value { result ≡ self.exprs }
        ensures few { result ≤ 2 ^ 30 }
    {
        self.exprs
    }

    /// The number of the next thing.
    pub fn things(self) -> u32
        ensures value { result ≡ self.things }
        ensures few { result + 128 < 2 ^ 32 }
    {
        self.things
    }

    /// A value over these expressions, which come before it.
    pub fn value(self, alloc: Global, exprs: Queue<Expr>, e: Expr) -> Result<Plan, PlanStop>
        requires { length exprs ≤ 262144 }
        ensures { IsPlanned result (Ok (value_made self exprs e)) }
    {
        self.valued(alloc, None, exprs, e)
    }

    /// A value by what it is read as, over these expressions.
    pub fn read(
        self,
        alloc: Global,
        reading: Reading,
        exprs: Queue<Expr>,
        e: Expr,
    ) -> Result<Plan, PlanStop>
        requires { length exprs ≤ 262144 }
        ensures { IsPlanned result (Ok (read_made self reading exprs e)) }
    {
        let mut exprs = exprs;
        let id = ExprId(self.exprs() + exprs.len() as u32);
        let Ok(()) = exprs.push(e) else {
            return Err(PlanStop::NoMemory);
        };
        let mut things = Queue::new(alloc);
        let Ok(()) = things.push(read_as(reading, id)) else {
            return Err(PlanStop::NoMemory);
        };
        Ok(Plan {
            exprs,
            things,
            answer: Answer::Give(Val::Hw(Hw(self.things()))),
        })
    }

    /// A value over these expressions, of the shape of an enumeration where one is given.
    pub fn valued(
        self,
        alloc: Global,
        of: Option<Hw>,
        exprs: Queue<Expr>,
        e: Expr,
    ) -> Result<Plan, PlanStop>
        requires { length exprs ≤ 262144 }
        ensures { IsPlanned result (Ok (valued_made self of exprs e)) }
    {
        let mut exprs = exprs;
        let id = ExprId(self.exprs() + exprs.len() as u32);
        let Ok(()) = exprs.push(e) else {
            return Err(PlanStop::NoMemory);
        };
        let mut things = Queue::new(alloc);
        let Ok(()) = things.push(valued(of, id)) else {
            return Err(PlanStop::NoMemory);
        };
        Ok(Plan {
            exprs,
            things,
            answer: Answer::Give(Val::Hw(Hw(self.things()))),
        })
    }

    /// A thing that is no value.
    pub fn thing(self, alloc: Global, thing: Thing) -> Result<Plan, PlanStop>
        ensures { IsPlanned result (Ok (thing_made self thing)) }
    {
        let mut things = Queue::new(alloc);
        let Ok(()) = things.push(thing) else {
            return Err(PlanStop::NoMemory);
        };
        Ok(Plan {
            exprs: Queue::new(alloc),
            things,
            answer: Answer::Give(Val::Hw(Hw(self.things()))),
        })
    }
}

/// The value of an expression, as what it is read as.
pub fn read_as(reading: Reading, value: ExprId) -> Thing
    ensures { result ≡ read_as reading value }
{
    match reading {
        Reading::Plain => Thing::Value(value),
        Reading::Numbered(of) => Thing::Numbered { of, value },
        Reading::Viewed(of) => Thing::View { of, value },
    }
}

/// The value of an expression, of the shape of an enumeration where one is given.
pub fn valued(of: Option<Hw>, value: ExprId) -> Thing
    ensures { result ≡ valued of value }
{
    match of {
        Some(of) => Thing::Numbered { of, value },
        None => Thing::Value(value),
    }
}

/// A value of the program that is there.
pub fn value_given(alloc: Global, v: Val) -> Plan
    ensures { result ≡ value_given v }
{
    Plan {
        exprs: Queue::new(alloc),
        things: Queue::new(alloc),
        answer: Answer::Give(v),
    }
}

/// A refusal as one that is raised.
pub fn raised() -> PlanStop
    ensures { result ≡ PlanStop.Refused Cause.Raised }
{
    PlanStop::Refused(Cause::Raised)
}
