// What a plan makes is put at the ends of the pool and of the things.
ghost use Rattle.std.specs.Prelude.{◌≡◌, ◌++◌, ◌+◌, ◌≤◌, length, OnOk, IfOk};
ghost use Rattle.amh_things.specs.Plans.{ends_of, AreDrafted, grown_by};

use crate::plan::Ends;
use crate::queue::Queue;
use crate::thing::Thing;
use crate::values::Values;
use design_ir::{Expr, Exprs, PoolStop};
use lists::NoMemory;

/// How many expressions and things there are. An act tells the numbers of 128 things at most: where there would not be
/// numbers for these, it is want of memory, as where there is no number for one.
pub fn ends_of<P: Exprs>(pool: &P, values: &Values) -> Result<Ends, NoMemory>
    ensures { IfOk result (λ ends. ends ≡ ends_of (P.pooled pool.now) values.now) }
{
    let things = values.len();
    if things >= 4_294_967_167 {
        return Err(NoMemory);
    }
    Ok(Ends::of(pool.count(), things as u32))
}

// A pool refuses what it takes for want of memory alone.
fn want_of_memory(_stop: PoolStop) -> NoMemory
    requires { _stop ≡ PoolStop.NoMemory }
{
    NoMemory
}

/// Puts expressions at the end of a pool that takes them.
pub fn put_exprs<P: Exprs>(pool: &mut P, exprs: Queue<Expr>) -> Result<(), NoMemory>
    requires drafted { AreDrafted (P.pooled pool.old) exprs }
    requires room { length (P.pooled pool.old).exprs + length exprs ≤ 262144 }
    ensures { OnOk result (P.pooled pool.new ≡ grown_by (P.pooled pool.old) exprs) }
{
    let mut exprs = exprs;
    while let Some(e) = exprs.next() {
        match pool.expr(e) {
            Ok(_) => {}
            Err(stop) => return Err(want_of_memory(stop)),
        }
    }
    Ok(())
}

/// Puts things at the end of the list.
pub fn put_things(values: &mut Values, things: Queue<Thing>) -> Result<(), NoMemory>
    ensures { OnOk result (values.new ≡ values.old ++ things) }
{
    let mut things = things;
    while let Some(thing) = things.next() {
        let Ok(_) = values.put(thing) else {
            return Err(NoMemory);
        };
    }
    Ok(())
}
