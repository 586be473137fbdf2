// How many statements stand in a fragment and below it, up to one more than there may be.
ghost use Rattle.std.specs.Prelude.{◌≡◌, ◌+◌, ◌≤◌, min, true, false, IfOk, IfErr};
ghost use Rattle.design_ir.specs.Statements.{statement_of};
ghost use Rattle.domain_transforms.specs.declared.stop.ControlStop.TheVariants.{Limit};
ghost use Rattle.domain_transforms.specs.Counted.{block_count, choices_count, forest_count, fragment_count, is_past, processes_count, statement_count};

use crate::stop::ControlStop;
use design_ir::{Arms, Exprs, Fragment, Fragments, Pool, Process, Stmt, Stmts};

// One more statement than there may be.
const PAST: u32 = 65_537;

// One more, where there may be one.
fn one_more(count: u32) -> u32
    requires { count ≤ 65537 }
    ensures { result ≡ min 65537 (count + 1) }
{
    if count < PAST { count + 1 } else { PAST }
}

#[cycle(counts)]
fn count_block(count: u32, body: &Stmts) -> u32
    requires { count ≤ 65537 }
    ensures { result ≡ min 65537 (count + block_count body.now) }
{
    let mut count = count;
    for statement in body.as_slice() {
        count = count_statement(count, statement);
    }
    count
}

#[cycle(counts)]
fn count_statement(count: u32, statement: &Stmt) -> u32
    requires { count ≤ 65537 }
    ensures { result ≡ min 65537 (count + statement_count (statement_of statement.now)) }
{
    let count = one_more(count);
    match statement {
        Stmt::Assign { .. } => count,
        Stmt::Choose(arms) => count_arms(count, arms),
    }
}

#[cycle(counts)]
fn count_arms(count: u32, arms: &Arms) -> u32
    requires { count ≤ 65537 }
    ensures { result ≡ min 65537 (count + choices_count arms.now) }
{
    let mut count = count;
    for arm in arms.as_slice() {
        count = count_block(count, &arm.body);
    }
    count
}

fn count_processes(count: u32, processes: &[Process]) -> u32
    requires { count ≤ 65537 }
    ensures { result ≡ min 65537 (count + processes_count processes.now) }
{
    let mut count = count;
    for process in processes {
        count = count_block(count, &process.body);
    }
    count
}

#[cycle(fragment_counts)]
fn count_all(count: u32, modules: &Fragments) -> u32
    requires { count ≤ 65537 }
    ensures { result ≡ min 65537 (count + forest_count modules.now) }
{
    let mut count = count;
    for module in modules.as_slice() {
        count = count_processes(count, module.processes.as_slice());
        count = count_all(count, &module.submodules);
    }
    count
}

/// A fragment, unless it or its pool passes a count.
pub(crate) fn within(pool: &Pool, f: Fragment) -> Result<Fragment, ControlStop>
    ensures ok { IfOk result (λ g. (g ≡ f) × (is_past pool.now f ≡ false)) }
    ensures err { IfErr result (λ stop. (stop ≡ Limit) × (is_past pool.now f ≡ true)) }
{
    let count = count_processes(0, f.processes.as_slice());
    let count = count_all(count, &f.submodules);
    if pool.count() > 262_144 || count >= PAST {
        drop(f);
        return Err(ControlStop::Limit);
    }
    Ok(f)
}
