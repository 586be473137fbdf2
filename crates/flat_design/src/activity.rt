// Whether a statement is carried out, as an expression of one bit.
ghost use Rattle.std.specs.Prelude.{◌≡◌, ◌<◌, ◌≤◌, ◌^◌, ◌↔◌, ◌++◌, ◌&&◌, not, List, ℤ, Bool, All, Some, IfOk, IfSome, IsTrue, if◌then◌else◌};
ghost use Rattle.shape_rules.specs.Operators.{is_zero};
ghost use Rattle.shape_rules.specs.declared.op.Op.TheVariants.{Eq, Ge};
ghost use Rattle.design_ir.specs.PoolRules.{IsPool};
ghost use Rattle.design_ir.specs.Values.{num};
ghost use Rattle.design_ir.specs.Targets.{Bit};
ghost use Rattle.design_ir.specs.Needed.{needed_whole};
ghost use Rattle.design_ir.specs.GuardedPut.{holds};
ghost use Rattle.flat_design.specs.Growing.{IsMore, IsReadable};
ghost use Rattle.flat_design.specs.Activity.{IsOneBit, IsActive, IsActiveBit, IsTest, test_holds, tests_hold, tests_need};

use crate::adding::{added, constant};
use crate::writes::Test;
use amh_host::NoMemory;
use design_ir::{Expr, ExprId, Exprs, Pool};
use shape_rules::Op;

/// What is carried out where one more condition is not 0, or is 0.
pub(crate) fn with_condition(
    pool: &mut Pool,
    active: Option<ExprId>,
    condition: ExprId,
    taken: bool,
) -> Result<Option<ExprId>, NoMemory>
    requires active { IfSome active (IsOneBit pool.old) }
    requires condition { IsReadable pool.old condition }
    ensures more { IfOk result (λ _. IsMore pool.old pool.new) }
    ensures rules { IfOk result (λ _. IsPool pool.new) }
    ensures active { (test : List ℤ → Bool) (bits : List Bit) → IsActive pool.old test bits active → IfOk result (IsActive pool.new (λ env. test env && holds pool.old env record { condition = condition; taken = taken }) (bits ++ needed_whole pool.old condition)) }
{
    pool.known();
    let bit = condition_bit(pool, condition, taken)?;
    with_bit(pool, active, bit)
}

/// What is carried out where these tests hold, too.
pub(crate) fn with_tests(
    pool: &mut Pool,
    active: Option<ExprId>,
    tests: &[Test],
) -> Result<Option<ExprId>, NoMemory>
    requires active { IfSome active (IsOneBit pool.old) }
    requires tests { All (IsTest pool.old) tests.now }
    ensures more { IfOk result (λ _. IsMore pool.old pool.new) }
    ensures rules { IfOk result (λ _. IsPool pool.new) }
    ensures active { (test : List ℤ → Bool) (bits : List Bit) → IsActive pool.old test bits active → IfOk result (IsActive pool.new (λ env. test env && tests_hold pool.old tests.now env) (bits ++ tests_need pool.old tests.now)) }
{
    pool.known();
    let mut all = active;
    for test in tests {
        let bit = test_bit(pool, *test)?;
        all = with_bit(pool, all, bit)?;
    }
    Ok(all)
}

// What is carried out where one more bit is 1.
fn with_bit(
    pool: &mut Pool,
    active: Option<ExprId>,
    bit: ExprId,
) -> Result<Option<ExprId>, NoMemory>
    requires active { IfSome active (IsOneBit pool.old) }
    requires bit { IsOneBit pool.old bit }
    ensures more { IfOk result (λ _. IsMore pool.old pool.new) }
    ensures rules { IfOk result (λ _. IsPool pool.new) }
    ensures one { IfOk result (λ a. IfSome a (IsOneBit pool.new)) }
    ensures active { (test other : List ℤ → Bool) (bits more : List Bit) → IsActive pool.old test bits active → IsActiveBit pool.old other more bit → IfOk result (IsActive pool.new (λ env. test env && other env) (bits ++ more)) }
{
    pool.known();
    match active {
        None => Ok(Some(bit)),
        Some(before) => {
            let both = added(
                pool,
                Expr::Binary {
                    op: Op::And,
                    a: before,
                    b: bit,
                },
            )?;
            Ok(Some(both))
        }
    }
}

// One bit that is 1 where the condition is not 0, or is 0.
fn condition_bit(pool: &mut Pool, condition: ExprId, taken: bool) -> Result<ExprId, NoMemory>
    requires { IsReadable pool.old condition }
    ensures more { IfOk result (λ _. IsMore pool.old pool.new) }
    ensures rules { IfOk result (λ _. IsPool pool.new) }
    ensures bit { IfOk result (IsActiveBit pool.new (λ env. holds pool.old env record { condition = condition; taken = taken }) (needed_whole pool.old condition)) }
{
    let bit = truth(pool, condition)?;
    if taken { Ok(bit) } else { negated(pool, bit) }
}

// One bit that is 1 where the expression is not 0: itself, where it is one bit.
fn truth(pool: &mut Pool, e: ExprId) -> Result<ExprId, NoMemory>
    requires { IsReadable pool.old e }
    ensures more { IfOk result (λ _. IsMore pool.old pool.new) }
    ensures rules { IfOk result (λ _. IsPool pool.new) }
    ensures bit { IfOk result (IsActiveBit pool.new (λ env. not (is_zero (num pool.old env e.0))) (needed_whole pool.old e)) }
{
    pool.known();
    let shape = pool.shape(e);
    if !shape.signed && shape.width == 1 {
        return Ok(e);
    }
    added(pool, Expr::Unary { op: Op::Any, a: e })
}

// One bit that is 1 where this one is 0.
fn negated(pool: &mut Pool, bit: ExprId) -> Result<ExprId, NoMemory>
    requires { IsOneBit pool.old bit }
    ensures more { IfOk result (λ _. IsMore pool.old pool.new) }
    ensures rules { IfOk result (λ _. IsPool pool.new) }
    ensures bit { IfOk result (IsActiveBit pool.new (λ env. is_zero (num pool.old env bit.0)) (needed_whole pool.old bit)) }
{
    pool.known();
    added(
        pool,
        Expr::Unary {
            op: Op::Not,
            a: bit,
        },
    )
}

// One bit that is 1 where the test holds. An index is never as large as a number that does not fit it.
fn test_bit(pool: &mut Pool, test: Test) -> Result<ExprId, NoMemory>
    requires { IsTest pool.old test }
    ensures more { IfOk result (λ _. IsMore pool.old pool.new) }
    ensures rules { IfOk result (λ _. IsPool pool.new) }
    ensures bit { IfOk result (IsActiveBit pool.new (λ env. test_holds pool.old env test) (needed_whole pool.old test.index)) }
{
    pool.known();
    let width = pool.shape(test.index).width;
    if !fits(test.number, width) {
        return constant(pool, 0, 1);
    }
    let number = constant(pool, test.number, width)?;
    let op = comparison(test);
    added(
        pool,
        Expr::Binary {
            op,
            a: test.index,
            b: number,
        },
    )
}

// What an index and the number of a test are compared by.
fn comparison(test: Test) -> Op
    ensures { result ≡ (if test.and_above then Ge else Eq) }
{
    if test.and_above { Op::Ge } else { Op::Eq }
}

// Whether a number has no more than so many bits.
fn fits(number: u128, width: u8) -> bool
    requires { width ≤ 128 }
    ensures { IsTrue result ↔ (number < 2 ^ width) }
{
    width == 128 || number >> width == 0
}
