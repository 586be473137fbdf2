// The names of domains, in the order in which modules make them known.
ghost use Rattle.std.specs.Prelude.{◌≡◌, ◌<◌, ◌++◌, ℕ, length, Some, IfOk, OnOk};
ghost use Rattle.std.specs.List.{flat_map};
ghost use Rattle.fragment_walks.specs.Numbers.{first_at};
ghost use Rattle.fragment_walks.specs.Names.{with_name, with_resets};

use crate::copies::copied;
use amh_host::{Items, NoMemory, Text};
use design_ir::{Expr, ExprId, Exprs, Pool};
use std::alloc::Global;

// The name of a reset's domain, behind the names of the module with this number.
fn add_reset(
    alloc: Global,
    names: &mut Vec<Items<Text>>,
    e: &Expr,
    number: usize,
) -> Result<(), NoMemory>
    requires { number < length names.old.items }
    ensures { OnOk result (names.new.items ≡ with_name number e.now names.old.items) }
{
    match e {
        Expr::Reset { domain, .. } => names[number].push(copied(alloc, domain.as_str())?),
        _ => Ok(()),
    }
}

/// Adds the name of each reset to those of the first module that holds it.
pub fn add_resets(
    alloc: Global,
    pool: &Pool,
    holders: &[Option<usize>],
    names: &mut Vec<Items<Text>>,
) -> Result<(), NoMemory>
    requires size { length holders.now ≡ length pool.now.exprs }
    requires there { (k n : ℕ) → first_at holders.now k ≡ Some n → n < length names.old.items }
    ensures { OnOk result (names.new.items ≡ with_resets pool.now holders.now (length pool.now.exprs) 0 names.old.items) }
{
    for k in 0..pool.count() {
        if let Some(number) = holders[k as usize] {
            add_reset(alloc, names, pool.at(ExprId(k)), number)?;
        }
    }
    Ok(())
}

// Texts behind others.
fn add_texts(alloc: Global, texts: &mut Items<Text>, more: &[Text]) -> Result<(), NoMemory>
    ensures { OnOk result (texts.new ≡ texts.old ++ more.now) }
{
    for text in more {
        texts.push(copied(alloc, text.as_str())?)?;
    }
    Ok(())
}

/// The names of all modules, one after another.
pub fn joined_names(alloc: Global, names: &[Items<Text>]) -> Result<Items<Text>, NoMemory>
    ensures { IfOk result (λ all. all ≡ flat_map (λ own. own) names.now) }
{
    let mut all = Items::new(alloc);
    for own in names {
        add_texts(alloc, &mut all, own.as_slice())?;
    }
    Ok(all)
}
