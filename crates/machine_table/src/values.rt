// Values of answers.

use crate::requests::{Requests, value_at, value_named};
use py_values::{FuncId, Hw, Number, Val};
use table_text::{Stop, count, integer};

// The builtins without a name of their own: they stand behind the others among the first functions of each heap.
const CEIL_LOG2: FuncId = FuncId(17);

const BITS_FOR: FuncId = FuncId(18);

/// The value that a word stands for, behind these requests.
pub fn value_of(requests: &Requests, word: &str) -> Result<Val, Stop> {
    match word {
        "None" => return Ok(Val::None),
        "True" => return Ok(Val::Bool(true)),
        "False" => return Ok(Val::Bool(false)),
        "ceil_log2" => return Ok(Val::Func(CEIL_LOG2)),
        "bits_for" => return Ok(Val::Func(BITS_FOR)),
        _ => {}
    }
    if let Some(number) = word.strip_prefix("#") {
        return thing(number);
    }
    if let Some((r, k)) = word.split_once('.') {
        return value_at(requests, count(r)?, count(k)?);
    }
    if let Some((r, name)) = word.split_once(':') {
        return value_named(requests, count(r)?, name);
    }
    Ok(Val::Int(Number::of(integer(word)?)))
}

fn thing(number: &str) -> Result<Val, Stop> {
    match u32::try_from(count(number)?) {
        Ok(number) => Ok(Val::Hw(Hw(number))),
        Err(_) => Err(Stop::NoCase),
    }
}
