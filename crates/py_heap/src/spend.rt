// Units of cost.
ghost use Rattle.std.specs.Prelude.{◌<◌};
ghost use Rattle.py_values.specs.Runs.{Charged, later, give};

use amh_host::Budget;
use py_values::ValueStop;

/// One unit, unless with it the cost reaches what is left.
pub(crate) fn spend(left: &mut Budget) -> Result<(), ValueStop>
    requires { 0 < left.old.left }
    ensures { Charged result left.old.left left.new.left (later 1 (give tt)) }
{
    if left.left == 1 {
        left.left = 0;
        return Err(ValueStop::Spent);
    }
    left.left -= 1;
    Ok(())
}
