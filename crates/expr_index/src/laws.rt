// The laws of expressions that are the same, and of their numbers in lists. The functions do nothing: their clauses are the laws.
ghost use Rattle.expr_index.specs.Laws.{SameIsEqual, ListsHaveNumbers, FlagsAreResets};

/// Expressions of which all parts are the same are equal, and equal ones are the same.
pub fn same_is_equal()
    ensures { SameIsEqual }
{}

/// What is known of a pool: the number of each expression stands in its list, and nothing else does, each list ascends, and each flag
/// tells whether a reset stands in its expression.
pub fn lists_have_numbers()
    ensures numbers { ListsHaveNumbers }
    ensures flags { FlagsAreResets }
{}
