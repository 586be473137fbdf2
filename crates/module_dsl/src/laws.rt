// The laws of the fragments that builders make. The functions do nothing: their clauses are the laws.
ghost use Rattle.module_dsl.specs.Laws.{OneProcessEach, NoProcessIsEmpty, BlocksAreMeant};

/// No two processes of a fragment have one side.
pub fn one_process_each()
    ensures { OneProcessEach }
{}

/// Every process of a fragment has statements.
pub fn no_process_is_empty()
    ensures { NoProcessIsEmpty }
{}

/// The statements of each side leave what the blocks mean for it.
pub fn blocks_are_meant()
    ensures { BlocksAreMeant }
{}
