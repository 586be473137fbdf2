// The laws of the grammar and its reader. The functions do nothing: their clauses are the laws.
ghost use Rattle.py_grammar.specs.Laws.{ReadIsDerived, DerivedIsRead, OneTree, ExprsReadIsDerived, ExprsDerivedIsRead, ExprsOneTree};
ghost use Rattle.py_grammar.specs.Line_laws.{LineReadIsDerived, LineDerivedIsRead, OneLineForm};
ghost use Rattle.py_grammar.specs.Block_laws.{ProgramReadIsDerived, ProgramDerivedIsRead, OneProgram, RefusedIsFirst, FrontOfFront};

/// What is read of an expression, within any number of brackets, has a derivation; what has one is read; and words
/// stand for one tree at most.
pub fn expressions_are_exact()
    ensures read_is_derived { ReadIsDerived }
    ensures derived_is_read { DerivedIsRead }
    ensures one_tree { OneTree }
{}

/// The same of expressions with a comma between each two.
pub fn lists_are_exact()
    ensures read_is_derived { ExprsReadIsDerived }
    ensures derived_is_read { ExprsDerivedIsRead }
    ensures one_tree { ExprsOneTree }
{}

/// What is read of a logical line has a derivation; what has one is read; and a line stands for one thing at most.
pub fn lines_are_exact()
    ensures read_is_derived { LineReadIsDerived }
    ensures derived_is_read { LineDerivedIsRead }
    ensures one_form { OneLineForm }
{}

/// What is read of a file's lines is the program that they stand for; lines that stand for one are read; they stand for
/// one at most; and the line that is refused is the first with which the lines are no front of a program, or the head at
/// their end that wants its block.
pub fn programs_are_exact()
    ensures read_is_derived { ProgramReadIsDerived }
    ensures derived_is_read { ProgramDerivedIsRead }
    ensures one_program { OneProgram }
    ensures refused_is_first { RefusedIsFirst }
    ensures front_of_front { FrontOfFront }
{}
