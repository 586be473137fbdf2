// The laws of words. The function does nothing: its clause is the law.
ghost use Rattle.py_words.specs.Word_laws.{NumbersAreWords};

/// Each whole number of the lexer's grammar is the word of its value.
#[tactic(auto, using(crate::proofs::Numbers::number_is_word))]
pub fn numbers_are_words()
    ensures { NumbersAreWords }
{}
