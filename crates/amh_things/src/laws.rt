// What patterns mean. The functions do nothing: their clauses are the laws.
ghost use Rattle.amh_things.specs.Laws.{TextsMatch, IntegersMatch};

/// A text matches exactly the numbers whose bits are what its signs say.
pub fn texts_match()
    ensures { TextsMatch }
{}

/// Of the numbers of a shape an integer matches itself alone.
pub fn integers_match()
    ensures { IntegersMatch }
{}
