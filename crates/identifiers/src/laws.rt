// The law of identifiers. The function does nothing: its clause is the law.
ghost use Rattle.identifiers.specs.Laws.{IdentifiersAreNames};

/// An identifier has, by its bytes, the form of the names that are written.
pub fn identifiers_are_names()
    ensures { IdentifiersAreNames }
{}
