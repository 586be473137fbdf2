// The laws of private names. The function does nothing: its clauses are the laws.
ghost use Rattle.private_names.specs.Laws.{NoClassStays, PrivateNames, OtherNames, ClassesAreRewritten};

/// A program in which no class stands is as it was; and these names, and those of this program,
/// become what CPython makes of them.
pub fn names_are_private()
    ensures stays { NoClassStays }
    ensures private { PrivateNames }
    ensures other { OtherNames }
    ensures classes { ClassesAreRewritten }
{}
