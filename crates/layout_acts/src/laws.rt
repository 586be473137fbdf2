// What the fields of a view are. The functions do nothing: their clauses are the laws.
ghost use Rattle.layout_acts.specs.Laws.{FieldsAreRead, ItemsAreChosen, FieldsAreTargets, ItemsAreTargets, FieldsLieWithin, ItemsLieWithin};

/// A field has the number that its bits of the value are by its shape.
pub fn fields_are_read()
    ensures { FieldsAreRead }
{}

/// An index of an array chooses the item at it, and past the end the last one.
pub fn items_are_chosen()
    ensures { ItemsAreChosen }
{}

/// A field of what may be assigned may be assigned, and so may the item of it that an index chooses.
pub fn fields_are_targets()
    ensures fields { FieldsAreTargets }
    ensures items { ItemsAreTargets }
{}

/// Every field of a layout lies within a value of its width.
pub fn fields_lie_within()
    ensures { FieldsLieWithin }
{}

/// An index may choose among the items of every array that there is, which has at most 255.
pub fn items_lie_within()
    ensures { ItemsLieWithin }
{}
