// The laws of layouts and enumerations. The functions do nothing: their clauses are the laws.
ghost use Rattle.data_layouts.specs.Laws.{StructuresAreFilled, ArraysAreFilled, ItemsAreInOrder, FieldsAreWithin, MembersAreKept, TwinsAreRepeated, NamesAreFound, TestsAreExact};

/// The fields of a structure stand one above the other from bit 0 up to its width, without a gap.
pub fn structures_are_filled()
    ensures { StructuresAreFilled }
{}

/// The items of an array stand one above the other from bit 0 up to its width, without a gap.
pub fn arrays_are_filled()
    ensures { ArraysAreFilled }
{}

/// Item i of an array stands at place i, at i times the width of an item.
pub fn items_are_in_order()
    ensures { ItemsAreInOrder }
{}

/// Every field of a layout lies within its width.
pub fn fields_are_within()
    ensures { FieldsAreWithin }
{}

/// The fields of a structure and of a union have the names and the shapes that were given, in their order.
pub fn members_are_kept()
    ensures { MembersAreKept }
{}

/// What is refused as `Repeated` are names that are not distinct.
pub fn twins_are_repeated()
    ensures { TwinsAreRepeated }
{}

/// Each field and each member is found by its name.
pub fn names_are_found()
    ensures { NamesAreFound }
{}

/// What is refused as `NotFitting` are numbers that the shape does not have.
pub fn tests_are_exact()
    ensures { TestsAreExact }
{}
