//! Laws of places. The functions do nothing: what they ensure is the law.

ghost use Rattle.meson_places.specs.Laws.{AddsToOneList, ArgumentStepsAreDoable, DeletesOneElement, FindsOneCall, KeepsKind, NewAreUnknown, NewAreWritten, PutsBehindFirst, RemovesWhatIsSaid, ReplacesWhatIsSaid, SetsOneValue, SlotsAreThere, SortsIntoOneList, ValuesAreThere};
ghost use Rattle.meson_places.specs.AssignedEffects.{RemovesFromEach, ReplacesInEach};
ghost use Rattle.meson_places.specs.BehindLaws.{ChangesOneValue, ChangesOwnValue, FollowsOwnValue, ReadByNobodyElse};
ghost use Rattle.meson_places.specs.ColonLaws.{TakesLastColon};
ghost use Rattle.meson_places.specs.LineLaws.{FindsOnLine};

/// What a search for a call finds is a call of the function, which has the name or is assigned to the variable. It is in the files that are searched, and no
/// other call of the function there has the name.
pub fn finds_one_call()
    ensures { FindsOneCall }
{}

/// What a line finds is a call whose opening bracket is on that line of that file, or the value of an assignment that begins on it, and all else that begins on it
/// is in it. Where nothing begins on it, it is the first array or dictionary that opens on it.
pub fn finds_on_line()
    ensures { FindsOnLine }
{}

/// The slot that keys name is there: its value, or a call or a dictionary that does not have the last key.
pub fn slots_are_there()
    ensures { SlotsAreThere }
{}

/// An expression is where the value is that a name names.
pub fn values_are_there()
    ensures { ValuesAreThere }
{}

/// Setting a value that keeps its kind sets the value of that slot, and leaves all else in the trees.
pub fn sets_one_value()
    ensures { SetsOneValue }
{}

/// A value that is there is set only where the given one is of its kind, or a text for an array of texts, or code.
pub fn keeps_kind()
    ensures { KeepsKind }
{}

/// The key whose colon a list without keys takes is before the list, and no other key before it comes later.
pub fn takes_last_colon()
    ensures { TakesLastColon }
{}

/// Deleting a slot removes that argument, entry or element, and leaves all else in the trees.
pub fn deletes_one_element()
    ensures { DeletesOneElement }
{}

/// Values are added to the last list of a value and to no other, after its old elements.
pub fn adds_to_one_list()
    ensures { AddsToOneList }
{}

/// No element of a list of the value says one of them.
pub fn new_are_unknown()
    ensures { NewAreUnknown }
{}

/// What is written for the new ones is what is written for each of them.
pub fn new_are_written()
    ensures { NewAreWritten }
{}

/// Values are put after the first element of the lists of a value that says another one, in their order, and all other elements stay in theirs.
pub fn puts_behind_first()
    ensures { PutsBehindFirst }
{}

/// Values that are to be sorted are put into the last list of a value and into no other, each in its place, and all other elements stay in their order.
pub fn sorts_into_one_list()
    ensures { SortsIntoOneList }
{}

/// From the lists of a value exactly those elements are removed that say one of some values.
pub fn removes_what_is_said()
    ensures { RemovesWhatIsSaid }
{}

/// In the lists of a value exactly those elements that say a value become another one, each in its place.
pub fn replaces_what_is_said()
    ensures { ReplacesWhatIsSaid }
{}

/// From all values that are assigned to a variable exactly those elements are removed that say one of some values.
pub fn removes_from_each()
    ensures { RemovesFromEach }
{}

/// In all values that are assigned to a variable exactly those elements, and those values without a list, that say a value become another one.
pub fn replaces_in_each()
    ensures { ReplacesInEach }
{}

/// The steps that change a value may be done one after another.
pub fn argument_steps_are_doable()
    ensures { ArgumentStepsAreDoable }
{}

/// Nobody else: of all that is in the files, only the identifier at the place is a variable that is read once. No call names it and no format string holds it.
pub fn read_by_nobody_else()
    ensures { ReadByNobodyElse }
{}

/// A change for a call is made to the value that the call has, or to the one value of a variable that nobody else reads.
pub fn changes_own_value()
    ensures { ChangesOwnValue }
{}

/// So it is of a sum too: of its operands, those variables are followed that nobody else reads.
pub fn follows_own_value()
    ensures { FollowsOwnValue }
{}

/// A change is made to the value that is named, to that of a variable that nobody else reads, or to what is added to the variable that is named.
pub fn changes_one_value()
    ensures { ChangesOneValue }
{}
