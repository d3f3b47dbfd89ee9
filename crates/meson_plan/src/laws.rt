//! Laws of commands and of what they report. The functions do nothing: what they ensure is the law.

ghost use Rattle.meson_plan.specs.Effects.{CommandsLeave};
ghost use Rattle.meson_plan.specs.ListingLaws.{CallsAgree, CallsListed, ContentsAreAll, TargetsAgree, TargetsListed, ValuesListed};

/// What is there after a command that is performed. A command on keyword arguments or options names one call. Of that call it leaves what it says, and nothing
/// else. A key that is set has the new value alone, and one that is deleted has none. Values that are added are after the old ones, and those that are removed
/// are gone. The list to which sources or extra files are added has each new one once after the old ones. Where sources are added in order, the list keeps its
/// elements in their order, and has each new one once among them; where it was in order and each has a place in it, it still is. Of those that are removed all
/// are gone and no others. All sources and extra files of a target count, in whatever list they are. After an addition at the end they are those that it had
/// and each new one once, as far as the command's texts are UTF-8. After a removal they are those that it had without the ones that are named. Sources that
/// are renamed have their new name in their place. A target that is added is the only one with its name. One that is removed is gone with its statement, and no
/// target has its name.
pub fn commands_leave()
    ensures { CommandsLeave }
{}

/// The listing of a target is made exactly if its info command can be planned, and refused with the same refusal.
pub fn targets_agree()
    ensures { TargetsAgree }
{}

/// The same for keyword arguments.
pub fn calls_agree()
    ensures { CallsAgree }
{}

/// The listing of a target is made exactly if its info command can be performed, and refused with the same refusal.
pub fn targets_listed()
    ensures { TargetsListed }
{}

/// The same for keyword arguments.
pub fn calls_listed()
    ensures { CallsListed }
{}

/// The same for a value.
pub fn values_listed()
    ensures { ValuesListed }
{}

/// The listing of a call, an array or a dictionary has the values of all its elements, each once and in their order.
pub fn contents_are_all()
    ensures { ContentsAreAll }
{}
