//! Laws of sources. The functions do nothing: what they ensure is the law.

ghost use Rattle.meson_sources.specs.Effects.{ExtraIsAdded, ExtraIsRemoved, SourcesAreAdded, SourcesAreRemoved, SourcesAreRenamed, SourcesAreSorted};
ghost use Rattle.meson_sources.specs.InOrder.{OrderIsKept};
ghost use Rattle.meson_sources.specs.InTurn.{ExtrasGoInTurn, SourcesGoInTurn};
ghost use Rattle.meson_sources.specs.MetOnce.{ItemsAreMetOnce};
ghost use Rattle.meson_sources.specs.WholeExtras.{AllExtrasGrow, AllExtrasShrink};
ghost use Rattle.meson_sources.specs.WholeSources.{AllSourcesGrow, AllSourcesShrink};

/// The list to which further sources of a target are added keeps its elements in their order. It has each new source once after those without a name.
pub fn sources_are_added()
    ensures { SourcesAreAdded }
{}

/// The list to which further sources of a target are added in order keeps its elements in their order. Among them it has each new source once.
pub fn sources_are_sorted()
    ensures { SourcesAreSorted }
{}

/// Where the elements that count are in order, and each new source has a place among them, the list is in order after an addition in order. A source that begins
/// with `-` has none, nor has one that would be the first where no element may be put in front.
pub fn order_is_kept()
    ensures { OrderIsKept }
{}

/// After an addition the id of the target names one target, by the call at the same place. All its sources, in whatever list they are, are those that it had,
/// in their order. In one place among them is each new source once. The number of unknown expressions is as before.
pub fn all_sources_grow()
    ensures { AllSourcesGrow }
{}

/// The list of a target's extra files keeps its elements in their order. It has each new extra file once after those without a name. If there is no list, the
/// call has a new argument `extra_files` that holds the new ones, or an array of the lone old value and the new ones. All else is as it was.
pub fn extra_is_added()
    ensures { ExtraIsAdded }
{}

/// No item of a target is met twice. Any two of its sources are at different places, whichever variables are followed to them, and so are its extra files.
pub fn items_are_met_once()
    ensures { ItemsAreMetOnce }
{}

/// After sources are removed the trees are those before, without the elements at the places of all sources with these names. Each list has its others in their
/// order, and all else is as it was.
pub fn sources_are_removed()
    ensures { SourcesAreRemoved }
{}

/// The same for the extra files of a target.
pub fn extra_is_removed()
    ensures { ExtraIsRemoved }
{}

/// After sources are renamed the trees are those before, but that a string of the new name is in the place of each source of the old one. So each list has as
/// many elements as before. No source had the new name.
pub fn sources_are_renamed()
    ensures { SourcesAreRenamed }
{}

/// After a removal the id of the target names one target, by a call of the same function. All its sources, in whatever list they are, are those that it had, in
/// their order, but for those that are named. The number of unknown expressions is as before.
pub fn all_sources_shrink()
    ensures { AllSourcesShrink }
{}

/// After an addition the id names one target, by the call at the same place. All its extra files are those that it had, in their order. In one place among them
/// is each new one once: in the list of the first that is in one, in a new argument, or in an array after the lone one. The number of unknown expressions is as
/// before.
pub fn all_extras_grow()
    ensures { AllExtrasGrow }
{}

/// The law on all sources after a removal, for all extra files of the target.
pub fn all_extras_shrink()
    ensures { AllExtrasShrink }
{}

/// Removing several sources is removing the first, and then the others from the project that this leaves.
pub fn sources_go_in_turn()
    ensures { SourcesGoInTurn }
{}

/// The same for the extra files of a target.
pub fn extras_go_in_turn()
    ensures { ExtrasGoInTurn }
{}
