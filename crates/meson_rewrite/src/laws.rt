//! Laws of checked undos, of the status of a change, of a read that failed, of answers and refusals as objects, and of texts in place of files. The functions
//! do nothing; the contract of each is a law.

ghost use Rattle.meson_rewrite.specs.AdviceLaws.{AnswersArePlain, ExplainedEndsAsPlain, ExplainedRunsAsPlain, LinesArePlain, MembersArePlain, StatusIsPlain};
ghost use Rattle.meson_rewrite.specs.Laws.{CheckedUndosRestore, OneUnread, SameSumsUndo, StatusesTellChanges};
ghost use Rattle.meson_rewrite.specs.ObjectLaws.{EditsOfObjectsMake};
ghost use Rattle.meson_rewrite.specs.RefusalLaws.{CodesAreWords, MembersAreWords, SubjectsAreWords};
ghost use Rattle.meson_rewrite.specs.TextLaws.{AnswersAsFiles, TextsAreFiles};

use meson_sums::laws::sums_tell;

/// What a checked undo promises before it is done. The history fitted some files, and the files now have the digests of those. Then this number of undos is
/// done on the files now. Every file is then as it was before that number of runs, to every byte. Else there are two texts with one digest, and nobody knows
/// such texts.
pub fn same_sums_undo()
    ensures { SameSumsUndo }
{
    sums_tell();
}

/// What a checked undo promises once it is done. The digests were listed of files that the history fitted. Then every file is as it was before that number of
/// runs, to every byte, whatever was done to the files since they were listed. Else there are two texts with one digest.
pub fn checked_undos_restore()
    ensures { CheckedUndosRestore }
{
    sums_tell();
}

/// What the status tells where the words want an exit code: 0 after a step if every file is as it was before it, to every byte; 4 if one is not.
pub fn statuses_tell_changes()
    ensures { StatusesTellChanges }
{}

/// Which file a run reports as unreadable: if a store tells what it holds and was read that often for some words, exactly one.
pub fn one_unread()
    ensures { OneUnread }
{}

/// What the code of a refusal is: the word of its line after the command, the entry or the file; or `memory` when out of memory.
pub fn codes_are_words()
    ensures { CodesAreWords }
{}

/// What the object of a refusal has: as `message` what its line has after `error: `, and as `code` its code.
pub fn members_are_words()
    ensures { MembersAreWords }
{}

/// The name that a refusal means is a word of the refused command.
pub fn subjects_are_words()
    ensures { SubjectsAreWords }
{}

/// What the edits in an answer promise: done on the files as they were before the step, they make the files as they are after it, to every byte. A file that
/// is not listed is as it was.
pub fn edits_of_objects_make()
    ensures { EditsOfObjectsMake }
{}

/// What texts in place of files mean. Each text is the file of its name, and any other file is that of the store. A run with them ends as it would without
/// texts on a store with these files, unless their own file is not read or memory runs out. Nothing is written.
pub fn texts_are_files()
    ensures files { TextsAreFiles }
    ensures answers { AnswersAsFiles }
{}

/// What an explanation changes: nothing but what is said below the line of a refusal, or in two members of its object; and the warnings of a run, after what
/// else is said for errors, or in one member of its object. The store is as it would be without it, and so are the rest of the output, the status, the line and
/// the other members.
pub fn explained_as_plain()
    ensures ends { ExplainedEndsAsPlain }
    ensures runs { ExplainedRunsAsPlain }
    ensures status { StatusIsPlain }
    ensures lines { LinesArePlain }
    ensures members { MembersArePlain }
    ensures answers { AnswersArePlain }
{}
