//! Laws of the command line. The functions do nothing: what they ensure is the law.

ghost use Rattle.meson_command.specs.Entries.{WordsMeanTheEntry};
ghost use Rattle.meson_command.specs.Input.{ReadsCodeOfRefusedWords};
ghost use Rattle.meson_command.specs.Laws.{HelpWhereAsked, JsonWhereWanted, OddWordsAreOdd, PairsAreTheWords, UnsetIsDelete, UsageMeansUnknown, VersionWhereAsked};
ghost use Rattle.meson_command.specs.Laws.{TextsWriteNothing};
ghost use Rattle.meson_command.specs.Rows.{Done, Flagged, Json, Listed, Other, Refused, Shown, Texts, Titled};
ghost use Rattle.meson_command.specs.RowsOfArguments.{CodeIsExpressionOrRefused, Infos, LaterWordsArePlain, Sorted, Values};
ghost use Rattle.meson_command.specs.RowsOfCode.{Inserted, InsertedNowhere, Removed};
ghost use Rattle.meson_command.specs.RowsOfFollow.{FollowedNames, FollowedSources, Following};

/// The requests of some command lines.
pub fn rows()
    ensures done { Done }
    ensures values { Values }
    ensures sorted { Sorted }
    ensures infos { Infos }
    ensures inserted { Inserted }
    ensures nowhere { InsertedNowhere }
    ensures removed { Removed }
    ensures titled { Titled }
    ensures shown { Shown }
    ensures json { Json }
    ensures flagged { Flagged }
    ensures texts { Texts }
    ensures listed { Listed }
    ensures other { Other }
    ensures following { Following }
    ensures followed { FollowedSources }
    ensures followed_names { FollowedNames }
    ensures refused { Refused }
{}

/// From the function of `arg` on no word is an option. A value after a colon is code if it is an expression, and is refused otherwise.
pub fn values_are_words()
    ensures later { LaterWordsArePlain }
    ensures code { CodeIsExpressionOrRefused }
{}

/// Words of `arg` mean the command of the entry of a script with the same function, id, key, values, options and folder.
pub fn words_mean_the_entry()
    ensures { WordsMeanTheEntry }
{}

/// Names with values are the words two by two, if no name is repeated. An odd number of words is refused. `unset` needs no values, and is else `delete`.
pub fn pairs_are_the_words()
    ensures pairs { PairsAreTheWords }
    ensures odd { OddWordsAreOdd }
    ensures unset { UnsetIsDelete }
{}

/// Help is the answer exactly where the words request it from clap, and so is the version.
pub fn help_where_asked()
    ensures help { HelpWhereAsked }
    ensures version { VersionWhereAsked }
{}

/// A request is answered in JSON exactly where `wants_json` says so of its words.
pub fn json_where_wanted()
    ensures { JsonWhereWanted }
{}

/// Code is read from standard input only for words that are refused without it, since `-` is not code.
pub fn code_of_refused_words()
    ensures { ReadsCodeOfRefusedWords }
{}

/// Texts are named only with a request that writes nothing: a dry run, a listing, or what an info command reports. Help and the version have none.
pub fn texts_write_nothing()
    ensures { TextsWriteNothing }
{}

/// Words that clap takes are wrong usage only in these cases: the folder is empty, an operation or a function is unknown, `rename` has not two names,
/// `--sorted`, `--after`, `--blank` or `--unused` goes with an operation that does not take it, or the first two are both given, a number is not valid, two
/// listings are requested or one of a function without a name, the function and the id of `arg` or `code` name no place, a key is missing, the values of
/// `arg` or the words of `code` are not as many as the operation takes, a folder is named for words that take none, `--follow` goes with other words than
/// `target ID add`, `rm` and `rename` without `--sorted`, `target ID info`, `list`, `history`, `undo`, `redo` and `command`, or `--follow=shared` with others
/// than the first three, or texts are named for what writes or would read standard input, too.
pub fn usage_means_unknown()
    ensures { UsageMeansUnknown }
{}
