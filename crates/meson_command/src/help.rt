//! The texts of help: what each command does, and the text below its words.
//!
//! No line is longer than 80 columns; clap does not wrap lines.
//! `tests/examples` runs each example on a copy of `examples/harbor`, and compares the words with those of the manual page.

pub(crate) const PROGRAM: &str = "Edit the meson.build files of a project in place";

pub(crate) const BELOW_PROGRAM: &str = "\
Give these options before the subcommand.
tgt, def and cmd are other names of target, default-options and command.
Files change only where the command says: order, comments and layout stay.
Each accepted run is kept in the file meson.rewrite-log, so undo can take it
back. Begin with list: it prints the targets and the build files.

Status: 0 done, 1 refused, 2 wrong words, 3 a file or the output failed;
with --exit-code 4 done, and a build file changed.
SUBCOMMAND --help lists its operations and options.
man meson_rewrite explains each refusal.

Examples:
  meson_rewrite target tide add moon.c
  meson_rewrite --title 'Release 1.4.0' kwargs set project / version 1.4.0
  meson_rewrite default-options set c_std c17
  meson_rewrite command changes.json
  meson_rewrite --sourcedir harbor undo";

pub(crate) const DIR: &str = "Folder of the root file [default: the working folder]";

pub(crate) const IN: &str = "\
With target, kwargs, arg or code: search the build
file of this folder alone";

pub(crate) const FOLLOW: &str = "\
With target ID add, rm, rename and info, list,
history, undo, redo and command: read the build files
as Meson runs them, also in folders written as 'src/'
or named in a loop; add, rm, rename and info follow
variables. --follow=own is the same; --follow=shared,
with add, rm and rename, changes also lists that are
read for another target";

pub(crate) const DRY_RUN: &str = "Show the changes as a unified diff, and write nothing";

pub(crate) const ANSWER_JSON: &str = "Print what is done, or the refusal, as one line of JSON";

pub(crate) const EXPLAIN: &str = "Explain a refusal, or warn of a run, in further lines";

pub(crate) const EXIT_CODE: &str = "End with status 4 if a build file is changed";

pub(crate) const NO_LOG: &str = "Do not read or write the undo log";

pub(crate) const TEXTS: &str = "\
Build files as FILE has them, in JSON; with --dry-run,
list, history or info; - is standard input";

pub(crate) const VERBOSE: &str = "Print no more than without it";

pub(crate) const TITLE: &str = "\
What the run is for, in at most 200 bytes;
undo, redo and history print it";

pub(crate) const TARGET: &str = "Edit, list, add or remove a target";

pub(crate) const BELOW_TARGET: &str = "\
Options of the program, before the subcommand (see meson_rewrite --help):
  --sourcedir DIR, --in FOLDER, --follow[=LISTS], --title TEXT, --dry-run,
  --json

Operations:
  add, rm                          add sources, remove sources
  rename                           give source OLD the name NEW, in its place
  add_extra_files, rm_extra_files  the same for extra files
  add_target                       write a new target at the end of a build file
  rm_target                        remove the target
  info                             list the target as JSON on standard error

A KIND is one of executable, static_library, shared_library, shared_module,
both_libraries, library, jar.
A SUBDIR is a folder that a subdir call enters, without a slash at its end.
A SOURCE is a name as the build file writes it: relative to the folder of the
build file, not to the working folder.
add --sorted puts each source in its place if the list is in order: it has four
names or more, each less than the next byte by byte. Else it goes to the end.
With --follow add, rm and rename follow variables, and a SOURCE is a path from
the folder of the target. LISTS is own, as if left out: a list that is read for
another target too stays; or shared: it is changed for all of them.

Examples:
  meson_rewrite target tide add moon.c sun.c
  meson_rewrite target tide add --sorted moon.c
  meson_rewrite target tide rm tide.c
  meson_rewrite target tide rename station.c gauge.c
  meson_rewrite target harbor add_extra_files harbor.h
  meson_rewrite target make_tables rm_extra_files tables.txt
  meson_rewrite target moon add_target moon.c --subdir src --type executable
  meson_rewrite target make_tables rm_target
  meson_rewrite --in src target tide add moon.c
  meson_rewrite target harbor info
  meson_rewrite --follow target tide info
  meson_rewrite --follow target tide add new.c
  meson_rewrite --follow target tide rename station.c gauge.c
  meson_rewrite --follow=shared target tide rm tide.c";

pub(crate) const SUBDIR: &str = "Folder of a new target [default: that of the root file]";

pub(crate) const KIND: &str = "Function that makes a new target [default: executable]";

pub(crate) const KWARGS: &str = "Edit or list keyword arguments";

pub(crate) const BELOW_KWARGS: &str = "\
Options of the program, before the subcommand (see meson_rewrite --help):
  --sourcedir DIR, --in FOLDER, --title TEXT, --dry-run, --json

Operations:
  set     give each key its value
  add     add the value to the key's list
  remove  remove the value from the key's list
  delete  remove each key; give any word as its value
  info    list the keyword arguments as JSON on standard error; it takes no keys

The id of the project is / or //. No key may be given twice.
set writes a list anew on one line, without the comments in it; add and remove
change no other value.

Keys of project:
  version, meson_version, subproject_dir (texts)
  license, default_options (lists)
Keys of dependency:
  language, method, not_found_message (texts)
  native, required, static (true or false)
  version, modules (lists)
Keys of target:
  build_rpath, install_dir, install_rpath (texts)
  build_by_default, export_dynamic, gui_app (true or false)
  implib, install, pie (true or false)
  dependencies, link_with (lists of variables)

Examples:
  meson_rewrite kwargs set project / version 1.4.0 license Apache-2.0
  meson_rewrite kwargs set target harbor install false
  meson_rewrite kwargs add dependency zlib version '!=1.2.9'
  meson_rewrite kwargs remove dependency zlib version '<2'
  meson_rewrite kwargs delete target harbor install x
  meson_rewrite --in src kwargs set target harbor install false
  meson_rewrite kwargs info dependency zlib";

pub(crate) const ARGUMENT: &str = "Edit or list any value of a call or a variable";

pub(crate) const BELOW_ARGUMENT: &str = "\
Options of the program, before the subcommand (see meson_rewrite --help):
  --sourcedir DIR, --in FOLDER, --title TEXT, --dry-run, --json

Operations:
  set     give the key this value, or an array of these values; an absent
          keyword or entry is inserted after the others
  add     add the values that its list does not have yet, at the end; of a
          sum, to its last list; an absent key gets the array of them;
          with --after, after the first element of its lists that is ELEMENT;
          with --sorted, each in its place in the last list, if that is in
          order; else at the end
  remove  remove each element of its lists that is one of the values; a value
          without a list goes with its argument or entry, if it is the value
  replace  takes two values, OLD and NEW: put NEW in the place of each element
          of its lists, or of the value without a list, that is OLD
  delete  remove the argument, entry or element; it takes no values
  info    list the value, or the keys and values in it; it takes no values,
          and without KEY lists the place itself

Places, each a FUNCTION with its ID:
  target ID      a call that makes a target, by its name or variable
  project /      the project call
  variable NAME  the value that is assigned to the variable with =; by the key .
                 also what += adds to it in that file
  at FILE:LINE   the value or call that begins on this line, counted from 1;
                 else the first array or dictionary that opens on it
  other words    a call of that function, by its first argument or variable

Keys: a keyword; the number of another argument, or of an element, from 0; the
text of an entry of a dictionary. Dots join keys that lead further in, as
license.0, and . is the place itself.

Values:
  true, false  the truth value
  :CODE        a Meson expression without comments, as :zlib or :[]
  other words  the text

A list is in order if it has four texts or more, or four identifiers or more,
each less than the next byte by byte. A text that begins with - has no place in
it, and no other order is known.

From FUNCTION on no word is an option, so values may begin with -; write
--after=ELEMENT for an element that does.
A text replaces a text or an array of texts, a truth value a truth value, and
CODE anything. For the whole value of a variable CODE is on one line.

If it is refused:
  C3   several calls have the id: use --in FOLDER, the variable, or at FILE:LINE
  C9   the value has no list: set the whole value by CODE
  C12  an assigned value can't be removed, only elements of its list
  C20  something else reads the variable: use variable NAME and the key .
  C21  the value is of another kind: give CODE
  C22  the new value is there already: remove the old one
  C23  no value has this key: see the keys with arg info; or nothing is the
       value to remove or to replace, or that of --after: a text is no CODE,
       as zlib or :zlib

Examples:
  meson_rewrite arg set target tide c_args -DTIDE -DPIER
  meson_rewrite arg add target harbor c_args -DHARBOR
  meson_rewrite arg add --after tide.c variable tide_sources . moon.c
  meson_rewrite arg add --sorted variable tide_sources . moon.c
  meson_rewrite arg remove dependency zlib version '<2'
  meson_rewrite arg replace target tide dependencies :zlib :zlib_ng
  meson_rewrite arg set target harbor install_dir \":get_option('bindir')\"
  meson_rewrite arg set dependency zlib version '>=1.3'
  meson_rewrite arg set project / license.0 Zlib
  meson_rewrite arg delete target harbor install
  meson_rewrite --in src arg set target harbor install false
  meson_rewrite arg info target harbor";

pub(crate) const PLACE_FUNCTION: &str = "Where the value is, see Places";

pub(crate) const AFTER: &str = "Of add: put the values after this element";

pub(crate) const SORTED: &str = "Of add: put each in its place in a list in order";

pub(crate) const DEFAULT_OPTIONS: &str = "Edit the default options of the project";

pub(crate) const BELOW_DEFAULT_OPTIONS: &str = "\
Options of the program, before the subcommand (see meson_rewrite --help):
  --sourcedir DIR, --title TEXT, --dry-run, --json

Operations:
  set     give each option its value
  delete  remove each option; give any word as its value
  unset   remove each option; its words are the options alone

In the build file the options may be one text, an array of texts, or a
dictionary whose keys are texts. No option may be given twice.

Examples:
  meson_rewrite default-options set c_std c17 werror true
  meson_rewrite default-options unset warning_level c_std";

pub(crate) const COMMAND: &str = "Run the commands of a script";

pub(crate) const BELOW_COMMAND: &str = "\
Options of the program, before the subcommand (see meson_rewrite --help):
  --sourcedir DIR, --follow, --title TEXT, --dry-run, --json

JSON is the script, or says where it is:
  [.. or {..      a word that begins so is the script itself
  -               standard input
  any other word  the name of a file

A script is an array of objects, one for each command. Each has a type and an
operation; man meson_rewrite lists their other members:
  target           src_add, src_rm, rename, extra_files_add,
                   extra_files_rm, target_add, target_rm, info
  kwargs           set, add, remove, delete, info
  default_options  set, delete
  arg              set, add, remove, replace, delete, info
  code             after, before, append, remove

All commands are done, or none.
The script is kept as a run even if it only lists (info). --dry-run leaves the
log as it is.

Examples:
  meson_rewrite command changes.json
  meson_rewrite command --strict - <changes.json
  meson_rewrite command '[{\"type\":\"target\",\"operation\":\"src_add\",
    \"target\":\"tide\",\"sources\":[\"moon.c\"]}]'";

pub(crate) const STRICT: &str = "Refuse members of the script that have no effect";

pub(crate) const UNDO: &str = "Take back the newest run";

pub(crate) const BELOW_UNDO: &str = "\
Options of the program, before the subcommand (see meson_rewrite --help):
  --sourcedir DIR, --follow, --title TEXT, --dry-run, --json

If the files changed after the run, by hand or by a checkout:
  - Edits by hand stay.
  - If the bytes that the run wrote moved or changed, nothing is undone.
  - A removal wrote no bytes. Its undo puts the text back at the old offset,
    which may be a wrong place if the file was changed.
  - So after a checkout remove meson.rewrite-log, and do not undo.

The options in full:
  --to N        the runs that history lists as undo 1 to undo N; N is from 1
  --check FILE  FILE is what list --sums printed; - is standard input

Write FILE right after the run. Then undo --check brings every byte back, or it
undoes nothing. If FILE is written after an edit by hand, that edit passes.

Examples:
  meson_rewrite undo
  meson_rewrite undo --to 2
  meson_rewrite undo --check sums
  meson_rewrite --sourcedir harbor undo";

pub(crate) const TO: &str = "Take back the newest N runs, all of them or none";

pub(crate) const CHECK: &str = "Undo only if all build files have the digests in FILE";

pub(crate) const REDO: &str = "Do again what the last undo took back";

pub(crate) const BELOW_REDO: &str = "\
Options of the program, before the subcommand (see meson_rewrite --help):
  --sourcedir DIR, --follow, --title TEXT, --dry-run, --json

One redo repeats one run; it takes no --to.
A new run drops what could be redone.
What the run inserted is inserted at its old offset again, even if the file was
changed since.

Examples:
  meson_rewrite redo
  meson_rewrite --sourcedir harbor redo";

pub(crate) const HISTORY: &str = "List the runs that can be undone and redone";

pub(crate) const BELOW_HISTORY: &str = "\
Options of the program, before the subcommand (see meson_rewrite --help):
  --sourcedir DIR, --follow, --title TEXT, --dry-run, --json

It prints one line for each run:
  undo 1, undo 2, ..  the runs that undo takes back, the newest first
  redo 1, redo 2, ..  the runs that redo does again, the next one first
A line has the number of files that the run edited, the number of splices
(edits), and the title.

What it drops from the log:
  --forget N    the N oldest of the runs that undo takes back; N is from 1
  --forget all  all runs, also those that redo does again
A dropped run cannot be undone or redone any more. No build file changes.

Examples:
  meson_rewrite history
  meson_rewrite history --forget 1
  meson_rewrite history --forget all
  meson_rewrite --sourcedir harbor history";

pub(crate) const FORGET: &str = "Drop the N oldest runs from the log, or all";

pub(crate) const LIST: &str = "List the targets and the build files";

pub(crate) const BELOW_LIST: &str = "\
Options of the program, before the subcommand (see meson_rewrite --help):
  --sourcedir DIR, --follow, --title TEXT, --dry-run, --json

It prints one line for each target, then one for each build file, then one for
each subdir call that is not entered:
  FILE:LINE: FUNCTION 'NAME', variable VARIABLE
  FILE:1: build file
  FILE:LINE: subdir 'NAME', not entered

Where the name is not a literal, the line says so. What is in a folder that is
not entered is not found.

--of FUNCTION lists the calls of that function instead, as dependency or test,
each in the form of a target. --of variable lists the assignments:
  FILE:LINE: variable NAME
  FILE:LINE: variable NAME, added to

--json prints all of it as one JSON object; man meson_rewrite lists its members.
--sums prints the SHA-256 digest of each build file instead, as sha256sum does;
undo --check compares them.

Examples:
  meson_rewrite list
  meson_rewrite list --of dependency
  meson_rewrite list --sums >sums
  meson_rewrite --sourcedir harbor list --json";

pub(crate) const OF: &str = "List the calls of FUNCTION; variable lists assignments";

pub(crate) const JSON: &str = "Print one line of JSON instead";

pub(crate) const SUMS: &str = "Print the digests of the build files instead";
