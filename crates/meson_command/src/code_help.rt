//! The texts of help of `code`, as `help` has those of the other subcommands.

pub(crate) const ABOUT: &str = "Insert statements into a build file, or remove one";

pub(crate) const BELOW: &str = "\
Options of the program, before the subcommand (see meson_rewrite --help):
  --sourcedir DIR, --in FOLDER, --title TEXT, --dry-run, --json

Operations:
  after   insert CODE below a statement, on new lines below the line on which
          that ends; FUNCTION and ID name the statement
  before  insert CODE above a statement: above its line, and above the comment
          lines directly above that
  append  insert CODE at the end of a build file; its words are FILE and CODE,
          and FILE is named as list prints it
  remove  remove a statement; its words are FUNCTION and ID, without CODE

Statements, each a FUNCTION with its ID:
  target ID      a call that makes a target, by its name or variable
  project /      the project call
  variable NAME  the assignment of the variable with =
  at FILE:LINE   the first statement that begins on this line, counted from 1;
                 also an if or a foreach
  other words    a call of that function, by its first argument or variable
Of a call that is the whole value of an assignment, it is the assignment.

CODE is one statement or more, of one line or several, with their comments.
White space at its ends is dropped. Each line gets the indent of the statement
beside it, and the line end of the file. CODE - is read from standard input.
From FUNCTION or FILE on no word is an option, so CODE may begin with - or #.

Between CODE and the statement beside it is one blank line if either of them
has several lines, else none; with --blank N there are N. Of append it is the
last statement of the file, and blank lines at the end of the file count.

Of a statement, remove takes all of its lines, and leaves comments, also the
one beside it. Where blank lines are above and below, those below go as well;
so they do below the first statement of a block or file, and beside the last.
A variable that the statement sets must not be used elsewhere. With --unused
it also removes each assignment of a variable that the statement reads and
that nothing reads any more then, and so on with what those read.

If it is refused:
  C2   nothing has the id, or no statement begins on the line
  C3   several calls have the id: use --in FOLDER, the variable, or at FILE:LINE
  C14  no such FILE: list prints the build files
  C15  the call is a part of a statement: use at FILE:LINE
  C16  a variable that the statement sets is used elsewhere
  U7   CODE does not parse as statements

Examples:
  meson_rewrite code after target harbor \"test('harbor', harbor)\"
  meson_rewrite code before at src/meson.build:7 \"tide_args = ['-DTIDE']\"
  meson_rewrite code append --blank 1 meson.build \"summary('tests', true)\"
  meson_rewrite code remove --unused target harbor
  make_tests | meson_rewrite --in src code after target harbor -";

pub(crate) const PLACE: &str = "Which statement, see Statements; of append the file";

pub(crate) const ID: &str = "Its id, see Statements; of append the code";

pub(crate) const CODE: &str = "Statements, see CODE; not of append or remove";

pub(crate) const BLANK: &str = "Number of blank lines, from 0 to 100; not of remove";

pub(crate) const UNUSED: &str = "With remove: also what nothing reads any more";
