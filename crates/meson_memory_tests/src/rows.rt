//! Projects, and a script for each.

use meson_plan::Project;
use meson_script::{Script, Session};
use meson_splice::{Change, FileSet, History};
use std::alloc::Global;

/// The title of the sessions' changes.
pub const TITLE: &str = "add the é of the row";

/// A project, the id of a target in it, and a script.
#[derive(Clone, Copy)]
pub struct Row<'a> {
    /// The root file.
    pub root: &'a str,
    /// The file of the folder `sub`; empty if there is no such file.
    pub below: &'a str,
    pub target: &'a str,
    pub script: &'a str,
}

/// The root file, the file below it, the target and the script of each row. A line `==` is between two of these, and `====` after each row.
const ROWS: &str = "project('p', 'cpp')
src = ['main.cpp', 'fileA.cpp']
exe1 = executable('testExe', src)

==

==
testExe
==
[{\"type\":\"target\",\"target\":\"testExe\",\"operation\":\"src_add\",\"sources\":[\"fileB.cpp\"]}]
====
project('p', 'cpp')
src = ['main.cpp', 'fileA.cpp']
exe1 = executable('testExe', src)

==

==
exe1
==
[{\"type\":\"target\",\"target\":\"exe1\",\"operation\":\"src_add\",\"sources\":[\"fileB.cpp\"]}]
====
srcs = [
'a.c', 'c.c',
# about b
       'b.c', 'd.c'
]
executable('e', srcs)

==

==
e
==
[{\"type\":\"target\",\"target\":\"e\",\"operation\":\"src_add\",\"sources\":[\"e.c\"]}]
====
src = [
  'a.c', # one
  'b.c' # two
]
executable('e', src)

==

==
e
==
[{\"type\":\"target\",\"target\":\"e\",\"operation\":\"src_add\",\"sources\":[\"c.c\"]},
{\"type\":\"target\",\"target\":\"e\",\"operation\":\"extra_files_add\",\"sources\":[\"x.h\"]}]
====
project('p', 'cpp')
src = ['main.cpp', 'fileA.cpp']
exe1 = executable('testExe', src)

==

==
testExe
==
[{\"type\":\"target\",\"target\":\"testExe\",\"operation\":\"src_add\",\"sources\":[\"fileB.cpp\"]},
{\"type\":\"kwargs\",\"function\":\"project\",\"id\":\"/\",\"operation\":\"set\",\"kwargs\":{\"version\":\"2\"}},
{\"type\":\"target\",\"target\":\"none\",\"operation\":\"info\"}]
====
project('p', 'cpp', default_options: ['warning_level=3', 'cpp_std=c++17'])

==

==
none
==
[{\"type\":\"default_options\",\"operation\":\"set\",\"options\":{\"cpp_std\":\"c++20\"}}]
====
project('p', 'c')
subdir('sub')

==
x = 1
==
lib1
==
[{\"type\":\"target\",\"target\":\"lib1\",\"operation\":\"target_add\",\"subdir\":\"sub\",\"target_type\":\"static_library\",\"sources\":[\"a.c\",\"b.c\"]},
{\"type\":\"kwargs\",\"function\":\"project\",\"id\":\"/\",\"operation\":\"set\",\"kwargs\":{\"version\":\"2\",\"license\":[\"MIT\"]}},
{\"type\":\"target\",\"target\":\"lib1\",\"operation\":\"target_rm\"}]
====
z = dependency('zlib', version: '>=1.2')

==

==
z
==
[{\"type\":\"kwargs\",\"function\":\"dependency\",\"id\":\"zlib\",\"operation\":\"add\",\"kwargs\":{\"version\":\"<2\"}},
{\"type\":\"kwargs\",\"function\":\"dependency\",\"id\":\"zlib\",\"operation\":\"remove\",\"kwargs\":{\"version\":\">=1.2\"}}]
====
project('p', 'cpp')
src = ['main.cpp', 'fileA.cpp']
exe1 = executable('testExe', src)

==

==
testExe
==
[{\"type\":\"target\",\"target\":\"testExe\",\"operation\":\"info\"},
{\"type\":\"kwargs\",\"function\":\"project\",\"id\":\"/\",\"operation\":\"info\"}]
====
project('p', 'c', version: '0.9') # v

==

==
none
==
[{\"type\":\"kwargs\",\"function\":\"project\",\"id\":\"/\",\"operation\":\"set\",\"kwargs\":{\"version\":\"1.0.0\"}}]
====
executable('e',
  'a.c',
  'b.c')

==

==
e
==
[{\"type\":\"target\",\"target\":\"e\",\"operation\":\"src_add\",\"sources\":[\"c.c\",\"d.c\"]},
{\"type\":\"target\",\"target\":\"e\",\"operation\":\"src_rm\",\"sources\":[\"a.c\"]}]
====
src = ['a.c']
if x
  src += files('b.c')
endif
executable('e', src)

==

==
e
==
[{\"type\":\"target\",\"target\":\"e\",\"operation\":\"src_add\",\"sources\":[\"c.c\"],\"follow\":true}]
====
src = ['a.c']
subdir('sub')
executable('e', src)
executable('f', src)

==
src += ['b.c']
==
e
==
[{\"type\":\"target\",\"target\":\"e\",\"operation\":\"src_rm\",\"sources\":[\"b.c\",\"./a.c\"],\"follow\":\"shared\"},
{\"type\":\"target\",\"target\":\"e\",\"operation\":\"src_rm\",\"sources\":[\"b.c\"],\"follow\":true}]
====
common = files('a.c')
subdir('sub')

==
executable('e', common, 'b.c')
==
e
==
[{\"type\":\"target\",\"target\":\"e\",\"operation\":\"rename\",\"sources\":[\"../a.c\",\"n.c\"],\"follow\":true},
{\"type\":\"target\",\"target\":\"e\",\"operation\":\"rename\",\"sources\":[\"n.c\",\"b.c\"],\"follow\":true}]
====
project('p', 'c', default_options: 'cpp_std=c++17')

==

==
none
==
[{\"type\":\"default_options\",\"operation\":\"set\",\"options\":{\"warning_level\":2}}]
";

fn row_of(text: &str) -> Row<'_> {
    let mut parts = text.split("\n==\n");
    Row {
        root: parts.next().unwrap_or(""),
        below: parts.next().unwrap_or(""),
        target: parts.next().unwrap_or(""),
        script: parts.next().unwrap_or(""),
    }
}

/// The rows.
pub fn rows(alloc: Global) -> Option<Vec<Row<'static>>> {
    ROWS.split("\n====\n").map(row_of).collect(alloc).ok()
}

/// Adds a file after the others.
fn add(alloc: Global, files: &mut FileSet, name: &str, text: &str) -> Option<()> {
    let name = String::from_str(alloc, name).ok()?;
    let bytes = Vec::from_slice(alloc, text.as_bytes()).ok()?;
    files.push(name, bytes).ok()
}

impl Row<'_> {
    /// The files of the project.
    pub fn files(&self, alloc: Global) -> Option<FileSet> {
        let mut files = FileSet::new(alloc);
        add(alloc, &mut files, "meson.build", self.root)?;
        if !self.below.is_empty() {
            add(alloc, &mut files, "sub/meson.build", self.below)?;
        }
        Some(files)
    }

    pub fn project(&self, alloc: Global) -> Option<Project> {
        Project::load(alloc, self.files(alloc)?).ok()
    }

    pub fn script(&self, alloc: Global) -> Option<Script> {
        Script::from_json(alloc, self.script).ok()
    }

    /// The session after the script with a title, if it is not refused.
    pub fn session(&self, alloc: Global) -> Option<Session> {
        let mut session = Session::of(self.project(alloc)?, History::new(alloc));
        let _ = session.run_titled(alloc, &self.script(alloc)?, TITLE);
        Some(session)
    }

    /// The project after the first command, and what it changed.
    pub fn changed(&self, alloc: Global) -> Option<(Project, Change)> {
        let mut project = self.project(alloc)?;
        let script = self.script(alloc)?;
        let done = project.perform(alloc, script.commands.get().first()?).ok()?;
        Some((project, done.change))
    }
}
