//! The words of the command line of which one is expected.

use meson_json::Choice;

/// The operations of `target`.
pub(crate) const TARGET_OPERATIONS: Choice = Choice {
    of: "target",
    what: "operations",
    words: &[
        "add",
        "rm",
        "rename",
        "add_extra_files",
        "rm_extra_files",
        "add_target",
        "rm_target",
        "info",
    ],
};

/// The operations of `kwargs`.
pub(crate) const KWARGS_OPERATIONS: Choice = Choice {
    of: "kwargs",
    what: "operations",
    words: &["set", "add", "remove", "delete", "info"],
};

/// The functions of `kwargs`.
pub(crate) const FUNCTIONS: Choice = Choice {
    of: "kwargs",
    what: "functions",
    words: &["project", "target", "dependency"],
};

/// The operations of `arg`.
pub(crate) const ARGUMENT_OPERATIONS: Choice = Choice {
    of: "arg",
    what: "operations",
    words: &["set", "add", "remove", "replace", "delete", "info"],
};

/// The operations of `code`.
pub(crate) const CODE_OPERATIONS: Choice = Choice {
    of: "code",
    what: "operations",
    words: &["after", "before", "append", "remove"],
};

/// The operations of `default-options`.
pub(crate) const OPTIONS_OPERATIONS: Choice = Choice {
    of: "default-options",
    what: "operations",
    words: &["set", "delete", "unset"],
};
