//! The texts of the command line: help, and the faults of usage. The request is compared once; the clauses say the rest.

use meson_command::{Action, Asked, UsageFault, command_of};
use meson_steps::command::Command;
use std::alloc::Global;
use std::process::Abort;

/// The words of a line.
fn words(rt: &impl Abort, alloc: Global, line: &str, between: char) -> Vec<String> {
    let mut words = Vec::new(alloc);
    for word in line.split(between) {
        words
            .push(String::from_str(alloc, word).expect(rt, "memory"))
            .expect(rt, "memory");
    }
    words
}

fn asked(rt: &impl Abort, alloc: Global, line: &str) -> Result<Asked, UsageFault> {
    command_of(alloc, words(rt, alloc, line, ' ').as_slice())
}

/// Whether it is help that says how to call, and has an example.
fn is_help(asked: &Result<Asked, UsageFault>, usage: &str) -> bool {
    let Ok(asked) = asked else {
        return false;
    };
    let Action::Help(text) = &asked.action else {
        return false;
    };
    let text = text.get();
    text.contains(usage) && text.contains("Examples:\n  meson_rewrite ") && text.contains("--help")
}

/// Whether a fault is printed as this text.
fn is_told(alloc: Global, fault: &UsageFault, told: &str) -> bool {
    match format!(in alloc; "{fault}") {
        Ok(text) => text.as_str() == told,
        Err(_) => false,
    }
}

/// Whether two sources are added to a target, all words as given.
fn is_given(asked: &Asked) -> bool {
    let Action::Run(script) = &asked.action else {
        return false;
    };
    let [Command::SourcesAdd { target, sources }] = script.commands.get() else {
        return false;
    };
    let [first, last] = sources.get() else {
        return false;
    };
    target.id.get() == "a 'b'"
        && target.folder.is_none()
        && first.get() == "ä.c"
        && last.get().is_empty()
}

#[test]
fn help_tells_words_and_an_example(rt: HostRuntime) {
    let alloc = rt.alloc();
    let lines = [
        ("/bin/T --help", "Usage: meson_rewrite [OPTIONS] <COMMAND>"),
        (
            "T target --help",
            "Usage: meson_rewrite target [OPTIONS] <ID> <OPERATION> [SOURCE]...",
        ),
        (
            "T kwargs --help",
            "Usage: meson_rewrite kwargs <OPERATION> <FUNCTION> <ID> [KEY VALUE]...",
        ),
        (
            "T arg --help",
            "Usage: meson_rewrite arg [OPTIONS] <OPERATION> <FUNCTION> <ID> [KEY] [VALUE]...",
        ),
        (
            "T default-options --help",
            "Usage: meson_rewrite default-options <OPERATION> [OPTION VALUE]...",
        ),
        (
            "T command --help",
            "Usage: meson_rewrite command [OPTIONS] <JSON>",
        ),
        ("T undo --help", "Usage: meson_rewrite undo [OPTIONS]"),
        ("T redo --help", "Usage: meson_rewrite redo"),
        ("T history --help", "Usage: meson_rewrite history [OPTIONS]"),
        ("T list --help", "Usage: meson_rewrite list [OPTIONS]"),
    ];
    for (line, usage) in lines {
        let asked = asked(&rt, alloc, line);
        assert!(rt; is_help(&asked, usage), "{line}");
        drop(asked);
    }
}

#[test]
fn faults_of_usage_are_told(rt: HostRuntime) {
    let alloc = rt.alloc();
    let lines = [
        ("T", "U1 usage"),
        ("T help", "U1 usage"),
        ("T -h", "U1 usage"),
        ("T -V", "U1 usage"),
        ("T undo --to 0", "U1 usage"),
        ("T history --forget x", "U1 usage"),
        ("T kwargs set project / version", "U2 odd words"),
        ("T default-options set a 1 a 2", "U3 repeated key"),
        ("T --title \t undo", "U6 bad title"),
        ("T kwargs remove_regex target e", "U4 unsupported"),
        ("T arg set target e k :a :", "U7 not code"),
    ];
    for (line, told) in lines {
        let Some(fault) = asked(&rt, alloc, line).err() else {
            panic!(rt; "{line}");
        };
        assert!(rt; is_told(alloc, &fault, told), "{line}");
    }
}

#[test]
fn a_value_goes_through_as_given(rt: HostRuntime) {
    let alloc = rt.alloc();
    let words = words(&rt, alloc, "T|target|a 'b'|add|ä.c|", '|');
    let asked = command_of(alloc, words.as_slice());
    assert!(rt; asked.as_ref().is_ok_and(is_given));
    drop(asked);
}
