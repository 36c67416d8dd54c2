//! The subcommands, with their options and all texts of help.

use crate::forms::{Entry, Form};

/// A subcommand: its name, what it does, the text after its options, and its own options.
#[derive(Clone, Copy)]
pub struct Topic {
    pub name: &'static str,
    pub about: &'static str,
    pub more: &'static str,
}

/// The options that name the graph, after those of each subcommand.
pub const GRAPH_OPTIONS: [Entry; 5] = [
    (
        "folder",
        Form::Short('C', "DIR"),
        "Change to DIR before anything else",
    ),
    (
        "file",
        Form::Short('f', "FILE"),
        "Read FILE in place of build.ninja",
    ),
    (
        "dyndep",
        Form::Flag,
        "Join the discoveries of dyndep files, which have to exist",
    ),
    (
        "deps",
        Form::Flag,
        "Join the inputs that builds discovered: .ninja_deps in builddir, and depfiles",
    ),
    (
        "deps-log-file",
        Form::Long("FILE"),
        "The same as --deps, with the deps log FILE",
    ),
];

pub const AFFECTED: Topic = Topic {
    name: "affected",
    about: "Read changed paths, and write the outputs that the change affects",
    more: "\
A line of standard input is a changed path. Git quotes unusual paths, and quotes are not read, so let
git diff end paths by zero bytes, as below. With --deps the outputs are those that Ninja would build
again for the change. Status 3 means that more may be affected: standard error names each path that
no edge names, each from which the manifest itself is made, each dyndep file and each manifest that
may change, and what could not be read; or it says that no path was given.

A file may have absolute and relative paths: CMake names sources by the former, and Meson by the latter.
  git diff -z --name-only main | ninja-graph affected -z -C build --deps --source-dir ..",
};

pub const AFFECTED_OPTIONS: [Entry; 10] = [
    (
        "source-dir",
        Form::Repeated("DIR"),
        "Take changed paths as paths in DIR, or in one of these",
    ),
    (
        "zero-ended",
        Form::Letter('z'),
        "Read paths that are each ended by a zero byte, as git diff -z writes them",
    ),
    (
        "ignore",
        Form::Repeated("GLOB"),
        "Ignore changed paths that GLOB matches, as they are given: *, ?, **, [..]",
    ),
    (
        "rule",
        Form::Repeated("NAME"),
        "List only outputs of edges with this rule, or one of these",
    ),
    (
        "prefix",
        Form::Long("TEXT"),
        "List only outputs whose paths begin with TEXT",
    ),
    ("no-phony", Form::Flag, "List no outputs of phony edges"),
    (
        "ignore-unknown",
        Form::Flag,
        "Do not report changed paths that no edge names",
    ),
    (
        "allow-empty",
        Form::Flag,
        "End with status 0 if no changed path is given",
    ),
    (
        "since",
        Form::Long("FILE"),
        "Take commands as changed whose keys are not in FILE, which ninja-graph keys wrote",
    ),
    (
        "base",
        Form::Repeated("DIR"),
        "With --since, let a number stand for DIR, as keys did",
    ),
];

pub const AUDIT: Topic = Topic {
    name: "audit",
    about: "Report likely mistakes and dead entries",
    more: "\
A line is a finding: the place of its statement, its kind and a name. Status 3 means that there is
one, or that standard error names a source that could not be looked up.",
};

pub const AUDIT_OPTIONS: [Entry; 5] = [
    ("all", Form::Flag, "Report findings of every kind"),
    (
        "only",
        Form::Repeated("KIND"),
        "Report this kind instead of undeclared-input",
    ),
    ("except", Form::Repeated("KIND"), "Do not report this kind"),
    (
        "json",
        Form::Flag,
        "Write an object of JSON for each finding",
    ),
    ("list", Form::Flag, "List the kinds, and read nothing"),
];

pub const DRAW: Topic = Topic {
    name: "draw",
    about: "Write a drawing of the edges that targets need, for dot of Graphviz",
    more: "\
Without targets it draws the default ones. An ellipse is an edge with its rule, and a box is a file.
Order-only inputs have dotted arrows, and those that builds discovered dashed ones. A label says how
many edges there are, if not all are drawn.
  ninja-graph draw --limit 40 app | dot -Tsvg > app.svg",
};

pub const DRAW_OPTIONS: [Entry; 5] = [
    (
        "affected",
        Form::Flag,
        "Draw the edges that a change of the files affects, not those that they need",
    ),
    (
        "fold",
        Form::Flag,
        "Draw each phony edge with its outputs as a point",
    ),
    (
        "limit",
        Form::Number("N"),
        "Draw N nodes at most, edges and files together",
    ),
    (
        "inputs",
        Form::Number("K"),
        "Draw K inputs of an edge, and write how many more it has [default: 12]",
    ),
    (
        "targets",
        Form::Words("TARGET"),
        "The files, as ninja takes targets",
    ),
];

pub const JSON: Topic = Topic {
    name: "json",
    about: "Write each edge as an object of JSON, a line each",
    more: "\
Each object has the same keys in the same order: edge (its number), place (an object: file, line,
column), rule, phony (true or false), outputs, implicit_outputs, inputs, implicit_inputs,
order_only_inputs, validations (lists of strings), command, description, depfile, deps, rspfile,
rspfile_content, pool, dyndep, generator, restat (strings, which are empty where there is none).

The commands of the edges that have a header as an input:
  ninja-graph json | jq -r 'select(.inputs + .implicit_inputs | index(\"app.h\")) | .command'",
};

pub const KEYS: Topic = Topic {
    name: "keys",
    about: "Write a key for each command that targets need, under which a cache may keep files",
    more: "\
A line is a key and the first output of its edge, in the order of `ninja -t commands`. A key changes
with the command, the response file, the paths of inputs and outputs, and the keys of the edges that
make the inputs. The contents of files are not in it.

With --take the status is 3 if more are left; standard error then names the mark of the rest.

Builds of one project in two directories have the same keys where these are given alike:
  ninja-graph keys -C build --base \"$PWD/build\" --base \"$PWD\"",
};

pub const KEYS_OPTIONS: [Entry; 8] = [
    (
        "base",
        Form::Repeated("DIR"),
        "Let a number stand for DIR, an absolute path, wherever it is named",
    ),
    (
        "with",
        Form::Repeated("TEXT"),
        "Let TEXT go into every key, such as the version of a compiler",
    ),
    (
        "with-file",
        Form::Repeated("FILE"),
        "Let the contents of FILE go into every key, such as those of a compiler",
    ),
    ("take", Form::Number("N"), "Stop after N commands"),
    (
        "resume",
        Form::Long("MARK"),
        "Write the rest after the run that named MARK",
    ),
    (
        "all",
        Form::Flag,
        "Write a key for every command, in the order of the manifest",
    ),
    (
        "json",
        Form::Flag,
        "Write an object of JSON for each command, with all that a cache needs",
    ),
    (
        "targets",
        Form::Words("TARGET"),
        "Targets; the default ones if there are none",
    ),
];

pub const STALE: Topic = Topic {
    name: "stale",
    about: "Write what Ninja would run now",
    more: "\
A line is the first output of a stale edge, in the order of `ninja -t commands`. The build log is
.ninja_log in builddir, and the inputs that builds discovered count as with --deps. The answer is that
of the Ninja that wrote the log. Status 0 means that nothing is stale, 3 that something is, or that
standard error says what may be missing, and 1 that there is a fault. A missing source is one, if the
manifest itself names it and something needs it now.

What the manifest itself needs comes first. If the manifest is stale, only that is written, since what
follows depends on it; with --no-manifest it is left out.
  ninja-graph stale -C build --why",
};

pub const STALE_OPTIONS: [Entry; 4] = [
    (
        "why",
        Form::Flag,
        "Write the first reason after each output",
    ),
    (
        "json",
        Form::Flag,
        "Write an object of JSON for each stale edge, with its reason",
    ),
    (
        "no-manifest",
        Form::Flag,
        "Do not ask whether the manifest itself is stale",
    ),
    (
        "targets",
        Form::Words("TARGET"),
        "Targets; the default ones if there are none",
    ),
];

pub const TESTS: Topic = Topic {
    name: "tests",
    about: "Read changed paths, and write the tests that the change reaches",
    more: "\
A line of standard input is a changed path, as for affected. A test is chosen if it names an affected
output, a changed file, or a directory with one; or a file that needs one. Tests that name no file of
the build always run, and so do those whose program is not known. Chosen tests bring those that follow
them and those that they need, by fixtures and DEPENDS. Status 3 means that more may be affected: all
tests are written then, and standard error says why.

  ctest --show-only=json-v1 > tests.json
  git diff -z --name-only main | ninja-graph tests -z --ctest tests.json --deps --source-dir .. > names
  ctest --tests-from-file names

The same for Meson, whose list is in the build directory:
  git diff -z --name-only main |
    ninja-graph tests -z --meson . --format meson --deps --source-dir .. > patterns
  xargs -r -d '\\n' meson test < patterns",
};

pub const TESTS_OPTIONS: [Entry; 13] = [
    (
        "ctest",
        Form::Long("FILE"),
        "Read the list of tests that ctest --show-only=json-v1 wrote to FILE",
    ),
    (
        "meson",
        Form::Long("DIR"),
        "Read the list of tests in meson-info of DIR, a build directory of Meson",
    ),
    (
        "source-dir",
        Form::Repeated("DIR"),
        "Take changed paths as paths in DIR, or in one of these",
    ),
    (
        "zero-ended",
        Form::Letter('z'),
        "Read paths that are each ended by a zero byte, as git diff -z writes them",
    ),
    (
        "ignore",
        Form::Repeated("GLOB"),
        "Ignore changed paths that GLOB matches, as they are given: *, ?, **, [..]",
    ),
    (
        "ignore-unknown",
        Form::Flag,
        "Do not report changed paths that no edge names",
    ),
    (
        "allow-empty",
        Form::Flag,
        "End with status 0 if no changed path is given",
    ),
    (
        "format",
        Form::Long("FORMAT"),
        "Write names in lines (lines), patterns for meson test in lines (meson), or one for ctest -R (ctest)",
    ),
    ("why", Form::Flag, "Write why each test is chosen, too"),
    ("json", Form::Flag, "Write an object of JSON for each test"),
    (
        "unnamed",
        Form::Long("skip"),
        "Skip tests that name no file of the build, and those without a program",
    ),
    (
        "since",
        Form::Long("FILE"),
        "Take commands as changed whose keys are not in FILE, which ninja-graph keys wrote",
    ),
    (
        "base",
        Form::Repeated("DIR"),
        "With --since, let a number stand for DIR, as keys did",
    ),
];

pub const TIMES: Topic = Topic {
    name: "times",
    about: "Write where the time of the last builds went, by the build log",
    more: "\
The first line has the number of commands that targets need, how many of them the log does not know, the
sum of the times of the others, and that of the critical path: the chain of inputs that took longest. A
build takes at least that long, however many commands run at once. Then comes a line for each edge of the
critical path, from its first edge to its last: how long it took, and its first output.

The build log is .ninja_log in builddir, and the inputs that builds discovered count as with --deps. Of
a command that ran several times the last time counts.
  ninja-graph times -C build --top 10",
};

pub const TIMES_OPTIONS: [Entry; 5] = [
    (
        "top",
        Form::Number("N"),
        "Write the N slowest commands instead of the critical path",
    ),
    (
        "by-rule",
        Form::Flag,
        "Write the sum and the slowest command of each rule instead of the critical path",
    ),
    (
        "dead",
        Form::Flag,
        "Write the outputs that the manifest no longer has: those that ninja -t cleandead deletes",
    ),
    ("json", Form::Flag, "Write an object of JSON for each line"),
    (
        "targets",
        Form::Words("TARGET"),
        "Targets; the default ones if there are none",
    ),
];

pub const WHY: Topic = Topic {
    name: "why",
    about: "Write a shortest chain of inputs by which A needs B",
    more: "\
A line for each edge of the chain: its place, its rule, the file that it makes, and the kind of the
next input. Of several shortest chains it is the first when inputs are tried from left to right.
Status 3 means that there is none; nothing is written then.",
};

pub const WHY_OPTIONS: [Entry; 4] = [
    (
        "validations",
        Form::Flag,
        "Take validations as inputs too, after those of their edge",
    ),
    ("no-order-only", Form::Flag, "Leave out order-only inputs"),
    ("A", Form::Word, "The file that needs the other"),
    ("B", Form::Word, "The file that is needed"),
];
