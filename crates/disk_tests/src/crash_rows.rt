//! What a crash may leave, by hand from the rules.
//!
//! Each list begins with a synced file "a" that holds "old". Choice 0 takes no change that wasn't synced,
//! choice 1 takes all, choice 2 takes those of names alone. The others take some, name by name, so that each
//! leaves one of a few; there a '?' stands for any byte.

use crate::step::Change::{Append, Cut, RenameTo, Sync, WriteAt};
use crate::step::Step::{self, Create, On, Remove, SyncNames};

/// A list of calls, and what a crash behind it leaves under a name.
pub struct Row {
    pub steps: &'static [Step],
    pub name: &'static str,
    pub at_none: Option<&'static str>,
    pub at_all: Option<&'static str>,
    pub at_names: Option<&'static str>,
    pub at_others: &'static [Option<&'static str>],
}

/// A new file.
const NEW: [Step; 1] = [Create("b")];

/// A new file with bytes.
const NEW_WRITTEN: [Step; 2] = [Create("b"), On("b", Append("new"))];

/// A new file with its bytes synced.
const NEW_SYNCED: [Step; 3] = [Create("b"), On("b", Append("new")), On("b", Sync)];

/// A new file with its name synced, and not its bytes.
const NEW_NAMED: [Step; 3] = [Create("b"), On("b", Append("new")), SyncNames];

/// A new file with both synced.
const NEW_WHOLE: [Step; 4] = [
    Create("b"),
    On("b", Append("new")),
    On("b", Sync),
    SyncNames,
];

/// Bytes behind those of a synced file.
const APPENDED: [Step; 1] = [On("a", Append("er"))];

/// A sync of names, which syncs no bytes.
const APPENDED_NAMED: [Step; 2] = [On("a", Append("er")), SyncNames];

/// A byte over one of a synced file.
const WRITTEN_INSIDE: [Step; 1] = [On("a", WriteAt(1, "x"))];

/// A byte past the end of a synced file.
const WRITTEN_PAST: [Step; 1] = [On("a", WriteAt(5, "x"))];

/// Two writes with a sync between them.
const WRITTEN_SYNCED: [Step; 3] = [
    On("a", WriteAt(1, "x")),
    On("a", Sync),
    On("a", WriteAt(2, "y")),
];

/// A synced file cut short.
const CUT_SHORT: [Step; 1] = [On("a", Cut(1))];

/// A synced file grown by a cut.
const GROWN: [Step; 1] = [On("a", Cut(5))];

/// A synced file cut short and grown over again.
const REGROWN: [Step; 2] = [On("a", Cut(1)), On("a", Append("xyz"))];

/// A cut that is synced, and one that is not.
const CUT_SYNCED: [Step; 3] = [On("a", Cut(2)), On("a", Sync), On("a", Cut(1))];

/// A synced file made anew under its name.
const EMPTIED: [Step; 1] = [Create("a")];

/// The same with new bytes, synced.
const EMPTIED_SYNCED: [Step; 3] = [Create("a"), On("a", Append("new")), On("a", Sync)];

/// A synced file removed.
const REMOVED: [Step; 1] = [Remove("a")];

/// The same with the names synced.
const REMOVED_NAMED: [Step; 2] = [Remove("a"), SyncNames];

/// A file removed and another made under its name.
const REPLACED: [Step; 3] = [Remove("a"), Create("a"), On("a", Append("new"))];

/// The same with the bytes synced.
const REPLACED_SYNCED: [Step; 4] = [
    Remove("a"),
    Create("a"),
    On("a", Append("new")),
    On("a", Sync),
];

/// A synced file renamed.
const RENAMED: [Step; 1] = [On("a", RenameTo("b"))];

/// A synced file renamed and written under its new name.
const RENAMED_WRITTEN: [Step; 2] = [On("a", RenameTo("b")), On("b", Append("er"))];

/// The same with the names synced.
const RENAMED_NAMED: [Step; 3] = [On("a", RenameTo("b")), On("b", Append("er")), SyncNames];

/// A file put over another by a rename without a sync of its bytes.
const TORN_PUT: [Step; 3] = [Create("b"), On("b", Append("new")), On("b", RenameTo("a"))];

/// The same with its bytes synced before.
const PUT: [Step; 4] = [
    Create("b"),
    On("b", Append("new")),
    On("b", Sync),
    On("b", RenameTo("a")),
];

/// The same with the names synced behind it.
const PUT_WHOLE: [Step; 5] = [
    Create("b"),
    On("b", Append("new")),
    On("b", Sync),
    On("b", RenameTo("a")),
    SyncNames,
];

pub const ROWS: [Row; 32] = [
    Row {
        steps: &NEW,
        name: "b",
        at_none: None,
        at_all: Some(""),
        at_names: Some(""),
        at_others: &[None, Some("")],
    },
    Row {
        steps: &NEW,
        name: "a",
        at_none: Some("old"),
        at_all: Some("old"),
        at_names: Some("old"),
        at_others: &[Some("old")],
    },
    Row {
        steps: &NEW_WRITTEN,
        name: "b",
        at_none: None,
        at_all: Some("new"),
        at_names: Some(""),
        at_others: &[None, Some(""), Some("???")],
    },
    Row {
        steps: &NEW_SYNCED,
        name: "b",
        at_none: None,
        at_all: Some("new"),
        at_names: Some("new"),
        at_others: &[None, Some("new")],
    },
    Row {
        steps: &NEW_NAMED,
        name: "b",
        at_none: Some(""),
        at_all: Some("new"),
        at_names: Some(""),
        at_others: &[Some(""), Some("???")],
    },
    Row {
        steps: &NEW_WHOLE,
        name: "b",
        at_none: Some("new"),
        at_all: Some("new"),
        at_names: Some("new"),
        at_others: &[Some("new")],
    },
    Row {
        steps: &APPENDED,
        name: "a",
        at_none: Some("old"),
        at_all: Some("older"),
        at_names: Some("old"),
        at_others: &[Some("old"), Some("old??")],
    },
    Row {
        steps: &APPENDED_NAMED,
        name: "a",
        at_none: Some("old"),
        at_all: Some("older"),
        at_names: Some("old"),
        at_others: &[Some("old"), Some("old??")],
    },
    Row {
        steps: &WRITTEN_INSIDE,
        name: "a",
        at_none: Some("old"),
        at_all: Some("oxd"),
        at_names: Some("old"),
        at_others: &[Some("o?d")],
    },
    Row {
        steps: &WRITTEN_PAST,
        name: "a",
        at_none: Some("old"),
        at_all: Some("old\0\0x"),
        at_names: Some("old"),
        at_others: &[Some("old"), Some("old???")],
    },
    Row {
        steps: &WRITTEN_SYNCED,
        name: "a",
        at_none: Some("oxd"),
        at_all: Some("oxy"),
        at_names: Some("oxd"),
        at_others: &[Some("ox?")],
    },
    Row {
        steps: &CUT_SHORT,
        name: "a",
        at_none: Some("old"),
        at_all: Some("o"),
        at_names: Some("old"),
        at_others: &[Some("old"), Some("o")],
    },
    Row {
        steps: &GROWN,
        name: "a",
        at_none: Some("old"),
        at_all: Some("old\0\0"),
        at_names: Some("old"),
        at_others: &[Some("old"), Some("old??")],
    },
    Row {
        steps: &REGROWN,
        name: "a",
        at_none: Some("old"),
        at_all: Some("oxyz"),
        at_names: Some("old"),
        at_others: &[Some("o"), Some("o??"), Some("o???")],
    },
    Row {
        steps: &CUT_SYNCED,
        name: "a",
        at_none: Some("ol"),
        at_all: Some("o"),
        at_names: Some("ol"),
        at_others: &[Some("ol"), Some("o")],
    },
    Row {
        steps: &EMPTIED,
        name: "a",
        at_none: Some("old"),
        at_all: Some(""),
        at_names: Some("old"),
        at_others: &[Some("old"), Some("")],
    },
    Row {
        steps: &EMPTIED_SYNCED,
        name: "a",
        at_none: Some("new"),
        at_all: Some("new"),
        at_names: Some("new"),
        at_others: &[Some("new")],
    },
    Row {
        steps: &REMOVED,
        name: "a",
        at_none: Some("old"),
        at_all: None,
        at_names: None,
        at_others: &[Some("old"), None],
    },
    Row {
        steps: &REMOVED_NAMED,
        name: "a",
        at_none: None,
        at_all: None,
        at_names: None,
        at_others: &[None],
    },
    Row {
        steps: &REPLACED,
        name: "a",
        at_none: Some("old"),
        at_all: Some("new"),
        at_names: Some(""),
        at_others: &[Some("old"), None, Some(""), Some("???")],
    },
    Row {
        steps: &REPLACED_SYNCED,
        name: "a",
        at_none: Some("old"),
        at_all: Some("new"),
        at_names: Some("new"),
        at_others: &[Some("old"), None, Some("new")],
    },
    Row {
        steps: &RENAMED,
        name: "a",
        at_none: Some("old"),
        at_all: None,
        at_names: None,
        at_others: &[Some("old"), None],
    },
    Row {
        steps: &RENAMED,
        name: "b",
        at_none: None,
        at_all: Some("old"),
        at_names: Some("old"),
        at_others: &[None, Some("old")],
    },
    Row {
        steps: &RENAMED_WRITTEN,
        name: "a",
        at_none: Some("old"),
        at_all: None,
        at_names: None,
        at_others: &[Some("old"), Some("old??"), None],
    },
    Row {
        steps: &RENAMED_WRITTEN,
        name: "b",
        at_none: None,
        at_all: Some("older"),
        at_names: Some("old"),
        at_others: &[None, Some("old"), Some("old??")],
    },
    Row {
        steps: &RENAMED_NAMED,
        name: "a",
        at_none: None,
        at_all: None,
        at_names: None,
        at_others: &[None],
    },
    Row {
        steps: &RENAMED_NAMED,
        name: "b",
        at_none: Some("old"),
        at_all: Some("older"),
        at_names: Some("old"),
        at_others: &[Some("old"), Some("old??")],
    },
    Row {
        steps: &TORN_PUT,
        name: "a",
        at_none: Some("old"),
        at_all: Some("new"),
        at_names: Some(""),
        at_others: &[Some("old"), Some(""), Some("???")],
    },
    Row {
        steps: &PUT,
        name: "a",
        at_none: Some("old"),
        at_all: Some("new"),
        at_names: Some("new"),
        at_others: &[Some("old"), Some("new")],
    },
    Row {
        steps: &PUT,
        name: "b",
        at_none: None,
        at_all: None,
        at_names: None,
        at_others: &[None, Some("new")],
    },
    Row {
        steps: &PUT_WHOLE,
        name: "a",
        at_none: Some("new"),
        at_all: Some("new"),
        at_names: Some("new"),
        at_others: &[Some("new")],
    },
    Row {
        steps: &PUT_WHOLE,
        name: "b",
        at_none: None,
        at_all: None,
        at_names: None,
        at_others: &[None],
    },
];
