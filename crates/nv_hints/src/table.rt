//! The tables of forms: the words of each command and of each call, by their names and kinds.

ghost use Rattle.std.specs.Prelude.{◌≡◌, length, map};
ghost use Rattle.nv_script.specs.Grammar.{all_calls, fields_in, name_in, row};

/// What a word is read as.
#[derive(Clone, Copy, Drop)]
pub(crate) enum Kind {
    Handle,
    Number,
    Mode,
    /// A number of records or steps.
    Records,
    /// A name, or the bytes of a write.
    Text,
    /// A number behind this name, which comes with its `=`.
    Setting(&'static [u8]),
}

/// A word of a form.
#[derive(Clone, Copy, Drop)]
pub(crate) struct Part {
    pub(crate) name: &'static str,
    pub(crate) kind: Kind,
}

/// A command or a call: its name, the words behind that, how many of these may be left out, and what it does.
#[derive(Clone, Copy, Drop)]
pub(crate) struct Form {
    pub(crate) name: &'static [u8],
    pub(crate) parts: &'static [Part],
    pub(crate) optional: usize,
    pub(crate) about: &'static str,
}

const ACTOR: Part = Part {
    name: "ACTOR",
    kind: Kind::Number,
};

const DIR: Part = Part {
    name: "DIR",
    kind: Kind::Handle,
};

const FILE: Part = Part {
    name: "FILE",
    kind: Kind::Handle,
};

const HANDLE: Part = Part {
    name: "HANDLE",
    kind: Kind::Handle,
};

const NAME: Part = Part {
    name: "NAME",
    kind: Kind::Text,
};

const TEXT: Part = Part {
    name: "TEXT",
    kind: Kind::Text,
};

const MODE: Part = Part {
    name: "MODE",
    kind: Kind::Mode,
};

const OFFSET: Part = Part {
    name: "OFFSET",
    kind: Kind::Number,
};

const COUNT: Part = Part {
    name: "COUNT",
    kind: Kind::Number,
};

const SIZE: Part = Part {
    name: "SIZE",
    kind: Kind::Number,
};

const SNAPSHOT: Part = Part {
    name: "SNAPSHOT",
    kind: Kind::Number,
};

const INO: Part = Part {
    name: "INO",
    kind: Kind::Number,
};

const RECORDS: Part = Part {
    name: "COUNT",
    kind: Kind::Records,
};

const STEPS: Part = Part {
    name: "N",
    kind: Kind::Records,
};

/// The settings of a `format`.
pub(crate) const SETTINGS: [Part; 7] = [
    Part {
        name: "blocks=N",
        kind: Kind::Setting(b"blocks="),
    },
    Part {
        name: "cpus=N",
        kind: Kind::Setting(b"cpus="),
    },
    Part {
        name: "block=N",
        kind: Kind::Setting(b"block="),
    },
    Part {
        name: "page=N",
        kind: Kind::Setting(b"page="),
    },
    Part {
        name: "inodes=N",
        kind: Kind::Setting(b"inodes="),
    },
    Part {
        name: "snaps=N",
        kind: Kind::Setting(b"snaps="),
    },
    Part {
        name: "actors=N",
        kind: Kind::Setting(b"actors="),
    },
];

/// The commands.
static COMMANDS: [Form; 13] = [
    Form {
        name: b"format",
        parts: &SETTINGS,
        optional: 0,
        about: "makes an empty file system; comes first, and once",
    },
    Form {
        name: b"do",
        parts: &[ACTOR],
        optional: 0,
        about: "has an actor make a call",
    },
    Form {
        name: b"start",
        parts: &[ACTOR],
        optional: 0,
        about: "has an actor start a call, and makes no step of it",
    },
    Form {
        name: b"go",
        parts: &[ACTOR, STEPS],
        optional: 1,
        about: "makes N steps of the actor's call, or one",
    },
    Form {
        name: b"run",
        parts: &[ACTOR],
        optional: 0,
        about: "makes steps of the actor's call until it waits or ends",
    },
    Form {
        name: b"stop",
        parts: &[],
        optional: 0,
        about: "stops the machine, which goes on from what stands",
    },
    Form {
        name: b"tree",
        parts: &[],
        optional: 0,
        about: "lists all files and directories",
    },
    Form {
        name: b"stree",
        parts: &[SNAPSHOT],
        optional: 0,
        about: "lists them as they stood when a snapshot was made",
    },
    Form {
        name: b"snaps",
        parts: &[],
        optional: 0,
        about: "tells the epoch, the last commit and the living snapshots",
    },
    Form {
        name: b"space",
        parts: &[],
        optional: 0,
        about: "counts the blocks by where they are",
    },
    Form {
        name: b"lists",
        parts: &[],
        optional: 0,
        about: "lists the free blocks of each CPU",
    },
    Form {
        name: b"log",
        parts: &[INO],
        optional: 0,
        about: "shows how full the log of a file or directory is",
    },
    Form {
        name: b"audit",
        parts: &[],
        optional: 0,
        about: "compares what is kept with one scan of all logs",
    },
];

/// The calls, in the order of the grammar.
static CALLS: [Form; 19] = [
    Form {
        name: b"create",
        parts: &[DIR, NAME, MODE],
        optional: 0,
        about: "makes an empty file in a directory",
    },
    Form {
        name: b"mkdir",
        parts: &[DIR, NAME, MODE],
        optional: 0,
        about: "makes an empty directory in a directory",
    },
    Form {
        name: b"write",
        parts: &[FILE, OFFSET, TEXT],
        optional: 0,
        about: "writes bytes from an offset on; a space in a text is %20",
    },
    Form {
        name: b"read",
        parts: &[FILE, OFFSET, COUNT],
        optional: 0,
        about: "reads at most so many bytes from an offset on",
    },
    Form {
        name: b"size",
        parts: &[FILE, SIZE],
        optional: 0,
        about: "cuts a file, or makes it longer with zeros",
    },
    Form {
        name: b"mode",
        parts: &[HANDLE, MODE],
        optional: 0,
        about: "sets the mode of a file or directory",
    },
    Form {
        name: b"stat",
        parts: &[HANDLE],
        optional: 0,
        about: "tells kind, mode, size and the last commit",
    },
    Form {
        name: b"list",
        parts: &[DIR],
        optional: 0,
        about: "lists the names of a directory",
    },
    Form {
        name: b"lookup",
        parts: &[DIR, NAME],
        optional: 0,
        about: "finds what a name leads to",
    },
    Form {
        name: b"unlink",
        parts: &[DIR, NAME],
        optional: 0,
        about: "takes away a file",
    },
    Form {
        name: b"rmdir",
        parts: &[DIR, NAME],
        optional: 0,
        about: "takes away an empty directory",
    },
    Form {
        name: b"rename",
        parts: &[DIR, NAME, DIR, NAME],
        optional: 0,
        about: "moves a file or a name",
    },
    Form {
        name: b"snap",
        parts: &[],
        optional: 0,
        about: "makes a snapshot of all that stands now",
    },
    Form {
        name: b"drop",
        parts: &[SNAPSHOT],
        optional: 0,
        about: "ends a snapshot",
    },
    Form {
        name: b"show",
        parts: &[SNAPSHOT],
        optional: 0,
        about: "lists all that stood at a snapshot, and pins it meanwhile",
    },
    Form {
        name: b"drain",
        parts: &[RECORDS],
        optional: 0,
        about: "gives back what no snapshot holds any more, at most so many records",
    },
    Form {
        name: b"fast",
        parts: &[INO],
        optional: 0,
        about: "takes log pages out of which nothing is needed",
    },
    Form {
        name: b"thorough",
        parts: &[INO],
        optional: 0,
        about: "moves what is needed of a log to as few pages as it fills",
    },
    Form {
        name: b"auto",
        parts: &[INO],
        optional: 0,
        about: "does the one of the two that pays",
    },
];

/// The commands.
pub(crate) fn commands() -> &'static [Form] {
    &COMMANDS
}

/// The calls, with the names of the grammar, each with as many words.
pub(crate) fn calls() -> &'static [Form]
    // The forms of calls have the names of the grammar, and as many words.
    ensures names { map (λ form. form.name.now) result.now ≡ map (λ c. name_in (row c)) all_calls }
    ensures counts { map (λ form. length form.parts.now) result.now
        ≡ map (λ c. length (fields_in (row c))) all_calls }
{
    &CALLS
}
