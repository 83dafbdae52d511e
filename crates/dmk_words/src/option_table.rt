//! The options: those that are followed, as the help tells them, and those of GNU make that aren't.

/// What stands behind an option, and what counts of one that is there several times.
#[derive(Clone, Copy)]
pub enum Takes {
    /// Nothing, and it counts how often.
    Nothing,
    /// Nothing, and the last of it and of this one counts.
    NothingAfter(&'static str),
    /// A value of this name, once.
    Value(&'static str),
    /// A value of this name, and all count.
    Values(&'static str),
    /// A value of this name or none, which stands for the one behind it; all count.
    Perhaps(&'static str, &'static str),
    /// How many recipes may run at once.
    Workers,
}

/// What an option is here.
#[derive(Clone, Copy)]
pub enum Role {
    /// It stands in this group of the help, with this text.
    Told(&'static str, &'static str),
    /// It is taken, and changes nothing.
    Taken,
    /// The same in the wide profile; in the strict one it isn't followed, for this reason, with what to do in place of it.
    Wide(&'static str, &'static str, &'static str),
    /// It isn't followed, for this reason, with what to do in place of it.
    Refused(&'static str),
}

/// An option: its letter, its words (those of GNU make, where it has it), and the name under which it is looked for and refused.
#[derive(Clone, Copy)]
pub struct Row {
    pub id: &'static str,
    pub letter: Option<char>,
    pub words: &'static [&'static str],
    pub takes: Takes,
    pub role: Role,
}

// The groups of options, as the man page has them.
const FILES: &str = "Makefile and state";

const RUNNING: &str = "Running recipes";

const ASKING: &str = "Asking";

const TELLING: &str = "What is told";

/// How what recipes write is held together where -O doesn't say it (GNU make).
pub const HELD: &str = "target";

/// How the option is looked for by which recipes begin while the machine isn't too busy.
pub const LOAD: &str = "-l (--load-average)";

/// What stands for its value where it has none: no load is too high.
pub const UNBOUND: &str = "none";

/// How the option is looked for by which included files are.
pub const INCLUDE: &str = "-I (--include-dir)";

/// How the option is looked for by which the tool has no macros of its own.
pub const NO_MACROS: &str = "-R (--no-builtin-variables)";

/// The option by which macros are told that nothing defines.
pub const UNDEFINED: &str = "--warn-undefined-variables";

/// How the option is looked for by which files count as changed.
pub const TOUCHED: &str = "-W (--what-if)";

/// How the option is looked for by which files are taken as old.
pub const OLD: &str = "-o (--old-file)";

static OPTIONS: [Row; 35] = [
    Row {
        id: "folders",
        letter: Some('C'),
        words: &["directory"],
        takes: Takes::Values("DIR"),
        role: Role::Told(
            FILES,
            "Go to DIR before all else; a further one counts\nfrom there",
        ),
    },
    Row {
        id: "makefiles",
        letter: Some('f'),
        words: &["file", "makefile"],
        takes: Takes::Values("FILE"),
        role: Role::Told(
            FILES,
            "Read FILE as the makefile, several one behind the\nother; - is standard input",
        ),
    },
    Row {
        id: "state",
        letter: Some('K'),
        words: &[],
        takes: Takes::Value("FILE"),
        role: Role::Told(FILES, "Keep the state in FILE and FILE.2"),
    },
    Row {
        id: INCLUDE,
        letter: Some('I'),
        words: &["include-dir"],
        takes: Takes::Values("DIR"),
        role: Role::Wide(
            FILES,
            "With --posix, look in DIR for files that include\nlines name and that aren't there; all count",
            "included files aren't searched for; write include DIR/FILE",
        ),
    },
    Row {
        id: "environment",
        letter: Some('e'),
        words: &["environment-overrides"],
        takes: Takes::Nothing,
        role: Role::Told(
            FILES,
            "Have the environment's variables count before the\nmakefile's definitions",
        ),
    },
    Row {
        id: "no_rules",
        letter: Some('r'),
        words: &["no-builtin-rules"],
        takes: Takes::Nothing,
        role: Role::Told(
            FILES,
            "Leave out the rules and suffixes that the wide\nprofile has built in",
        ),
    },
    Row {
        id: NO_MACROS,
        letter: Some('R'),
        words: &["no-builtin-variables"],
        takes: Takes::Nothing,
        role: Role::Wide(
            FILES,
            "With --posix, leave out the macros too that are\nbuilt in, but for MAKE",
            "built-in macros stay; -r leaves out the rules",
        ),
    },
    Row {
        id: "posix",
        letter: None,
        words: &["posix"],
        takes: Takes::Nothing,
        role: Role::Told(
            FILES,
            "Read the makefile in the wide profile: built-in\nrules, references in references, 1,000,000 names",
        ),
    },
    Row {
        id: "makes_all",
        letter: Some('B'),
        words: &["always-make"],
        takes: Takes::Nothing,
        role: Role::Told(
            RUNNING,
            "Make each target, whatever files and state say of it",
        ),
    },
    Row {
        id: "workers",
        letter: Some('j'),
        words: &["jobs"],
        takes: Takes::Workers,
        role: Role::Told(
            RUNNING,
            "Run up to N recipes at once, 1 to 256; without N\nas many as there are processors; by default 2, and\n1 with --posix",
        ),
    },
    Row {
        id: TOUCHED,
        letter: Some('W'),
        words: &["what-if", "new-file", "assume-new"],
        takes: Takes::Values("FILE"),
        role: Role::Wide(
            RUNNING,
            "With --posix, make what is to be made if FILE had\nbeen changed just now, though it stays as it is;\nall count",
            "the times of files count; touch the file",
        ),
    },
    Row {
        id: OLD,
        letter: Some('o'),
        words: &["old-file", "assume-old"],
        takes: Takes::Values("FILE"),
        role: Role::Wide(
            RUNNING,
            "With --posix, leave FILE as it is, and make nothing\non account of it; all count",
            "what is out of date is made; name the targets that are wanted",
        ),
    },
    Row {
        id: "trusts_files",
        letter: None,
        words: &["trust-files"],
        takes: Takes::Nothing,
        role: Role::Told(
            RUNNING,
            "With --posix, once: where nothing is recorded take\ntargets as they are whose files are up to date by\ntheir times",
        ),
    },
    Row {
        id: "goes_on",
        letter: Some('k'),
        words: &["keep-going"],
        takes: Takes::NothingAfter("stops"),
        role: Role::Told(RUNNING, "Go on with what doesn't depend on a failed target"),
    },
    Row {
        id: "stops",
        letter: Some('S'),
        words: &["no-keep-going", "stop"],
        takes: Takes::NothingAfter("goes_on"),
        role: Role::Told(
            RUNNING,
            "Begin nothing more behind a failed target, as\nwithout -k; the last one counts",
        ),
    },
    Row {
        id: "ignore",
        letter: Some('i'),
        words: &["ignore-errors"],
        takes: Takes::Nothing,
        role: Role::Told(RUNNING, "Ignore the statuses of all lines"),
    },
    Row {
        id: "dry",
        letter: Some('n'),
        words: &["dry-run", "just-print", "recon"],
        takes: Takes::Nothing,
        role: Role::Told(
            ASKING,
            "Print the recipes of the targets that are out of date, and\nmake none",
        ),
    },
    Row {
        id: "asks",
        letter: Some('q'),
        words: &["question"],
        takes: Takes::Nothing,
        role: Role::Told(
            ASKING,
            "Make nothing, and print nothing but what -d and -p ask for;\nstatus 1 where a target is out of date, else 0",
        ),
    },
    Row {
        id: "tells",
        letter: Some('d'),
        words: &["trace"],
        takes: Takes::Nothing,
        role: Role::Told(
            TELLING,
            "Tell why each target is made; -dd also which aren't,\nand what changed of commands",
        ),
    },
    Row {
        id: "output",
        letter: Some('O'),
        words: &["output", "output-sync"],
        takes: Takes::Perhaps("MODE", HELD),
        role: Role::Told(
            TELLING,
            "Print what recipes write in blocks when they end\n(block), the oldest one's as it comes (front), or\nas it comes (through); MODE stands in the same\nword",
        ),
    },
    Row {
        id: "base",
        letter: Some('p'),
        words: &["print-data-base"],
        takes: Takes::Nothing,
        role: Role::Told(
            TELLING,
            "Print macros and rules first, as they were read,\nwith file and line",
        ),
    },
    Row {
        id: "silent",
        letter: Some('s'),
        words: &["silent", "quiet"],
        takes: Takes::NothingAfter("loud"),
        role: Role::Told(TELLING, "Don't print lines before they\nare run"),
    },
    Row {
        id: "loud",
        letter: None,
        words: &["no-silent"],
        takes: Takes::NothingAfter("silent"),
        role: Role::Told(TELLING, "Print them, as without -s; the last one counts"),
    },
    Row {
        id: "progress",
        letter: None,
        words: &["progress"],
        takes: Takes::Nothing,
        role: Role::Told(
            TELLING,
            "Print a line for each recipe that has ended, as\n[3/17] TARGET, where standard output is no terminal",
        ),
    },
    Row {
        id: "log",
        letter: None,
        words: &["log"],
        takes: Takes::Value("FILE"),
        role: Role::Told(
            TELLING,
            "Add to FILE a line of JSON for each event of a run:\nwhy a recipe is run, when it begins and ends;\n- is standard output",
        ),
    },
    Row {
        id: UNDEFINED,
        letter: None,
        words: &["warn-undefined", "warn-undefined-variables"],
        takes: Takes::Nothing,
        role: Role::Wide(
            TELLING,
            "With --posix, note each macro that makefiles refer\nto and that nothing defines,\nonce",
            "no macro is told that nothing defines; -p prints those that there are",
        ),
    },
    Row {
        id: "told",
        letter: Some('w'),
        words: &["print-directory"],
        takes: Takes::Nothing,
        role: Role::Told(
            TELLING,
            "Tell the folder at the beginning and at the end, as\nwith -C",
        ),
    },
    Row {
        id: "untold",
        letter: None,
        words: &["no-print-directory"],
        takes: Takes::Nothing,
        role: Role::Told(TELLING, "Don't tell the folder, though there is -C"),
    },
    Row {
        id: "-b",
        letter: Some('b'),
        words: &[],
        takes: Takes::Nothing,
        role: Role::Taken,
    },
    Row {
        id: "-m",
        letter: Some('m'),
        words: &[],
        takes: Takes::Nothing,
        role: Role::Taken,
    },
    Row {
        id: "-t (--touch)",
        letter: Some('t'),
        words: &["touch"],
        takes: Takes::Nothing,
        role: Role::Refused(
            "it would call targets made that aren't; --posix --trust-files takes those that are right already",
        ),
    },
    Row {
        id: LOAD,
        letter: Some('l'),
        words: &["load-average", "max-load"],
        takes: Takes::Perhaps("N", UNBOUND),
        role: Role::Wide(
            RUNNING,
            "With --posix, begin no further recipe beside others\nwhile the load is N or above; without N\nwhatever it is",
            "how busy the machine is isn't looked at; -j N bounds how many recipes run",
        ),
    },
    Row {
        id: "-L (--check-symlink-times)",
        letter: Some('L'),
        words: &["check-symlink-times"],
        takes: Takes::Nothing,
        role: Role::Refused("a link has the time of what it leads to; touch that"),
    },
    Row {
        id: "-E (--eval)",
        letter: Some('E'),
        words: &["eval"],
        takes: Takes::Values("STRING"),
        role: Role::Refused("no text of a word is read as a makefile; put it into a file for -f"),
    },
    Row {
        id: "--debug",
        letter: None,
        words: &["debug"],
        takes: Takes::Perhaps("FLAGS", ""),
        role: Role::Refused("-d or --trace tells why targets are made"),
    },
];

/// All of them, in the order of the help.
pub fn options() -> &'static [Row] {
    &OPTIONS
}
