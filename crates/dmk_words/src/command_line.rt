//! The words of the command line, read by `clap`.
ghost use Rattle.std.specs.Prelude.{◌≡◌, false, IfOk};
ghost use Rattle.dmk_reading.specs.Asked.{AsksToRun};

use crate::arguments::{add, find, output_of, refusal};
use crate::definition::definition_in;
use crate::descriptors::with_pool_path;
use crate::environment::read_environment;
use crate::flags::taken_words;
use crate::job_words::with_numbers;
use crate::loads::load_of;
use crate::mistake::write_mistake;
use crate::option_table::{INCLUDE, NO_MACROS, OLD, TOUCHED, UNDEFINED};
use crate::program::started_by;
use crate::request::{Asked, INPUT, Later, Request, WordsFault};
use bd_lists::Variable;
use byte_strings::{ByteString, ByteStrings};
use clap::error::ErrorKind;
use clap::{ArgAction, ArgMatches};
use dmk_reading::{MAX_WORKERS, Makefiles, Mode, Options, Telling, value_of};
use jb_auth::posix;
use jb_flags::{Above, PROFILE, workers_by};
use mk_profile::Profile;
use mk_short_names::name_in;
use plain_text::Plain;
use std::alloc::{AllocError, Global};
use std::env;

/// How many recipes may run at once in the strict profile where the words don't say it.
const STRICT: Above = Above {
    workers: 2,
    is_said: false,
};

/// The words of the command line, each -j without a number with that of the processors.
fn given_words(rt: HostRuntime, processors: &str) -> Result<Vec<String>, WordsFault> {
    let words = env::args(&rt)?.collect::<Vec<String>>(rt.alloc())?;
    Ok(with_numbers(rt.alloc(), &words, processors)?)
}

/// What the words that were found ask for. The help, the version or what is wrong with them is printed.
fn answered(
    rt: HostRuntime,
    found: Result<ArgMatches<'_>, clap::Error>,
    above: Above,
) -> Result<Request, WordsFault> {
    match found {
        Ok(found) => request_of(rt.alloc(), &found, above),
        Err(answer) => say(rt, answer),
    }
}

/// Reads the words, and prints the help, the version or what is wrong with them. A -j without a number has that of the processors.
/// In the strict profile -j may stand once.
pub fn read_words(rt: HostRuntime, processors: u16) -> Result<Request, WordsFault> {
    let count = format!(in rt.alloc(); "{processors}")?;
    let environment = read_environment(rt)?;
    let asked = read_by(rt, processors, count.as_str(), &environment);
    checked(asked, value_of(&environment, b"MAKEFLAGS"))
}

/// The same by this environment, where the number of the processors is also a text.
fn read_by(
    rt: HostRuntime,
    processors: u16,
    count: &str,
    environment: &[Variable],
) -> Result<Request, WordsFault> {
    let words = given_words(rt, count)?;
    let found = find(rt.alloc(), count, ArgAction::Set, &words);
    if is_wide(&found, environment) || is_wide_with_jobs(rt.alloc(), &found, &words, environment) {
        drop(found);
        return read_wide(rt, processors, count, environment, words);
    }
    answered(rt, found, STRICT)
}

/// The same in the wide profile.
fn read_wide(
    rt: HostRuntime,
    processors: u16,
    count: &str,
    environment: &[Variable],
    words: Vec<String>,
) -> Result<Request, WordsFault> {
    let program = program_of(rt, &words, environment)?;
    match read_with_flags(rt, processors, count, environment, words) {
        Ok(asked) => Ok(run_by(program, level_in(environment), asked)),
        Err(fault) => {
            drop(program);
            Err(fault)
        }
    }
}

/// What the words behind those of MAKEFLAGS ask for.
fn read_with_flags(
    rt: HostRuntime,
    processors: u16,
    count: &str,
    environment: &[Variable],
    words: Vec<String>,
) -> Result<Request, WordsFault> {
    let makeflags = value_of(environment, b"MAKEFLAGS");
    let Some(words) = with_flags(rt.alloc(), words, makeflags)? else {
        return Err(WordsFault::FlagsNotText);
    };
    let flags = with_pool_path(rt, makeflags)?;
    let above = workers_by(rt.alloc(), &flags, processors, MAX_WORKERS)?;
    drop(flags);
    let found = find(rt.alloc(), count, ArgAction::Append, &words);
    answered(rt, found, above)
}

/// What MAKE is, by the first of the words.
fn program_of(
    rt: HostRuntime,
    words: &[String],
    environment: &[Variable],
) -> Result<Option<Vec<u8>>, AllocError> {
    let Some(word) = words.first() else {
        return Ok(None);
    };
    let folders = str::from_utf8(value_of(environment, b"PATH")).unwrap_or("");
    started_by(rt, word.as_str(), folders)
}

/// How many makes are above, as MAKELEVEL says.
fn level_in(environment: &[Variable]) -> u32 {
    let text = str::from_utf8(value_of(environment, b"MAKELEVEL")).unwrap_or("");
    text.parse::<u32>().unwrap_or(0)
}

/// What is asked for, of this program, with so many makes above.
fn run_by(program: Option<Vec<u8>>, level: u32, asked: Request) -> Request {
    match asked {
        Request::Make(asked) => {
            let mut asked = asked;
            asked.program = program;
            asked.later.level = level;
            Request::Make(asked)
        }
        Request::Leave(status) => {
            drop(program);
            Request::Leave(status)
        }
    }
}

/// What is asked for, unless targets are to be taken as they are where that has no meaning.
fn checked(asked: Result<Request, WordsFault>, makeflags: &[u8]) -> Result<Request, WordsFault> {
    match trust_fault(&asked, makeflags) {
        None => asked,
        Some(fault) => {
            drop(asked);
            Err(fault)
        }
    }
}

/// Why targets can't be taken as they are, where that is asked for.
fn trust_fault(asked: &Result<Request, WordsFault>, makeflags: &[u8]) -> Option<WordsFault> {
    match asked {
        Ok(Request::Make(asked)) if asked.later.trusts_files => {
            check_trust(&asked.options, makeflags).err()
        }
        _ => None,
    }
}

fn check_trust(options: &Options, makeflags: &[u8]) -> Result<(), WordsFault>
    ensures runs { IfOk result (λ _. AsksToRun options.now makeflags.now) }
    ensures judges { IfOk result (λ _. options.now.makes_all ≡ false) }
{
    if !options.language(makeflags).is_wide() {
        return Err(WordsFault::TrustInStrict);
    }
    if options.mode(makeflags) != Mode::Run {
        return Err(WordsFault::TrustToLook);
    }
    if options.makes_all {
        return Err(WordsFault::TrustToMakeAll);
    }
    Ok(())
}

/// Whether the wide profile is asked for: by the words, by MAKEFLAGS or by a run above that has it.
fn is_wide(found: &Result<ArgMatches<'_>, clap::Error>, environment: &[Variable]) -> bool {
    let (name, wide) = PROFILE;
    match found {
        Ok(found) => {
            found.contains_id("posix")
                || value_of(environment, name) == wide
                || posix(value_of(environment, b"MAKEFLAGS"))
        }
        Err(_) => false,
    }
}

/// Whether it is asked for beside several -j, which it takes.
fn is_wide_with_jobs(
    alloc: Global,
    found: &Result<ArgMatches<'_>, clap::Error>,
    words: &[String],
    environment: &[Variable],
) -> bool {
    match found {
        Err(answer) if answer.kind() == ErrorKind::ArgumentConflict => {
            is_wide(&find(alloc, "1", ArgAction::Append, words), environment)
        }
        _ => false,
    }
}

/// The words with what MAKEFLAGS has, and with the profile, before their own behind the program's name; None where that isn't UTF-8.
fn with_flags(
    alloc: Global,
    words: Vec<String>,
    makeflags: &[u8],
) -> Result<Option<Vec<String>>, AllocError> {
    let mut words = words.into_iter();
    let mut all = Vec::new(alloc);
    let program = words.next();
    if !push_front(alloc, &mut all, program, makeflags)? {
        return Ok(None);
    }
    for word in words {
        add(&mut all, word)?;
    }
    Ok(Some(all))
}

/// Adds what stands before them: the program's name, the profile, what MAKEFLAGS has. Whether that is UTF-8.
fn push_front(
    alloc: Global,
    all: &mut Vec<String>,
    program: Option<String>,
    makeflags: &[u8],
) -> Result<bool, AllocError> {
    if let Some(program) = program {
        add(all, program)?;
    }
    add(all, String::from_str(alloc, "--posix")?)?;
    for word in &taken_words(alloc, makeflags)? {
        let Ok(text) = str::from_utf8(word) else {
            return Ok(false);
        };
        add(all, String::from_str(alloc, text)?)?;
    }
    Ok(true)
}

// What the words that were found ask for, unless it is refused by name.
fn request_of(alloc: Global, found: &ArgMatches<'_>, above: Above) -> Result<Request, WordsFault> {
    if let Some(fault) = refusal(found) {
        return Err(fault);
    }
    let asked = asked_of(alloc, found, above)?;
    match input_fault(&asked.options) {
        Some(fault) => {
            drop(asked);
            Err(fault)
        }
        None => Ok(Request::Make(asked)),
    }
}

/// What is asked of standard input that it can't give.
fn input_fault(options: &Options) -> Option<WordsFault> {
    if options.state.as_str() == "-" {
        return Some(WordsFault::StateInput);
    }
    if inputs_in(options) > 1 {
        return Some(WordsFault::InputTwice);
    }
    None
}

/// How often standard input is named as a makefile.
fn inputs_in(options: &Options) -> usize {
    let mut found: usize = 0;
    for name in options.makefiles.named.iter() {
        if name == INPUT {
            found = found.saturating_add(1);
        }
    }
    found
}

impl Asked {
    /// A makefile is read from standard input.
    pub fn reads_input(&self) -> bool {
        inputs_in(&self.options) > 0
    }
}

// Prints what clap answers in place of matches. That a mistake can't be printed changes nothing.
fn say(rt: HostRuntime, answer: clap::Error) -> Result<Request, WordsFault> {
    if answer.kind() == ErrorKind::OutOfMemory {
        return Err(WordsFault::OutOfMemory);
    }
    if answer.use_stderr() {
        let text = format!(in rt.alloc(); "{answer}")?;
        let _ = write_mistake(&mut Plain::over(&mut rt.stderr()), text.as_str());
        return Ok(Request::Leave(2));
    }
    match answer.print(&rt) {
        Ok(()) => Ok(Request::Leave(0)),
        Err(_) => Err(WordsFault::Write),
    }
}

/// Adds a word: a definition where it holds a `=`, and else a target.
fn add_word(alloc: Global, options: &mut Options, word: &str) -> Result<(), AllocError> {
    match definition_in(options.profile, word) {
        Some((name, value)) => {
            options.definitions.push(Variable {
                name: ByteString::from_slice(alloc, name)?,
                value: ByteString::from_slice(alloc, value)?,
            })?;
            Ok(())
        }
        None => options
            .targets
            .push(name_in(options.profile, word.as_bytes())),
    }
}

/// What is read as the makefile: those that were found, in the order of the words, and the folders in which included files are looked for.
fn makefiles_of(alloc: Global, found: &ArgMatches<'_>) -> Result<Makefiles, AllocError> {
    let mut named = ByteStrings::empty(alloc);
    for name in found.get_strs("makefiles").unwrap_or(&[]) {
        named.push(name.as_bytes())?;
    }
    let mut folders = ByteStrings::empty(alloc);
    for folder in found.get_strs(INCLUDE).unwrap_or(&[]) {
        if !folder.is_empty() {
            folders.push(folder.as_bytes())?;
        }
    }
    Ok(Makefiles {
        named,
        folders,
        without_rules: found.contains_id("no_rules") || found.contains_id(NO_MACROS),
        old: files_of(alloc, found, OLD)?,
    })
}

/// The files that an option of this name names, without `./` in front.
fn files_of(
    alloc: Global,
    found: &ArgMatches<'_>,
    option: &str,
) -> Result<ByteStrings, AllocError> {
    let mut files = ByteStrings::empty(alloc);
    for name in found.get_strs(option).unwrap_or(&[]) {
        files.push(name_in(Profile::Posix, name.as_bytes()))?;
    }
    Ok(files)
}

/// The language of the makefile.
fn profile_of(found: &ArgMatches<'_>) -> Profile {
    if found.contains_id("posix") {
        Profile::Posix
    } else {
        Profile::Strict
    }
}

/// How much -d tells, by how often it stands. With -B there is one reason for all.
fn telling_of(found: &ArgMatches<'_>) -> Telling {
    match found.get_strs("tells") {
        None => Telling::Nothing,
        Some(_) if makes_all(found) => Telling::AllMade,
        Some([_]) => Telling::Reasons,
        Some(_) => Telling::All,
    }
}

/// Whether all targets are to be made.
fn makes_all(found: &ArgMatches<'_>) -> bool {
    found.contains_id("makes_all")
}

/// How many recipes may run at once by the words: the last -j counts.
fn named_workers(found: &ArgMatches<'_>) -> Option<u16> {
    found.get_strs("workers")?.last()?.parse::<u16>().ok()
}

/// The options that were found, with so many workers, without the words.
fn options_of(alloc: Global, found: &ArgMatches<'_>, workers: u16) -> Result<Options, AllocError> {
    let makefiles = makefiles_of(alloc, found)?;
    let touched = files_of(alloc, found, TOUCHED)?;
    let state = String::from_str(alloc, found.get_str("state").unwrap_or(""))?;
    Ok(Options {
        makefiles,
        profile: profile_of(found),
        state,
        workers,
        goes_on: found.contains_id("goes_on"),
        is_dry: found.contains_id("dry"),
        is_silent: found.contains_id("silent"),
        ignores_statuses: found.contains_id("ignore"),
        asks: found.contains_id("asks"),
        makes_all: makes_all(found),
        telling: telling_of(found),
        prints_base: found.contains_id("base"),
        definitions: Vec::new(alloc),
        targets: ByteStrings::empty(alloc),
        touched,
    })
}

/// Adds the words that were found.
fn add_words(
    alloc: Global,
    found: &ArgMatches<'_>,
    options: &mut Options,
) -> Result<(), AllocError> {
    for word in found.get_strs("words").unwrap_or(&[]) {
        add_word(alloc, options, *word)?;
    }
    Ok(())
}

/// The folders that were found.
fn folders_of(alloc: Global, found: &ArgMatches<'_>) -> Result<Vec<String>, AllocError> {
    let mut folders = Vec::new(alloc);
    for folder in found.get_strs("folders").unwrap_or(&[]) {
        add(&mut folders, String::from_str(alloc, *folder)?)?;
    }
    Ok(folders)
}

/// Where the log goes, if one is asked for.
fn log_of(alloc: Global, found: &ArgMatches<'_>) -> Result<Option<String>, AllocError> {
    match found.get_str("log") {
        Some(file) => Ok(Some(String::from_str(alloc, file)?)),
        None => Ok(None),
    }
}

/// Whether the folder is told: -w asks for it, and so does -C, but for -s and where it is told not to. A question prints nothing.
fn tells_folder(found: &ArgMatches<'_>) -> bool {
    if found.contains_id("asks") || found.contains_id("untold") {
        return false;
    }
    found.contains_id("told") || found.contains_id("folders") && !found.contains_id("silent")
}

fn asked_of(alloc: Global, found: &ArgMatches<'_>, above: Above) -> Result<Asked, AllocError> {
    let named = named_workers(found);
    let folders = folders_of(alloc, found)?;
    let log = log_of(alloc, found)?;
    let mut options = options_of(alloc, found, named.unwrap_or(above.workers))?;
    if let Err(error) = add_words(alloc, found, &mut options) {
        drop(options);
        drop(log);
        drop(folders);
        return Err(error);
    }
    Ok(Asked {
        folders,
        tells_folder: tells_folder(found),
        program: None,
        later: later_of(found, named.is_some() || above.is_said),
        log,
        options,
    })
}

/// What was found beside the options.
fn later_of(found: &ArgMatches<'_>, has_jobs: bool) -> Later {
    Later {
        environment_counts: found.contains_id("environment"),
        without_macros: found.contains_id(NO_MACROS),
        names_state: found.contains_id("state"),
        trusts_files: found.contains_id("trusts_files"),
        has_jobs,
        output: output_of(found),
        most_load: load_of(found),
        prints_ends: found.contains_id("progress"),
        hides_folder: found.contains_id("untold"),
        tells_undefined: found.contains_id(UNDEFINED),
        tells_folder: found.contains_id("told") && !found.contains_id("untold"),
        level: 0,
    }
}
