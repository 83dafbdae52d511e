//! A run that makes what is asked for.
ghost use Rattle.std.specs.Prelude.{codes};
ghost use Rattle.dmk_reading.specs.Keeping.{value_in};
ghost use Rattle.dmk_reading.specs.Asked.{AsksToRun};

use crate::duty::duty_of;
use crate::levels::take_levels;
use crate::logging::HostLog;
use crate::outfit::{HostPrinter, Lent, Outfit, base_told, outfit_of};
use crate::state_lock::StateLock;
use bd_flusher::Receipt;
use bd_lists::{Exec, Variable};
use dmk_asking::HostLevels;
use dmk_files::{FileTexts, FileTree};
use dmk_host::{
    HostFiles, HostTrees, Patient, TrustedPlace, needs_usual_makefile, print_cure,
    print_gnu_makefile, print_notes, print_reasons,
};
use dmk_printing::{Lending, Printer, followed};
use dmk_reading::Options;
use dmk_run::{Means, build_targets};
use dmk_store::{Looks, Machine};
use dmk_trust::trust_files;
use dmk_words::Later;
use jb_flags::{Handed, Handing};
use jb_host::{BeforeLines, Hears, HostPlace, Sharing, Shell, Stops};
use jb_janitor::Janitor;
use jb_recipe::Place;
use jb_slots::{FifoBank, FifoBanks};
use jb_turns::Turns;
use st_disk::{Disk, FileDisk, SystemFolder, Which};
use st_records::HashKey;
use std::alloc::{AllocError, Global};
use std::io::{BufWriter, Stderr, Stdout};
use std::sync::Wait;
use std::thread::Threads;

/// This machine, by the types of its parts. No value is made of it.
struct HostMachine<'r, 'f, 'l, R: Wait> {
    place: HostPlace<'r, R>,
    files: HostFiles<'f>,
    lock: StateLock<'l>,
}

impl<'r, 'f, 'l, R: Threads + Wait + Sync> Machine for HostMachine<'r, 'f, 'l, R> {
    type Runtime = R;

    type Out = BufWriter<Patient<Stdout>>;

    type Err = BufWriter<Patient<Stderr>>;

    type Place = HostPlace<'r, R>;

    type Tree = FileTree<HostFiles<'f>>;

    type Looks = HostLooks<'f>;

    type Includes = FileTexts<HostFiles<'f>>;

    type Guard = StateLock<'l>;

    type End = FifoBank;

    type Banks = FifoBanks;
}

/// The files of this machine, looked at anew.
#[derive(Drop)]
struct HostLooks<'a> {
    trees: &'a HostTrees,
}

impl<'a> Looks<FileTree<HostFiles<'a>>> for HostLooks<'a> {
    fn anew(&self) -> FileTree<HostFiles<'a>> {
        self.trees.tree()
    }
}

/// Makes the targets, and answers the status. The printer's streams are lent to lines that write on them, so that nothing is
/// printed beside what they write.
fn make_lending<'m, M: Machine, E: Exec<Receipt> + Sync, D: Disk + Drop + Send>(
    rt: &M::Runtime,
    alloc: Global,
    means: &Means<'m, E, Printer<'_, M::Runtime, M::Out, M::Err>, M::Place>,
    sharing: Sharing<'m>,
    guard: &mut M::Guard,
    options: Options,
    looks: &M::Looks,
    makefiles: &mut M::Includes,
    banks: &mut M::Banks,
    disk: D,
) -> (u8, D)
    requires { AsksToRun options (value_in means.now.environment.now (codes "MAKEFLAGS")) }
{
    let lending = Lending {
        printer: means.say,
        sharing,
        exec: means.exec,
    };
    let means = Means {
        key: means.key,
        environment: means.environment,
        pool: means.pool,
        reports: means.reports,
        exec: &lending,
        say: means.say,
        place: means.place,
        shell: means.shell,
    };
    build_targets::<M, Lending<'_, M::Runtime, M::Out, M::Err, E>, D>(
        rt, alloc, &means, guard, options, looks, makefiles, banks, disk,
    )
}

/// Makes the targets, and answers the status. Lines are told what is handed on, where something is.
fn make_handing<'m, M: Machine, E: Exec<Receipt> + Sync, D: Disk + Drop + Send>(
    rt: &M::Runtime,
    alloc: Global,
    means: &Means<'m, E, Printer<'_, M::Runtime, M::Out, M::Err>, M::Place>,
    handed: Option<&'m Handed>,
    sharing: Sharing<'m>,
    guard: &mut M::Guard,
    options: Options,
    looks: &M::Looks,
    makefiles: &mut M::Includes,
    banks: &mut M::Banks,
    disk: D,
) -> (u8, D)
    requires { AsksToRun options (value_in means.now.environment.now (codes "MAKEFLAGS")) }
{
    let handing = Handing {
        alloc,
        handed,
        shell: means.shell,
        exec: means.exec,
    };
    let means = Means {
        key: means.key,
        environment: means.environment,
        pool: means.pool,
        reports: means.reports,
        exec: &handing,
        say: means.say,
        place: means.place,
        shell: means.shell,
    };
    make_lending::<M, Handing<'_, E>, D>(
        rt, alloc, &means, sharing, guard, options, looks, makefiles, banks, disk,
    )
}

/// Takes targets as they are where their files are trusted, makes the targets, and answers the status. The state's disk comes back.
///
/// The parts of this machine are of any types here: made concrete once, at the call.
fn make_over<'m, M: Machine, E: Exec<Receipt> + Sync, Q: Place, D: Disk + Drop + Send>(
    rt: &M::Runtime,
    alloc: Global,
    means: &Means<'m, E, Printer<'_, M::Runtime, M::Out, M::Err>, M::Place>,
    handed: Option<&'m Handed>,
    sharing: Sharing<'m>,
    guard: &mut M::Guard,
    options: Options,
    trusted: Option<&Q>,
    levels: &HostLevels,
    looks: &M::Looks,
    makefiles: &mut M::Includes,
    banks: &mut M::Banks,
    disk: D,
) -> (u8, D)
    requires { AsksToRun options (value_in means.now.environment.now (codes "MAKEFLAGS")) }
{
    let mut disk = disk;
    if let Some(place) = trusted {
        let mut tree = looks.anew();
        let (found, same) = trust_files::<M, Q, D>(
            alloc,
            means.key,
            means.environment,
            means.say,
            guard,
            &options,
            &mut tree,
            place,
            makefiles,
            disk,
        );
        if let Err(status) = found {
            drop(options);
            return (status, same);
        }
        disk = same;
    }
    if !levels.is_empty() {
        let mut tree = looks.anew();
        let (found, same) = take_levels::<M, D>(
            alloc,
            means.key,
            means.environment,
            means.say,
            guard,
            &options,
            levels,
            &mut tree,
            makefiles,
            disk,
        );
        if let Err(status) = found {
            drop(options);
            return (status, same);
        }
        disk = same;
    }
    followed(
        rt,
        means.say,
        ||
            requires { AsksToRun options (value_in means.now.environment.now (codes "MAKEFLAGS")) }
        {
            make_handing::<M, E, D>(
                rt, alloc, means, handed, sharing, guard, options, looks, makefiles, banks, disk,
            )
        },
    )
}

/// The same, by a shell whose lines somebody hears: the means have none yet.
fn make_by_shell<'m, M: Machine, H: Hears + Sync, X, Q: Place, D: Disk + Drop + Send>(
    rt: &M::Runtime,
    host: HostRuntime,
    before: &'m BeforeLines,
    stops: &'m Stops<'m, M::Runtime>,
    janitor: &'m Janitor<'m, M::Runtime>,
    hears: &'m H,
    means: &Means<'m, X, Printer<'_, M::Runtime, M::Out, M::Err>, M::Place>,
    handed: Option<&'m Handed>,
    sharing: Sharing<'m>,
    guard: &mut M::Guard,
    options: Options,
    trusted: Option<&Q>,
    levels: &HostLevels,
    looks: &M::Looks,
    makefiles: &mut M::Includes,
    banks: &mut M::Banks,
    disk: D,
) -> (u8, D)
    requires { AsksToRun options (value_in means.now.environment.now (codes "MAKEFLAGS")) }
{
    let alloc = host.alloc();
    let shell = Shell::new(host, alloc, before, stops, janitor, sharing, hears);
    let means = Means {
        key: means.key,
        environment: means.environment,
        pool: means.pool,
        reports: means.reports,
        exec: &shell,
        say: means.say,
        place: means.place,
        shell: means.shell,
    };
    make_over::<M, Shell<'_, M::Runtime, H>, Q, D>(
        rt, alloc, &means, handed, sharing, guard, options, trusted, levels, looks, makefiles,
        banks, disk,
    )
}

/// Makes the targets with what was found, lets that go, and answers the status. What the system said of files is told at the end.
/// What lines are run with stands in `before`; they note in `stops` why they have no status.
fn make_with<'a, 'f, R: Threads + Wait + Sync>(
    rt: &'a R,
    host: HostRuntime,
    options: Options,
    trees: &'f HostTrees,
    environment: &[Variable],
    makefiles: &mut FileTexts<HostFiles<'f>>,
    outfit: Outfit<'_, R>,
    before: &'a BeforeLines,
    stops: &'a Stops<'a, R>,
    turns: &'a Turns,
    janitor: &'a Janitor<'a, R>,
) -> u8
    requires { AsksToRun options (value_in environment.now (codes "MAKEFLAGS")) }
{
    let Outfit {
        folder,
        reports,
        pool,
        handed,
        lock,
        printer,
        writes,
        trusts_files,
        levels,
    } = outfit;
    let alloc = host.alloc();
    let is_usual = needs_usual_makefile(&options);
    let profile = options.profile;
    let mut guard = StateLock::new(host, lock, &before.held);
    let place = HostPlace::new(rt, host, stops, turns, janitor);
    let trusted = TrustedPlace {
        host,
        place: &place,
    };
    let means = Means {
        key: HashKey::from_system(&host),
        environment,
        pool: pool.as_bytes(),
        reports: reports.as_bytes(),
        exec: &(),
        say: &printer,
        place: &place,
        shell: &before.shell,
    };
    let looks = HostLooks { trees };
    let mut banks = FifoBanks::new(host, "mkfifo");
    let (status, disk) = make_by_shell::<
        HostMachine<'_, 'f, '_, R>,
        HostPrinter<'_, R>,
        (),
        TrustedPlace<'_, R>,
        FileDisk<SystemFolder>,
    >(
        rt,
        host,
        before,
        stops,
        janitor,
        &printer,
        &means,
        handed.as_ref(),
        Sharing { writes, turns },
        &mut guard,
        options,
        trusts_files.then_some(&trusted),
        &levels,
        &looks,
        makefiles,
        &mut banks,
        FileDisk::new(folder),
    );
    janitor.close();
    pool.release();
    let cure = printer.cure();
    let (_out, mut err) = printer.into_streams();
    print_cure(host, &mut err, profile, disk.folder.name(Which::A), cure);
    print_notes(alloc, &mut err, makefiles);
    print_reasons(&mut err, makefiles, &disk);
    print_gnu_makefile(host, &mut err, is_usual && status == 2);
    status
}

/// Makes the targets with this outfit, once it is known what the janitor has to know.
fn make_outfitted<'f, R: Threads + Wait + Sync>(
    rt: &R,
    host: HostRuntime,
    options: Options,
    trees: &'f HostTrees,
    environment: &[Variable],
    makefiles: &mut FileTexts<HostFiles<'f>>,
    outfit: Outfit<'_, R>,
    turns: &Turns,
) -> Result<u8, AllocError>
    requires { AsksToRun options (value_in environment.now (codes "MAKEFLAGS")) }
{
    let duty = match duty_of(host, &options, environment, outfit.printer.draws()) {
        Ok(duty) => duty,
        Err(error) => {
            drop(outfit);
            drop(options);
            return Err(error);
        }
    };
    let before = BeforeLines::new();
    let stops = Stops::new(rt, host);
    let janitor = Janitor::new(rt, host, duty);
    Ok(make_with(
        rt,
        host,
        options,
        trees,
        environment,
        makefiles,
        outfit,
        &before,
        &stops,
        turns,
        &janitor,
    ))
}

/// Makes the targets, behind what -p prints.
fn make_read<'f, R: Threads + Wait + Sync>(
    rt: &R,
    host: HostRuntime,
    options: Options,
    later: Later,
    lent: &'f Lent<'_>,
    environment: &[Variable],
    makefiles: &mut FileTexts<HostFiles<'f>>,
) -> Result<u8, AllocError>
    requires { AsksToRun options (value_in environment.now (codes "MAKEFLAGS")) }
{
    let base = match base_told(host, &options, later, environment, makefiles) {
        Ok(base) => base,
        Err(error) => {
            drop(options);
            return Err(error);
        }
    };
    let turns = Turns::new(host, host.alloc(), later.most_load);
    let outfit = match outfit_of(rt, host, &turns, &options, later, lent.log, environment) {
        Ok(outfit) => outfit,
        Err(error) => {
            drop(base);
            drop(options);
            return Err(error);
        }
    };
    outfit.printer.text(&base);
    drop(base);
    make_outfitted(
        rt,
        host,
        options,
        &lent.trees,
        environment,
        makefiles,
        outfit,
        &turns,
    )
}

/// Runs recipes, and answers the status.
pub(crate) fn make<R: Threads + Wait + Sync>(
    rt: &R,
    host: HostRuntime,
    options: Options,
    later: Later,
    log: Option<&HostLog>,
    environment: &[Variable],
    input: Option<&[u8]>,
) -> Result<u8, AllocError>
    requires { AsksToRun options (value_in environment.now (codes "MAKEFLAGS")) }
{
    let lent = match Lent::of(host, &options, later, log, environment) {
        Ok(lent) => lent,
        Err(error) => {
            drop(options);
            return Err(error);
        }
    };
    let mut makefiles = HostFiles::texts(host, options.profile, input, &lent.env, &lent.folders);
    let made = make_read(rt, host, options, later, &lent, environment, &mut makefiles);
    drop(makefiles);
    drop(lent);
    made
}
