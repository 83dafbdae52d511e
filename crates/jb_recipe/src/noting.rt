//! What a target writes into the state, checked before anything of it is.
ghost use Rattle.std.specs.Prelude.{◌≡◌, ◌≤◌, ◌<◌, ◌↔◌, ◌||◌, [], ◌∷◌, ◌++◌, length, codes, IfOk, IfSome, IsTrue};
ghost use Rattle.std.proofs.Props.{props};
ghost use Rattle.mk_names.specs.Names.{name_at};
ghost use Rattle.mk_recipe.specs.Line.{Records};
ghost use Rattle.mk_settings.specs.Marks.{has_mark};
ghost use Rattle.mk_seen.specs.Marks.{source_name};
ghost use Rattle.mk_seen.specs.Nodes.{explicit_of, made_beside};
ghost use Rattle.mk_plan.specs.Parts.{language_of};
ghost use Rattle.mk_plan.specs.Passage.{to_make};
ghost use Rattle.mk_plan.specs.Telling.{lines_about};
ghost use Rattle.st_records.specs.Limits.{IsGoodIn, IsWithinIn, SaysExplicitIn};
ghost use Rattle.st_records.specs.Parts.{status_of};
ghost use Rattle.st_records.specs.declared.record.Record.TheVariants as records;
ghost use Rattle.jb_recipe.specs.Environment.{environment, report_path, last_value, NamesReport};
ghost use Rattle.jb_recipe.specs.Files.{recorded_of};
ghost use Rattle.jb_recipe.specs.Noting.{known_of, removes};
ghost use Rattle.jb_recipe.specs.Places.{places_said};
ghost use Rattle.jb_recipe.specs.Silence.{as_run};

use crate::files::Files;
use crate::places::places_said;
use crate::said::said_in;
use crate::silence::as_run;
use crate::{Conduct, environment};
use bd_lists::{Recipe, Variable};
use byte_strings::{ByteString, ByteStrings};
use mk_nodes::Graph;
use mk_plan::{Why, why_lines};
use mk_profile::Profile;
use mk_recipe::{Line, recorded};
use mk_seen::name_of;
use st_records::{Form, Record};
use std::alloc::{AllocError, Global};

/// Whether a record may stand in a state whose records have this form.
pub fn is_writable(form: Form, note: &Record) -> bool
    requires status { status_of note.now ≤ 256 }
    requires explicit { SaysExplicitIn form note.now }
    ensures { IsTrue result ↔ IsGoodIn form note.now }
{
    note.check_in(form).is_ok()
}

/// A record where it may stand in a state whose records have this form.
pub(crate) fn writable(form: Form, note: Record) -> Option<Record>
    requires status { status_of note ≤ 256 }
    requires explicit { SaysExplicitIn form note }
    ensures good { IfSome result (λ r. IsGoodIn form r) }
    ensures same { IfSome result (λ r. r ≡ note) }
{
    if is_writable(form, &note) {
        Some(note)
    } else {
        None
    }
}

/// What is needed to make a target: why it is made, its recipe, the record that goes first, what a 'done' will say beside the hidden
/// names, and where its report goes.
#[derive(Drop)]
pub struct Plan {
    /// The lines that say why it is made, as many as are wanted.
    pub told: ByteStrings,
    /// That of the records.
    pub form: Form,
    pub begun: Record,
    pub recipe: Recipe,
    pub commands: ByteStrings,
    pub files: Files,
    /// The names of its source and its explicit prerequisites: a report that names them says nothing new.
    pub known: ByteStrings,
    pub report: Option<ByteString>,
    /// Where the recipe writes what it read, as the makefile says.
    pub places: Option<ByteStrings>,
    /// How the names of the report are read.
    pub profile: Profile,
    /// The target's file is removed where the recipe fails and has changed it.
    pub removes: bool,
    ghost within: { IsWithinIn form begun },
    ghost own: { begun ≡ records.Begun recipe.target },
    ghost named: { IfSome report (λ path. last_value (codes "SUNPRO_DEPENDENCIES") [] recipe.env.items ≡ path ++ 32 ∷ recipe.target) } by { Prim.hlevel props },
}

// The names of a node's source and of its explicit prerequisites.
fn known_of(alloc: Global, graph: &Graph, node: usize) -> Result<ByteStrings, AllocError>
    requires { node < length graph.now.nodes.items }
    ensures { IfOk result (λ names. names ≡ known_of graph.now node) }
{
    let mut names = ByteStrings::empty(alloc);
    for prerequisite in graph.hard.row(node) {
        names.push(name_of(graph, *prerequisite as usize))?;
    }
    Ok(names)
}

// Whether a 'done' without hidden names and marks may stand in the state.
fn can_be_done(
    alloc: Global,
    form: Form,
    target: &ByteString,
    commands: &ByteStrings,
    explicit: &ByteStrings,
) -> Result<bool, AllocError> {
    let note = Record::Done {
        target: target.copy(alloc)?,
        commands: commands.copy(alloc)?,
        hidden: ByteStrings::empty(alloc),
        explicit: said_in(
            form,
            explicit.copy(alloc)?,
            ByteString::new(Vec::new(alloc)),
        ),
    };
    Ok(is_writable(form, &note))
}

/// What the records of a node say of it.
#[derive(Drop)]
struct Noted {
    target: ByteString,
    commands: ByteStrings,
    files: Files,
    known: ByteStrings,
    places: Option<ByteStrings>,
}

impl Noted {
    fn of(alloc: Global, graph: &Graph, number: usize, lines: &[Line]) -> Result<Noted, AllocError>
        requires { number < length graph.now.nodes.items }
        ensures target { IfOk result (λ noted. noted.target ≡ name_at graph.now.names number) }
        ensures commands { IfOk result (λ noted. Records lines.now noted.commands) }
        ensures others { IfOk result (λ noted. noted.files.others ≡ made_beside graph.now number) }
        ensures source { IfOk result (λ noted. noted.files.source ≡ source_name graph.now number) }
        ensures explicit { IfOk result (λ noted. noted.files.explicit ≡ explicit_of graph.now number) }
        ensures recorded { IfOk result (λ noted. noted.files.recorded.items ≡ recorded_of graph.now number) }
        ensures known { IfOk result (λ noted. noted.known ≡ known_of graph.now number) }
        ensures places { IfOk result (λ noted. noted.places ≡ places_said graph.now.settings.depfiles (name_at graph.now.names number)) }
    {
        Ok(Noted {
            target: ByteString::from_slice(alloc, graph.names.name(number))?,
            commands: recorded(alloc, lines)?,
            files: Files::of(alloc, graph, number)?,
            known: known_of(alloc, graph, number)?,
            places: places_said(alloc, &graph.settings.depfiles, graph.names.name(number))?,
        })
    }

    // The 'begun'; None where it, or a 'done' without hidden names, may not stand in the state.
    fn begun(&self, alloc: Global, form: Form) -> Result<Option<Record>, AllocError>
        ensures within { IfOk result (λ begun. IfSome begun (λ note. IsWithinIn form note)) }
        ensures own { IfOk result (λ begun. IfSome begun (λ note. note ≡ records.Begun self.now.target)) }
    {
        if !can_be_done(
            alloc,
            form,
            &self.target,
            &self.commands,
            &self.files.explicit,
        )? {
            return Ok(None);
        }
        let target = self.target.copy(alloc)?;
        Ok(writable(form, Record::Begun { target }))
    }
}

// Where a node's report goes, and the environment of its recipe.
fn surroundings(
    alloc: Global,
    conduct: &Conduct,
    number: usize,
    target: &[u8],
) -> Result<(Option<ByteString>, Vec<Variable>), AllocError>
    ensures report { IfOk result (λ s. s.0 ≡ report_path conduct.now.keeps_state conduct.now.state_name number) }
    ensures env { IfOk result (λ s. s.1.items
        ≡ environment conduct.now.definitions.items conduct.now.makeflags s.0 target.now) }
    ensures named { IfOk result (λ s. IfSome s.0 (NamesReport target.now s.1.items)) }
{
    let report = conduct.report_path(alloc, number)?;
    let definitions = conduct.definitions.as_slice();
    let env = environment(
        alloc,
        definitions,
        &conduct.makeflags,
        report.as_ref(),
        target,
    )?;
    Ok((report, env))
}

impl Plan {
    /// The plan of a node that is made for this reason; None where its 'begun', or a 'done' without hidden names, may not stand in the state.
    pub fn of(
        alloc: Global,
        graph: &Graph,
        conduct: &Conduct,
        number: usize,
        why: &Why,
        lines: Vec<Line>,
    ) -> Result<Option<Plan>, AllocError>
        requires { number < length graph.now.nodes.items }
        ensures form { IfOk result (λ plan. IfSome plan (λ p. p.form ≡ conduct.now.form)) }
        ensures told { IfOk result (λ plan. IfSome plan (λ p. p.told ≡ lines_about conduct.now.telling
            (to_make (name_at graph.now.names number) why.now lines.items))) }
        ensures target { IfOk result (λ plan. IfSome plan (λ p. p.recipe.target ≡ name_at graph.now.names number)) }
        ensures lines { IfOk result (λ plan. IfSome plan (λ p. p.recipe.lines.items
            ≡ as_run (conduct.now.prints_no_lines || has_mark graph.now.settings.silent (name_at graph.now.names number)) lines.items)) }
        ensures commands { IfOk result (λ plan. IfSome plan (λ p. Records lines.items p.commands)) }
        ensures others { IfOk result (λ plan. IfSome plan (λ p. p.files.others ≡ made_beside graph.now number)) }
        ensures source { IfOk result (λ plan. IfSome plan (λ p. p.files.source ≡ source_name graph.now number)) }
        ensures explicit { IfOk result (λ plan. IfSome plan (λ p. p.files.explicit ≡ explicit_of graph.now number)) }
        ensures recorded { IfOk result (λ plan. IfSome plan (λ p. p.files.recorded.items ≡ recorded_of graph.now number)) }
        ensures known { IfOk result (λ plan. IfSome plan (λ p. p.known ≡ known_of graph.now number)) }
        ensures report { IfOk result (λ plan. IfSome plan (λ p. p.report
            ≡ report_path conduct.now.keeps_state conduct.now.state_name number)) }
        ensures places { IfOk result (λ plan. IfSome plan (λ p. p.places
            ≡ places_said graph.now.settings.depfiles (name_at graph.now.names number))) }
        ensures profile { IfOk result (λ plan. IfSome plan (λ p. p.profile ≡ language_of graph.now)) }
        ensures env { IfOk result (λ plan. IfSome plan (λ p. p.recipe.env.items ≡ environment conduct.now.definitions.items
            conduct.now.makeflags p.report (name_at graph.now.names number))) }
        ensures ignore { IfOk result (λ plan. IfSome plan (λ p. p.recipe.ignore
            ≡ conduct.now.ignores_statuses || has_mark graph.now.settings.ignored (name_at graph.now.names number))) }
        ensures removes { IfOk result (λ plan. IfSome plan (λ p. p.removes ≡ removes graph.now number)) }
    {
        let told = why_lines(alloc, conduct.telling, graph, number, why)?;
        let noted = Noted::of(alloc, graph, number, &lines)?;
        let form = conduct.form;
        let Some(begun) = noted.begun(alloc, form)? else {
            return Ok(None);
        };
        let target = noted.target.as_slice();
        let (report, env) = surroundings(alloc, conduct, number, target)?;
        let is_silent = conduct.prints_no_lines || graph.settings.silent.has(target);
        let ignore = conduct.ignores_statuses || graph.settings.ignored.has(target);
        let removes = graph.removes(target);
        let recipe = Recipe {
            target: noted.target,
            lines: as_run(lines, is_silent),
            env,
            ignore,
        };
        Ok(Some(Plan {
            told,
            form,
            begun,
            recipe,
            commands: noted.commands,
            files: noted.files,
            known: noted.known,
            report,
            places: noted.places,
            profile: graph.macros.profile(),
            removes,
        }))
    }
}
