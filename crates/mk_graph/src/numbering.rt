//! The numbering of all names that goals lead to.

ghost use Rattle.std.specs.Prelude.{◌≡◌, ℕ, ◌<◌, ◌≤◌, ◌⊎◌, Bool, true, false, List, [], ◌∷◌, ◌++◌, length, map, nat_lt, is_ok, IfOk, IfErr, OnOk, IsTrue};
ghost use Rattle.std.specs.List.{list_all, IsDistinct};
ghost use Rattle.std.specs.Str.{bytes_eq};
ghost use Rattle.mk_graph.specs.Edges.{is_closed};
ghost use Rattle.mk_names.specs.Names.{name_at, has_name, all_added};
ghost use Rattle.mk_graph.specs.Numbering.{IsNumbering, AreDescribed, DistinctNames};
ghost use Rattle.mk_graph.specs.NumberingFault.{IsNumberingFault, IsLimitFault};

use crate::edges::Edges;
use byte_strings::ByteStrings;
use mk_names::{Names, with_room};
use std::alloc::{AllocError, AllocFailed, Global};

// Room is taken for names of so many bytes.
const USUAL_BYTES: usize = 16;

/// How much may be expected of a graph before its names are looked up. It decides nothing but how much room is taken at first.
#[derive(Clone, Copy)]
pub struct Expected {
    pub names: usize,
    /// The prerequisites of all names together.
    pub prerequisites: usize,
}

/// What gives the prerequisites of a name. It is asked for a name once at most.
pub trait Dependencies {
    /// Why prerequisites can't be given.
    type Fault;

    /// What is found of a name beside its prerequisites.
    type Node: Drop;

    /// What the source notes of names by their numbers, so that it needn't look them up again, with the prerequisites of the
    /// name that was asked for last.
    type Notes: Drop;

    /// Which functions from a name to its prerequisites agree with all that was answered so far.
    ghost allows: { Self → (List ℕ → List (List ℕ)) → Type 0 };

    /// That a name was asked for.
    ghost asked: { Self → List ℕ → Type 0 };

    /// That the node is that of the name.
    ghost describes: { Self → List ℕ → Self.Node → Type 0 };

    /// That the prerequisites of a name can't be given, for this cause.
    ghost refuses: { Self → List ℕ → Self.Fault → Type 0 };

    /// What a call leaves true of the source, from before it to behind it: where it gives an answer, and where it doesn't.
    ghost follows: { Self → (answers : Bool) → Self → Type 0 };

    /// That what is noted holds of the names with these numbers.
    ghost fits: { Self → (names : List (List ℕ)) → Self.Notes → Type 0 };

    /// The numbers of the prerequisites of the name that was asked for last, in order; one may stand there more than once.
    ghost row: { Self.Notes → List ℕ };

    /// How much may be expected, of which nothing is promised.
    fn expected(&self) -> Expected;

    /// No notes, with room for those of so many names, where there is memory for it. They fit any names.
    fn notes(&self, alloc: Global, expected: usize) -> Self::Notes
        ensures { (names : List (List ℕ)) → fits self.now names result };

    /// The row of the name that was asked for last, as it stands in the notes.
    fn row_in<'n>(&self, notes: &'n Self::Notes) -> &'n [u32]
        ensures { result.now ≡ row notes.now };

    /// The node of the name with this number; its prerequisites come into the notes. The names that have no number are given the
    /// next ones, in turn. An answer narrows what is still possible and never widens it.
    fn prerequisites(
        &mut self,
        alloc: Global,
        names: &mut Names,
        notes: &mut Self::Notes,
        number: usize,
    ) -> Result<Self::Node, Self::Fault>
        requires number { number < length names.old }
        requires distinct { IsDistinct bytes_eq names.old }
        requires noted { fits self.old names.old notes.old }
        requires unasked { ¬ (asked self.old (name_at names.old number)) }
        ensures names { OnOk result (names.new ≡ all_added names.old (map (name_at names.new) (row notes.new))) }
        ensures numbers { OnOk result (list_all (λ n. nat_lt n (length names.new)) (row notes.new) ≡ true) }
        ensures list { OnOk result ((of : List ℕ → List (List ℕ)) → allows self.new of
            → map (name_at names.new) (row notes.new) ≡ of (name_at names.old number)) }
        ensures noted { OnOk result (fits self.new names.new notes.new) }
        ensures grows { (of : List ℕ → List (List ℕ)) → allows self.new of → allows self.old of }
        ensures node { IfOk result (λ node. describes self.new (name_at names.old number) node) }
        ensures kept { (other : List ℕ) (node : Self.Node) → describes self.old other node → describes self.new other node }
        ensures asks { (other : List ℕ) → asked self.new other → (asked self.old other) ⊎ (other ≡ name_at names.old number) }
        ensures follows { follows self.old (is_ok result) self.new }
        ensures refused { IfErr result (refuses self.new (name_at names.old number)) };

    // Something is always possible.
    ghost possible: { (source : Self) → (of : List ℕ → List (List ℕ)) × allows source of };

    // No call, and one after the other: only the last may give no answer.
    ghost stays: { (source : Self) → follows source true source };

    ghost through: { (a b c : Self) (answers : Bool) → follows a true b → follows b answers c → follows a answers c };

    ghost ended: { (a b : Self) → follows a true b → follows a false b };
}

/// Why names aren't numbered.
#[derive(Drop)]
pub enum NumberingFault<F> {
    OutOfMemory,
    /// There are more names than the limit.
    TooMany,
    /// The prerequisites of a name that the goals lead to can't be given.
    Source(F),
}

impl<F> From<AllocError> for NumberingFault<F> {
    ghost use Rattle.std.specs.Prelude.{◌≡◌};
    ghost use Rattle.mk_graph.specs.declared.numbering.NumberingFault.TheVariants.{OutOfMemory};

    ghost from_gives = { λ _ fault. fault ≡ OutOfMemory };

    fn from(_error: AllocError) -> NumberingFault<F> {
        NumberingFault::OutOfMemory
    }
}

impl<F, T: Drop> From<AllocFailed<T>> for NumberingFault<F> {
    ghost use Rattle.std.specs.Prelude.{◌≡◌};
    ghost use Rattle.mk_graph.specs.declared.numbering.NumberingFault.TheVariants.{OutOfMemory};

    ghost from_gives = { λ _ fault. fault ≡ OutOfMemory };

    fn from(_error: AllocFailed<T>) -> NumberingFault<F> {
        NumberingFault::OutOfMemory
    }
}

/// Names by number, with what was found of each.
#[derive(Drop)]
pub struct Numbered<N> {
    pub names: Names,
    /// The numbers of the goals, in turn.
    pub goals: Vec<usize>,
    /// The numbers of each name's prerequisites, in turn.
    pub rows: Edges,
    /// The node of each name.
    pub nodes: Vec<N>,
}

impl<N: Drop> Numbered<N> {
    /// The goals by first mention, of which nothing was looked up.
    fn of_goals<F>(
        alloc: Global,
        goals: &ByteStrings,
        limit: usize,
        expected: Expected,
    ) -> Result<Numbered<N>, NumberingFault<F>>
        ensures names { IfOk result (λ n. n.names ≡ all_added [] goals.now) }
        ensures goals { IfOk result (λ n. map (name_at n.names) n.goals.items ≡ goals.now) }
        ensures goal_numbers { IfOk result (λ n. list_all (λ m. nat_lt m (length n.names)) n.goals.items ≡ true) }
        ensures rows { IfOk result (λ n. n.rows ≡ []) }
        ensures nodes { IfOk result (λ n. n.nodes.items ≡ []) }
        ensures within { IfOk result (λ n. length n.names ≤ limit) }
        ensures fault { IfErr result (IsLimitFault limit (all_added [] goals.now)) }
    {
        let nodes = with_room(alloc, expected.names);
        let bytes = expected.names.saturating_mul(USUAL_BYTES);
        let mut names = Names::with_room(alloc, expected.names, bytes);
        let Some(goals) = names.add_all(alloc, goals, limit)? else {
            return Err(NumberingFault::TooMany);
        };
        Ok(Numbered {
            names,
            goals,
            rows: Edges::with_room(alloc, expected.names, expected.prerequisites),
            nodes,
        })
    }

    /// The same, whose rows are parted without a copy.
    pub fn shared(self, alloc: Global) -> Numbered<N>
        ensures { result ≡ self }
    {
        let Numbered {
            names,
            goals,
            rows,
            nodes,
        } = self;
        Numbered {
            names,
            goals,
            rows: rows.shared(alloc),
            nodes,
        }
    }

    /// Takes in the row and the node of the first name that has no row yet, once its prerequisites have numbers.
    fn take_in<F>(&mut self, row: &[u32], node: N, limit: usize) -> Result<(), NumberingFault<F>>
        ensures names { OnOk result (self.new.names ≡ self.old.names) }
        ensures rows { OnOk result (self.new.rows ≡ self.old.rows ++ row.now ∷ []) }
        ensures node { OnOk result (self.new.nodes.items ≡ self.old.nodes.items ++ node ∷ []) }
        ensures goals { OnOk result (self.new.goals ≡ self.old.goals) }
        ensures within { OnOk result (length self.new.names ≤ limit) }
        ensures fault { IfErr result (IsLimitFault limit self.old.names) }
    {
        if self.names.len() > limit {
            return Err(NumberingFault::TooMany);
        }
        self.rows.push_row(row)?;
        self.nodes.push(node)?;
        Ok(())
    }
}

/// What may be expected where there are no more names than the limit.
fn within(expected: Expected, limit: usize) -> Expected {
    Expected {
        names: expected.names.min(limit),
        ..expected
    }
}

/// Numbers the goals and all names that they lead to: the goals by first mention, then, name by name in the order of
/// their numbers, the prerequisites that are new.
///
/// `TooMany` where there are more names than the limit. The source is asked for each name that is numbered, and for no
/// other.
pub fn number<R: Dependencies>(
    alloc: Global,
    source: &mut R,
    goals: &ByteStrings,
    limit: usize,
) -> Result<Numbered<R::Node>, NumberingFault<R::Fault>>
    requires { (name : List ℕ) → ¬ (R.asked source.old name) }
    ensures names { IfOk result (λ n. (of : List ℕ → List (List ℕ)) → R.allows source.new of
        → IsNumbering of goals.now n.names) }
    ensures rows { IfOk result (λ n. (of : List ℕ → List (List ℕ)) → R.allows source.new of
        → map (map (name_at n.names)) n.rows ≡ map of n.names) }
    ensures goals { IfOk result (λ n. map (name_at n.names) n.goals.items ≡ goals.now) }
    ensures described { IfOk result (λ n. AreDescribed (R.describes source.new) n.names n.nodes.items) }
    ensures asked { IfOk result (λ n. (name : List ℕ) → R.asked source.new name → has_name n.names name ≡ true) }

    // There is a row and a node for each name, and each number is that of a name.
    ensures row_count { IfOk result (λ n. length n.rows ≡ length n.names) }
    ensures node_count { IfOk result (λ n. length n.nodes.items ≡ length n.names) }
    ensures closed { IfOk result (λ n. IsTrue (is_closed n.rows)) }
    ensures goal_numbers { IfOk result (λ n. list_all (λ m. nat_lt m (length n.names)) n.goals.items ≡ true) }
    ensures within { IfOk result (λ n. length n.names ≤ limit) }

    ensures fault { IfErr result (IsNumberingFault (R.allows source.new) (R.refuses source.new) goals.now limit) }
    ensures grows { (of : List ℕ → List (List ℕ)) → R.allows source.new of → R.allows source.old of }
    ensures follows { R.follows source.old (is_ok result) source.new }
{
    let expected = within(source.expected(), limit);
    let mut numbered = Numbered::of_goals(alloc, goals, limit, expected)?;
    let mut notes = source.notes(alloc, expected.names);
    while numbered.rows.len() < numbered.names.len() {
        let number = numbered.rows.len();
        match source.prerequisites(alloc, &mut numbered.names, &mut notes, number) {
            Ok(node) => numbered.take_in(source.row_in(&notes), node, limit)?,
            Err(cause) => return Err(NumberingFault::Source(cause)),
        }
    }
    Ok(numbered)
}

/// No name has two numbers.
pub fn distinct_names()
    ensures { DistinctNames }
{}
