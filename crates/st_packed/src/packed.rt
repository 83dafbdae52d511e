//! An entry whose strings stand in one piece of memory: what the state keeps of each target.

ghost use Rattle.std.specs.Prelude.{◌≡◌, ◌≤◌, ◌||◌, ◌++◌, ◌∷◌, [], IfOk, nat_lt, length, take, drop};
ghost use Rattle.byte_strings.specs.Texts.{AreTexts, size_of, behind_first};
ghost use Rattle.st_records.specs.declared.record.Explicit.TheVariants as explicits;
ghost use Rattle.st_records.specs.declared.record.Phase.TheVariants as phases;
ghost use Rattle.st_records.specs.Parts.{names_known, names_recorded, marks_known, explicit_from};
ghost use Rattle.st_packed.specs.Packed.{phase_in, counted_in, marks_in, commands_in, explicit_in, texts_size};

use byte_strings::{ByteString, ByteStrings, Iter};
use st_records::{
    Entry, Explicit, MAX_COMMANDS, MAX_EXPLICIT_NAMES, MAX_HIDDEN_NAMES, Named, Phase,
};
use std::alloc::{AllocError, Global};
use std::marker::Model;

/// So many bytes in front of a string have its length.
const LENGTH_BYTES: usize = 4;

/// Which of the lists in a piece of memory still count.
#[derive(Clone, Copy, Debug, PartialEq, Eq)]
enum Counted {
    All,
    /// All, and the text of the marks, which stands in front of the commands and counts as one of them.
    Marked,
    /// Not the explicit names, which aren't known.
    Unnamed,
    /// Neither commands nor explicit names: the recipe began again, or failed.
    HiddenAlone,
}

/// The phase of a target and which of its lists still count, in eight bytes.
#[derive(Clone, Copy, Debug, PartialEq, Eq)]
enum Standing {
    Begun(Counted),
    Done(Counted),
    Failed(Counted, u32),
}

impl Standing {
    fn new(phase: Phase, counted: Counted) -> Standing
        ensures phase { phase_in result ≡ phase }
        ensures counted { counted_in result ≡ counted }
    {
        match phase {
            Phase::Begun => Standing::Begun(counted),
            Phase::Done => Standing::Done(counted),
            Phase::Failed(status) => Standing::Failed(counted, status),
        }
    }

    fn phase(self) -> Phase
        ensures { result ≡ phase_in self }
    {
        match self {
            Standing::Begun(_) => Phase::Begun,
            Standing::Done(_) => Phase::Done,
            Standing::Failed(_, status) => Phase::Failed(status),
        }
    }

    fn counted(self) -> Counted
        ensures { result ≡ counted_in self }
    {
        match self {
            Standing::Begun(counted) => counted,
            Standing::Done(counted) => counted,
            Standing::Failed(counted, _) => counted,
        }
    }
}

/// What the state knows of a target. Contracts see it as the entry.
///
/// Commands, hidden names and explicit ones stand one behind the other in one allocation, each string behind its length. An
/// entry without strings has none. Where the commands end is told by their lengths: most entries have one. The text of marks
/// stands in front of them, so that it takes no field more.
/// It takes 48 bytes in the table; a list each took 112, and an allocation each. Ranges of the file's bytes would keep all of
/// a long log as long as the state, though most of it is superseded.
#[derive(Debug)]
pub struct PackedEntry {
    standing: Standing,
    commands: u32,
    hidden: u32,
    explicit: u32,
    hidden_bytes: u32,
    bytes: Vec<u8>,
}

impl Model for PackedEntry {
    ghost use Rattle.std.specs.Prelude.{take, drop};
    ghost use Rattle.byte_strings.specs.Texts.{texts};
    ghost use Rattle.st_records.specs.declared.record.Entry.{Entry};

    ghost Value = { Entry };

    ghost use Rattle.st_packed.specs.Packed.{phase_in, counted_in, commands_in, explicit_in, texts_size, AreLists};

    ghost view = { λ e. record {
      phase = phase_in e.standing;
      commands = commands_in (counted_in e.standing) (texts e.commands (take (texts_size e.commands e.bytes.items) e.bytes.items));
      hidden = texts e.hidden (take e.hidden_bytes (drop (texts_size e.commands e.bytes.items) e.bytes.items));
      explicit = explicit_in (counted_in e.standing) (texts e.commands (take (texts_size e.commands e.bytes.items) e.bytes.items)) (texts e.explicit (drop e.hidden_bytes (drop (texts_size e.commands e.bytes.items) e.bytes.items)));
    } };

    ghost invariant = { λ e. AreLists e.commands e.hidden e.explicit (texts_size e.commands e.bytes.items) e.hidden_bytes e.bytes.items };
}

impl Drop for PackedEntry {
    fn drop(self) {
        let PackedEntry {
            standing: _,
            commands: _,
            hidden: _,
            explicit: _,
            hidden_bytes: _,
            bytes: _,
        } = self;
    }
}

impl PackedEntry {
    /// An entry of a target of which nothing but this phase is known. It takes no memory.
    pub fn new(alloc: Global, phase: Phase) -> PackedEntry
        ensures { result ≡ record { phase = phase; commands = []; hidden = []; explicit = explicits.Unknown } }
    {
        PackedEntry {
            standing: Standing::new(phase, Counted::HiddenAlone),
            commands: 0,
            hidden: 0,
            explicit: 0,
            hidden_bytes: 0,
            bytes: Vec::new(alloc),
        }
    }

    /// An entry of these strings, which are copied as they lie.
    pub(crate) fn pack(
        alloc: Global,
        phase: Phase,
        commands: Iter<'_>,
        hidden: Iter<'_>,
        explicit: Named<'_>,
    ) -> Result<PackedEntry, AllocError>
        ensures { IfOk result (λ e. e ≡ record { phase = phase; commands = commands.entry; hidden = hidden.entry; explicit = explicit_from explicit.entry }) }
    {
        match explicit {
            Named::Unknown => {
                let none = Iter::empty();
                PackedEntry::of_lists(alloc, phase, Counted::Unnamed, commands, hidden, none)
            }
            Named::Known(names) => {
                PackedEntry::of_lists(alloc, phase, Counted::All, commands, hidden, names)
            }
            Named::Marked(names, marks) => {
                let front = in_front(alloc, marks, commands)?;
                PackedEntry::of_lists(alloc, phase, Counted::Marked, front.iter(), hidden, names)
            }
        }
    }

    fn of_lists(
        alloc: Global,
        phase: Phase,
        counted: Counted,
        commands: Iter<'_>,
        hidden: Iter<'_>,
        explicit: Iter<'_>,
    ) -> Result<PackedEntry, AllocError>
        ensures { IfOk result (λ e. e ≡ record { phase = phase; commands = commands_in counted commands.entry; hidden = hidden.entry; explicit = explicit_in counted commands.entry explicit.entry }) }
    {
        let (commands, command_texts) = commands.texts();
        let (hidden, hidden_texts) = hidden.texts();
        let (explicit, explicit_texts) = explicit.texts();
        let Ok(commands) = u32::try_from(commands) else {
            return Err(AllocError);
        };
        let Ok(hidden_bytes) = u32::try_from(hidden_texts.len()) else {
            return Err(AllocError);
        };
        let Ok(explicit) = u32::try_from(explicit) else {
            return Err(AllocError);
        };
        let bytes = joined(alloc, command_texts, hidden_texts, explicit_texts)?;
        // There are no more hidden names than bytes in which they lie.
        Ok(PackedEntry {
            standing: Standing::new(phase, counted),
            commands,
            hidden: hidden as u32,
            explicit,
            hidden_bytes,
            bytes,
        })
    }

    /// An entry of strings that stand in lists of their own.
    pub fn of(
        alloc: Global,
        phase: Phase,
        commands: &ByteStrings,
        hidden: &ByteStrings,
        explicit: &Explicit,
    ) -> Result<PackedEntry, AllocError>
        ensures { IfOk result (λ e. e ≡ record { phase = phase; commands = commands.now; hidden = hidden.now; explicit = explicit.now }) }
    {
        PackedEntry::pack(
            alloc,
            phase,
            commands.iter(),
            hidden.iter(),
            explicit.lend(),
        )
    }

    /// The entry with its strings in one piece of memory.
    pub fn of_entry(alloc: Global, entry: &Entry) -> Result<PackedEntry, AllocError>
        ensures { IfOk result (λ e. e ≡ entry.now) }
    {
        PackedEntry::of(
            alloc,
            entry.phase,
            &entry.commands,
            &entry.hidden,
            &entry.explicit,
        )
    }

    pub fn phase(&self) -> Phase
        ensures { result ≡ self.now.phase }
    {
        self.standing.phase()
    }

    /// The commands that were run, each as one text.
    pub fn commands(&self) -> Iter<'_>
        ensures { result ≡ self.now.commands }
    {
        match self.standing.counted() {
            Counted::HiddenAlone => Iter::empty(),
            Counted::Marked => {
                let (front, _behind) = parted(self.commands, self.bytes.as_slice());
                behind_marks(Iter::of_texts(self.commands as usize, front))
            }
            _ => {
                let (commands, _behind) = parted(self.commands, self.bytes.as_slice());
                Iter::of_texts(self.commands as usize, commands)
            }
        }
    }

    /// Files that the commands read beside the prerequisites which the makefile names.
    pub fn hidden(&self) -> Iter<'_>
        ensures { result ≡ self.now.hidden }
    {
        let (_commands, behind) = parted(self.commands, self.bytes.as_slice());
        let (hidden, _explicit) = behind.split_at(self.hidden_bytes as usize);
        Iter::of_texts(self.hidden as usize, hidden)
    }

    /// What is said of the prerequisites that the makefile named.
    pub fn lend(&self) -> Named<'_>
        ensures { explicit_from result ≡ self.now.explicit }
    {
        match self.standing.counted() {
            Counted::HiddenAlone => Named::Unknown,
            Counted::Unnamed => Named::Unknown,
            Counted::All => {
                let (_commands, behind) = parted(self.commands, self.bytes.as_slice());
                let (_hidden, explicit) = behind.split_at(self.hidden_bytes as usize);
                Named::Known(Iter::of_texts(self.explicit as usize, explicit))
            }
            Counted::Marked => {
                let (front, behind) = parted(self.commands, self.bytes.as_slice());
                let (_hidden, explicit) = behind.split_at(self.hidden_bytes as usize);
                let names = Iter::of_texts(self.explicit as usize, explicit);
                Named::Marked(
                    names,
                    marks_in(Iter::of_texts(self.commands as usize, front)),
                )
            }
        }
    }

    /// The prerequisites that the makefile named, in order; None where they aren't known.
    pub fn explicit(&self) -> Option<Iter<'_>>
        ensures { result ≡ names_recorded self.now.explicit }
    {
        match self.lend() {
            Named::Unknown => None,
            Named::Known(names) => Some(names),
            Named::Marked(names, _marks) => Some(names),
        }
    }

    /// The text of the marks, empty where there are none.
    pub(crate) fn marks(&self) -> &[u8]
        ensures { result.now ≡ marks_known self.now.explicit }
    {
        match self.lend() {
            Named::Unknown => &[],
            Named::Known(_names) => &[],
            Named::Marked(_names, marks) => marks,
        }
    }

    /// There are more commands, hidden names or explicit ones than a record may have.
    pub(crate) fn has_too_many(&self) -> bool
        ensures { result ≡ (nat_lt MAX_COMMANDS (length self.now.commands)
            || (nat_lt MAX_HIDDEN_NAMES (length self.now.hidden) || nat_lt MAX_EXPLICIT_NAMES (length (names_known self.now.explicit)))) }
    {
        self.commands().len() > MAX_COMMANDS
            || self.hidden().len() > MAX_HIDDEN_NAMES
            || self.names().len() > MAX_EXPLICIT_NAMES
    }

    /// The explicit names in order, none where they aren't known.
    pub fn names(&self) -> Iter<'_>
        ensures { result ≡ names_known self.now.explicit }
    {
        match self.lend() {
            Named::Unknown => Iter::empty(),
            Named::Known(names) => names,
            Named::Marked(names, _marks) => names,
        }
    }

    /// A recipe that began or failed: no commands and no explicit names count any more, the hidden names stay as last known.
    pub fn leave_unfinished(&mut self, phase: Phase)
        ensures { self.new ≡ record { phase = phase; commands = []; hidden = self.old.hidden; explicit = explicits.Unknown } }
    {
        self.standing = Standing::new(phase, Counted::HiddenAlone);
    }

    /// The same strings of a recipe that was run to its end.
    pub fn done(self) -> PackedEntry
        ensures { result ≡ record { phase = phases.Done; commands = self.commands; hidden = self.hidden; explicit = self.explicit } }
    {
        let mut done = self;
        done.standing = Standing::Done(done.standing.counted());
        done
    }

    pub fn copy(&self, alloc: Global) -> Result<PackedEntry, AllocError>
        ensures { IfOk result (λ copied. copied ≡ self.now) }
    {
        Ok(PackedEntry {
            standing: self.standing,
            commands: self.commands,
            hidden: self.hidden,
            explicit: self.explicit,
            hidden_bytes: self.hidden_bytes,
            bytes: Vec::from_slice(alloc, self.bytes.as_slice())?,
        })
    }

    /// The entry with its strings in lists of their own.
    pub fn unpack(&self, alloc: Global) -> Result<Entry, AllocError>
        ensures { IfOk result (λ entry. entry ≡ self.now) }
    {
        Ok(Entry {
            phase: self.phase(),
            commands: self.commands().copy(alloc)?,
            hidden: self.hidden().copy(alloc)?,
            explicit: unpacked(alloc, self.lend())?,
        })
    }
}

fn unpacked(alloc: Global, explicit: Named<'_>) -> Result<Explicit, AllocError>
    ensures { IfOk result (λ e. e ≡ explicit_from explicit.entry) }
{
    match explicit {
        Named::Unknown => Ok(Explicit::Unknown),
        Named::Known(names) => Ok(Explicit::Known(names.copy(alloc)?)),
        Named::Marked(names, marks) => Ok(Explicit::Marked(
            names.copy(alloc)?,
            ByteString::from_slice(alloc, marks)?,
        )),
    }
}

/// The text of marks, and the commands behind it.
fn in_front(alloc: Global, marks: &[u8], commands: Iter<'_>) -> Result<ByteStrings, AllocError>
    ensures { IfOk result (λ front. front ≡ marks.now ∷ commands.entry) }
{
    let (_count, texts) = commands.texts();
    let mut front = ByteStrings::with_capacity(alloc, 1, marks.len().saturating_add(texts.len()))?;
    front.push(marks)?;
    for command in commands {
        front.push(command)?;
    }
    Ok(front)
}

/// The text of marks in front of the commands.
fn marks_in(front: Iter<'_>) -> &[u8]
    ensures { result.now ≡ marks_in front.entry }
{
    let mut left = front;
    match left.next() {
        None => &[],
        Some(marks) => marks,
    }
}

/// The commands behind it.
fn behind_marks(front: Iter<'_>) -> Iter<'_>
    ensures { result ≡ drop 1 front.entry }
{
    let mut left = front;
    let _marks = left.next();
    left
}

/// The string that stands first, behind its length, is passed over.
fn behind_first(bytes: &[u8]) -> &[u8]
    requires length { 4 ≤ length bytes.now }
    requires string { size_of bytes.now ≤ length (drop 4 bytes.now) }
    ensures { result.now ≡ behind_first bytes.now }
{
    let (front, rest) = bytes.split_at(LENGTH_BYTES);
    let len = u32::from_le_bytes([front[0], front[1], front[2], front[3]]);
    let (_string, behind) = rest.split_at(len as usize);
    behind
}

/// How many bytes so many strings take, which lie at the front of these, each behind its length.
fn texts_len(count: u32, bytes: &[u8]) -> usize
    requires fit { texts_size count bytes.now ≤ length bytes.now }
    requires lie { AreTexts count (take (texts_size count bytes.now) bytes.now) }
    ensures { result ≡ texts_size count bytes.now }
{
    let mut left = count;
    let mut rest = bytes;
    while left > 0 {
        rest = behind_first(rest);
        left -= 1;
    }
    bytes.len() - rest.len()
}

/// The bytes of so many strings, which lie at the front of these, and those behind them.
fn parted(count: u32, bytes: &[u8]) -> (&[u8], &[u8])
    requires fit { texts_size count bytes.now ≤ length bytes.now }
    requires lie { AreTexts count (take (texts_size count bytes.now) bytes.now) }
    ensures front { result.0.now ≡ take (texts_size count bytes.now) bytes.now }
    ensures behind { result.1.now ≡ drop (texts_size count bytes.now) bytes.now }
{
    bytes.split_at(texts_len(count, bytes))
}

/// The three texts one behind the other.
fn joined(alloc: Global, first: &[u8], second: &[u8], third: &[u8]) -> Result<Vec<u8>, AllocError>
    ensures { IfOk result (λ whole. whole.items ≡ first.now ++ (second.now ++ third.now)) }
{
    let room = first
        .len()
        .saturating_add(second.len())
        .saturating_add(third.len());
    let mut whole = Vec::with_capacity(alloc, room)?;
    whole.extend_from_slice(first)?;
    whole.extend_from_slice(second)?;
    whole.extend_from_slice(third)?;
    Ok(whole)
}
