//! The states of other levels of runs, read beside these.

use bd_lists::Variable;
use dmk_host::{locks_above, with_patience};
use dmk_locks::other_levels;
use dmk_reading::Options;
use mk_levels::Level;
use plain_text::Plain;
use st_file::OpenFault;
use st_listing::ListFault;
use st_programs::{Message, read_state};
use st_records::HashKey;
use std::alloc::AllocError;
use std::fmt;
use std::io::Write;

/// Which states of other levels there are beside that of a run.
#[derive(Drop)]
pub struct HostLevels {
    host: HostRuntime,
    names: Vec<String>,
}

/// Why nothing is taken over from a state, as the user reads it.
#[derive(Drop)]
struct PassedOver<'a> {
    file: &'a str,
    fault: OpenFault,
}

impl fmt::Display for PassedOver<'_> {
    fn fmt<W: fmt::Write>(&self, f: &mut fmt::Formatter<W>) -> fmt::Result {
        let file = self.file;
        let message = Message {
            file,
            fault: ListFault::Open(self.fault),
        };
        write!(f, "note: nothing is taken over from {file}: {message}")
    }
}

impl HostLevels {
    /// Those that count: in the wide profile, in which a state tells by its marks which files it was made of, unless all is made.
    pub fn of(
        host: HostRuntime,
        options: &Options,
        environment: &[Variable],
    ) -> Result<HostLevels, AllocError> {
        let names = if options.profile.is_wide() && !options.makes_all {
            other_levels(host, locks_above(environment), options.state.as_str())?
        } else {
            Vec::new(host.alloc())
        };
        Ok(HostLevels { host, names })
    }

    pub fn is_empty(&self) -> bool {
        self.names.is_empty()
    }

    /// What they know now. That a state can't be read, and so is passed over, goes to standard error.
    pub fn read_now(&self) -> Result<Vec<Level>, AllocError> {
        self.read(&mut with_patience(self.host, self.host.stderr()))
    }

    /// The same, where that goes to this stream.
    pub(crate) fn read<W: Write>(&self, err: &mut W) -> Result<Vec<Level>, AllocError> {
        let alloc = self.host.alloc();
        let mut levels = Vec::new(alloc);
        for name in &self.names {
            let file = name.as_str();
            match read_state(self.host, HashKey::from_system(&self.host), file) {
                Ok(state) => levels.push(Level {
                    name: String::from_str(alloc, file)?,
                    state,
                })?,
                Err(refusal) => {
                    let told = PassedOver {
                        file,
                        fault: refusal.fault,
                    };
                    let _ = writeln!(Plain::over(err), "dmk: {told}");
                }
            }
        }
        Ok(levels)
    }
}
