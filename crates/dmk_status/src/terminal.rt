//! The terminal that standard error is, and where else a run shows how far it is.

use std::process::{Command, Stdio};

/// Tells rows and columns of the terminal that standard error is.
const SCRIPT: &str = "stty size <&2 2>/dev/null";

/// How wide a terminal is that doesn't tell.
const USUAL_COLUMNS: usize = 80;

/// The terminal that standard error is.
#[derive(Clone, Copy)]
pub struct Terminal {
    pub host: HostRuntime,
}

/// Where a run shows how far it is.
#[derive(Clone, Copy)]
pub struct Shown {
    /// In a status line, which is drawn on this terminal.
    pub terminal: Option<Terminal>,
    /// In lines between the others, one for each recipe that has ended.
    pub prints_ends: bool,
}

impl Terminal {
    /// How many columns a status line may take now. To ask is to run a program.
    pub fn columns(self) -> usize {
        let columns = match self.told_columns() {
            Some(columns) if columns > 0 => columns,
            _ => USUAL_COLUMNS,
        };
        // Behind a character in the last column some terminals stand on the next line.
        columns.saturating_sub(1)
    }

    // None where that can't be asked.
    fn told_columns(self) -> Option<usize> {
        let told = self.told_size()?;
        let size = str::from_utf8(&told).ok()?;
        let (_rows, columns) = size.trim().split_once(' ')?;
        columns.parse::<usize>().ok()
    }

    fn told_size(self) -> Option<Vec<u8>> {
        let mut command = Command::new(self.host.alloc(), "/bin/sh").ok()?;
        command.arg("-c").ok()?.arg(SCRIPT).ok()?;
        command.stdin(Stdio::null());
        command.stderr(Stdio::inherit());
        match command.output(&self.host) {
            Ok(output) => Some(output.stdout),
            Err(_) => None,
        }
    }
}
