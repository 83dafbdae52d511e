//! How often include lines ask for files.

use crate::expected::expect;
use mk_eval::read_makefile;
use mk_macros::Macros;
use mk_profile::Profile;
use run_doubles::{File, Folder};
use std::alloc::{AllocError, Global};
use std::test::Fail;

/// How often a file is asked for, and the fault behind a blank.
struct Row {
    name: &'static str,
    makefile: &'static str,
    files: &'static [File],
    told: &'static str,
}

static ROWS: [Row; 4] = [
    Row {
        name: "a file that includes itself is read sixteen times",
        makefile: "include makefile\n",
        files: &[("makefile", 1, "include makefile\n")],
        told: "16 makefile:1: include too deep",
    },
    Row {
        name: "nothing is read at the seventeenth level",
        makefile: "include f makefile f\n",
        files: &[("makefile", 1, "include makefile\n"), ("f", 1, "A = 1\n")],
        told: "17 makefile:1: include too deep",
    },
    Row {
        name: "nothing is read of a refused include line",
        makefile: "include f $(A)\n",
        files: &[("f", 1, "A = 1\n")],
        told: "0 m:1: not supported: include",
    },
    Row {
        name: "a file is read each time it is named",
        makefile: "include f f\ninclude f\n",
        files: &[("f", 1, "A = 1\n")],
        told: "3 ",
    },
];

fn fault(alloc: Global, makefile: &str, folder: &mut Folder) -> Result<String, AllocError> {
    let mut macros = Macros::new(alloc, Profile::Strict);
    match read_makefile(alloc, &mut macros, b"m", makefile.as_bytes(), folder) {
        Ok(_) => Ok(String::new(alloc)),
        Err(fault) => format!(in alloc; "{fault}"),
    }
}

fn expect_row(alloc: Global, row: &Row) -> Result<(), Fail> {
    let mut folder = Folder::new(row.files);
    let fault = fault(alloc, row.makefile, &mut folder)?;
    let told = format!(in alloc; "{} {fault}", folder.reads)?;
    expect(alloc, row.name, told.as_str(), row.told)
}

#[test]
fn each_file_is_read_as_often_as_its_row_tells(rt: HostRuntime) -> Result<(), Fail> {
    for row in &ROWS {
        expect_row(rt.alloc(), row)?;
    }
    Ok(())
}
