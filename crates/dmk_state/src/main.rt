//! Lists what a state file remembers of its targets.
#![tactic(auto)]

ghost use Rattle.std.specs.Prelude.{◌≡◌, ◌⊎◌};

mod command_line;
mod output;

use command_line::{Request, read_words};
use output::{print_failed_call, refuse, show};
use st_listing::{ListFault, write_listing};
use st_programs::{Reading, recovered, settled, standard_output};
use st_records::HashKey;
use std::process::ExitCode;

fn main(rt: HostRuntime) -> ExitCode {
    match read_words(rt) {
        Ok(Request::List(file)) => ExitCode::from(list_file(rt, file.as_str())),
        Ok(Request::Leave(status)) => ExitCode::from(status),
        Err(fault) => {
            let _ = eprintln!(rt; "dmk_state: {fault}");
            ExitCode::from(2)
        }
    }
}

/// Lists what FILE and FILE.2 hold: block after block, and where that lists nothing or is refused, as they are read whole.
fn list_file(rt: HostRuntime, file: &str) -> u8
    ensures status { (result ≡ 0) ⊎ (result ≡ 2) }
{
    let key = HashKey::from_system(&rt);
    match list_disk(rt, key, file) {
        Ok(true) => 0,
        Err(ListFault::Write) => refuse(file, ListFault::Write, &mut rt.stderr()),
        Ok(false) | Err(ListFault::Open(_)) => list_whole(rt, key, file),
    }
}

/// Lists the state that they recover, and answers whether it has names. Nothing is written before their files are closed: where
/// standard output is closed, the first file that is opened stands in its place.
fn list_disk(rt: HostRuntime, key: HashKey, file: &str) -> Result<bool, ListFault> {
    let state = recovered(rt, key, file).map_err(|fault| ListFault::Open(fault))?;
    write_listing(rt.alloc(), &state, &mut standard_output(rt))?;
    Ok(state.len() > 0)
}

/// Lists what FILE and FILE.2 hold as they are read whole, once they are settled.
fn list_whole(rt: HostRuntime, key: HashKey, file: &str) -> u8
    ensures status { (result ≡ 0) ⊎ (result ≡ 2) }
{
    let Reading { sides, failed } = settled(rt, key, file);
    let (out, err) = (&mut standard_output(rt), &mut rt.stderr());
    match sides {
        Ok((a, b)) => {
            let (mut a, mut b) = (a, b);
            show(rt.alloc(), key, file, &mut a, &mut b, out, err)
        }
        Err(fault) => {
            let status = refuse(file, ListFault::Open(fault), err);
            if let Some(failed) = failed {
                print_failed_call(file, failed, err);
            }
            status
        }
    }
}
