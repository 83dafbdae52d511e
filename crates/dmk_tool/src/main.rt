//! Answers questions to the state that dmk keeps of its targets and to its build logs, and removes the targets' files.
#![tactic(auto)]

mod answers;
mod causes;
mod cleaning;
mod command_line;
mod dot;
mod drawing;
mod json;
mod listing;
mod log_words;
mod logs;
mod looks;
mod request;
mod state_lock;
mod streams;
mod words;

use answers::answer;
use command_line::read_request;
use logs::answer_of_log;
use request::Request;
use std::process::ExitCode;
use streams::tell;

fn main(rt: HostRuntime) -> ExitCode {
    match read_request(rt) {
        Ok(Request::Ask(asked)) => ExitCode::from(answer(rt, &asked)),
        Ok(Request::Read(asked)) => ExitCode::from(answer_of_log(rt, &asked)),
        Ok(Request::Leave(status)) => ExitCode::from(status),
        Err(fault) => {
            tell(rt, "", &fault);
            ExitCode::from(2)
        }
    }
}
