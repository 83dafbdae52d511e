//! What a run prints: lines and blocks of recipes, the status line, news, and what there is to say before and behind them.
#![tactic(auto)]

mod counts;
mod following;
mod front;
mod held;
mod lending;
mod logging;
mod news;
mod printer;
mod queue;
mod streams;
mod trusted;

pub use counts::Counts;
pub use following::followed;
pub use front::Front;
pub use lending::Lending;
pub use printer::Printer;
pub use trusted::Trusted;
