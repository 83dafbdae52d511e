//! GNU make's conditionals: what a logical line says of them, and which lines count; and where the body of a `define` ends.
#![tactic(auto)]

mod arguments;
mod branch;
mod cut;
mod define;
mod directive;
pub mod laws;
mod nest;
mod reading;
mod spelled;

pub use branch::NestFault;
pub use define::{BodyLine, body_line};
pub use directive::{Directive, DirectiveLine, Question, Test};
pub use nest::Nest;
pub use reading::Reading;
pub use spelled::{directive_of, tested_name};
