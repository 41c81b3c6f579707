//! Scripts beside the connections of a hub: lines of sessions, one after the other, each under the publisher's lock, lines that
//! steer streams, and the one that ends the server; in files, or as they come on the standard input.

mod awaiting;
mod done;
mod fault;
mod file;
mod input;
mod input_lines;
mod leaving;
mod lines;
mod numbered_steps;
mod outcome;
mod refusal;
mod step;
mod steps;

pub use fault::{ScriptFault, ScriptFileFault};
pub use file::{STANDARD_INPUT, Script, scripts_at};
pub use input::{Driven, run_input};
pub use input_lines::{InputLines, read_input};
pub use outcome::Done;
pub use steps::{ScriptEnd, run_steps};
