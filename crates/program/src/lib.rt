// What every program does around its work: options, inputs, standard output and messages.
#![tactic(auto)]

pub mod input;
pub mod options;
pub mod output;

use std::alloc::Global;
use std::io::{Stderr, Stdin, Stdout};
use std::process::ExitCode;

// A program's name, its standard streams, and the memory that the words of a message take.
#[derive(Clone, Copy)]
pub struct Program<'a> {
    pub name: &'a [u8],
    pub input: Stdin,
    pub output: Stdout,
    pub errors: Stderr,
    pub memory: Global,
}

// The work failed, and standard error says why.
#[derive(Clone, Copy, Debug, PartialEq, Eq)]
#[must_use]
pub struct Failed;

impl From<Failed> for ExitCode {
    fn from(_failed: Failed) -> ExitCode {
        ExitCode::FAILURE
    }
}
