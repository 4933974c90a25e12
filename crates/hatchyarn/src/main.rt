// hatchyarn: reads request lines and writes their answers, in constant memory whatever the size of
// the input. Everything that matters is in the libraries; this file moves bytes.
#![tactic(auto)]

mod block;
mod files;
mod help;

use program::options::Asked;
use program::{Failed, Program};
use std::process::ExitCode;
use std::rt::{Env, Files};

fn run<R: Env + Files>(rt: &R, program: &Program) -> Result<(), Failed> {
    match program.asked_for(rt)? {
        Asked::Help => help::help(program),
        Asked::Version => help::version(program),
        Asked::Work(end) => files::answer_files(rt, program, end),
    }
}

// The exit status is 0 if everything was read, answered and written, and else 1.
fn main(rt: HostRuntime) -> ExitCode {
    let program = Program {
        name: b"hatchyarn",
        input: rt.stdin(),
        output: rt.stdout(),
        errors: rt.stderr(),
        memory: rt.alloc(),
    };
    match run(&rt, &program) {
        Ok(()) => ExitCode::SUCCESS,
        Err(failed) => ExitCode::from(failed),
    }
}
