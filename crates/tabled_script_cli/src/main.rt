//! The script program: what its arguments ask for, done with the files that they name, standard input and standard output.
#![tactic(auto)]

mod input;
mod output;

use input::{read_file, read_script};
use output::Output;
use std::env::{self, Env, FillError};
use std::io::{self, ErrorKind, IsTerminal, Stderr};
use std::process::ExitCode;
use tabled_script::{Arguments, Invocation, Refusal, answer, run_script, told_instead};

fn main(rt: HostRuntime) -> ExitCode {
    let mut errors = rt.stderr();
    let status = match run(&rt, &mut errors) {
        Ok(status) => status,
        Err(refusal) => refusal.tell(rt.alloc(), &mut errors),
    };
    ExitCode::from(status)
}

/// Does what the arguments ask for, and answers a status.
fn run(rt: &HostRuntime, errors: &mut Stderr) -> Result<u8, Refusal> {
    let alloc = rt.alloc();
    if !has_arguments(rt) {
        return run_alone(rt);
    }
    let words = words(rt)?;
    if let Some(telling) = told_instead(alloc, &words)? {
        let mut output = Output::standard(rt);
        let status = telling.tell(&mut output, errors);
        return Ok(output.close(status, errors));
    }
    let mut arguments = Arguments::new(alloc);
    for word in &words {
        arguments = arguments.take(alloc, word.as_str())?;
    }
    answer_invocation(rt, arguments.into_invocation(alloc)?, errors)
}

/// Runs the script of standard input where there are no arguments. Nothing is told.
fn run_alone(rt: &HostRuntime) -> Result<u8, Refusal> {
    if rt.stdin().is_terminal() {
        return Err(Refusal::Terminal);
    }
    let mut output = Output::standard(rt);
    let status = run_script(rt.alloc(), &mut rt.reader(), &mut output);
    Ok(output.close(status, &mut io::sink()))
}

/// Reads the files that are asked for, and writes the table.
fn answer_invocation(
    rt: &HostRuntime,
    invocation: Invocation,
    errors: &mut Stderr,
) -> Result<u8, Refusal> {
    let Invocation {
        mut request,
        script,
        output,
    } = invocation;
    for source in &mut request.sources {
        source.bytes = read_file(rt, source.name.as_str())?;
    }
    let script = match &script {
        Some(name) => read_script(rt, name.as_str(), !request.steps.is_empty())?,
        None => Vec::new(rt.alloc()),
    };
    let mut output = match &output {
        Some(name) => Output::file(rt, name.as_str()),
        None => Output::standard(rt),
    };
    let status = answer(rt.alloc(), &request, &script, &mut output, errors);
    Ok(output.close(status, errors))
}

/// Says whether there is an argument behind the program's name. This takes no memory, so that want of it is said as without
/// arguments where there are none.
fn has_arguments(rt: &HostRuntime) -> bool {
    !matches!(rt.arg(1, &mut []), Err(FillError::NotPresent))
}

/// The arguments, without the program's name.
fn words(rt: &HostRuntime) -> Result<Vec<String>, Refusal> {
    let arguments = match env::args(rt) {
        Ok(arguments) => arguments,
        Err(error) => {
            return Err(match error.kind() {
                ErrorKind::OutOfMemory => Refusal::OutOfMemory,
                _ => Refusal::NotText,
            });
        }
    };
    let mut words = Vec::new(rt.alloc());
    for argument in arguments.skip(1) {
        words.push(argument)?;
    }
    Ok(words)
}
