//! What a program does with its words: it reads them, and reports what is wrong with them.

use crate::{FAILED, REFUSED};
use clap::Error;
use clap::error::ErrorKind;
use std::process::ExitCode;
use std::rt::Env;
use std::{env, io};

/// The words after the program's name.
pub fn words_of<R: Env + AllocGlobal>(rt: &R) -> io::Result<Vec<String>> {
    let mut words = env::args(rt)?;
    let _name = words.next();
    Ok(words.collect(rt.alloc())?)
}

/// Reports that the words could not be read, and returns the exit status.
pub fn refuse_words(rt: &impl Eprint, error: &io::Error) -> ExitCode {
    if error.kind() == io::ErrorKind::OutOfMemory {
        let _ = rt.eprintln("out of memory");
        return ExitCode::from(FAILED);
    }
    let _ = rt.eprintln("error: an argument is not valid UTF-8");
    ExitCode::from(REFUSED)
}

/// Reports what is wrong with the words on standard error, or prints the help that they ask for on standard output. Returns the exit
/// status.
pub fn answer_words(rt: &(impl Print + Eprint), error: Error) -> ExitCode {
    if error.kind() == ErrorKind::OutOfMemory {
        let _ = rt.eprintln("out of memory");
        return ExitCode::from(FAILED);
    }
    let is_refused = error.use_stderr();
    match error.print(rt) {
        _ if is_refused => ExitCode::from(REFUSED),
        Ok(()) => ExitCode::SUCCESS,
        Err(_) => {
            let _ = rt.eprintln("write fault");
            ExitCode::from(FAILED)
        }
    }
}
