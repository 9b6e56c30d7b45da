//! The balancer's command line: it runs the command that the words behind the program's name give, over real files, and
//! ends with the command's exit status.
#![tactic(auto)]

use shelf::FileShelf;
use std::io::ErrorKind;
use std::process::ExitCode;
use std::rt::Env;
use std::{env, io};
use yoda_app::{refuse_memory, yoda};

// The words behind the program's name.
fn words<R: Env + AllocGlobal>(rt: &R) -> io::Result<Vec<String>> {
    let words = env::args(rt)?.skip(1).collect(rt.alloc())?;
    Ok(words)
}

fn main(rt: HostRuntime) -> ExitCode {
    let mut shelf = FileShelf::new(&rt, rt.stdout(), rt.stderr());
    let status = match words(&rt) {
        Ok(words) => yoda(&rt, rt.alloc(), &words, &mut shelf),
        Err(error) if error.kind() == ErrorKind::OutOfMemory => refuse_memory(&mut shelf),
        // A word that is no text is a faulty command line.
        Err(_) => yoda(&rt, rt.alloc(), &[], &mut shelf),
    };
    ExitCode::from(status)
}
