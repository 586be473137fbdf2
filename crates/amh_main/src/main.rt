//! Amaranth HDL as one program. `main` makes the real host and calls `play` of amh_tool, whose clauses are what is proved.
#![tactic(auto)]

use amh_host::{NoMemory, Words};
use amh_tool::{Status, play};
use disk_host::DiskHost;
use std::alloc::Global;
use std::env::Env;
use std::io::ErrorKind;
use std::process::ExitCode;

fn main(rt: HostRuntime) -> ExitCode {
    let alloc = rt.alloc();
    let Ok(words) = command_words(&rt, alloc) else {
        return ExitCode::from(Status::NoMemory.code());
    };
    let mut host = DiskHost::new(alloc, rt);
    ExitCode::from(play(alloc, &mut host, &words).code())
}

// The words without the program's name. A word that is not UTF-8 is of no command, so there are none then, which
// gives the usage too.
fn command_words<R: Env + Alloc>(rt: &R, alloc: Global) -> Result<Words, NoMemory> {
    let mut words = Words::new(alloc);
    match std::env::args(rt) {
        Ok(all) => {
            for word in all.skip(1) {
                words.push(word.as_str())?;
            }
            Ok(words)
        }
        Err(why) if why.kind() == ErrorKind::OutOfMemory => Err(NoMemory),
        Err(_) => Ok(words),
    }
}
