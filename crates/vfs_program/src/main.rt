//! The program: runs the script on its standard input over two folders, the remote and the cache, and writes the
//! transcript.
#![tactic(auto)]

use cache_folder::FolderDisk;
use remote_folder::FolderRemote;
use std::process::ExitCode;
use std::rt::Env;
use std::{env, io};
use vfs_outside::{OpenGate, ScriptClock, StdSink, StdSource};
use vfs_top::run;

/// The words after the program's name. Words that aren't UTF-8 are none that the program takes, as no words are.
fn words_of(rt: &(impl Env + AllocGlobal)) -> io::Result<Vec<String>> {
    match env::args(rt) {
        Ok(mut words) => {
            let _name = words.next();
            Ok(words.collect(rt.alloc())?)
        }
        Err(error) if error.kind() == io::ErrorKind::InvalidData => Ok(Vec::new(rt.alloc())),
        Err(error) => Err(error),
    }
}

fn main(rt: HostRuntime) -> ExitCode {
    let alloc = rt.alloc();
    let Ok(words) = words_of(&rt) else {
        let _ = rt.println("no memory\nend 8");
        return ExitCode::from(8);
    };
    let mut source = StdSource::new(rt.stdin());
    let mut sink = StdSink::new(rt.stdout());
    let mut clock = ScriptClock::new();
    let ended = run(
        alloc,
        &words,
        &mut source,
        &mut sink,
        FolderRemote::new(alloc, rt),
        FolderDisk::new(alloc, rt),
        &mut clock,
        &OpenGate,
    );
    ExitCode::from(ended.status)
}
