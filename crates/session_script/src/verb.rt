/// The verbs of a session's calls.
#[derive(Clone, Copy, Debug, PartialEq, Eq)]
pub(crate) enum Verb {
    Open,
    Read,
    Write,
    Size,
    Close,
    Stat,
    List,
    MakeDir,
    RemoveDir,
    Unlink,
    Rename,
}

/// The verbs of the lines that no session makes.
#[derive(Clone, Copy, Debug, PartialEq, Eq)]
pub(crate) enum Control {
    Advance,
    Tick,
    Clean,
    Poll,
    Join,
    Restart,
}
