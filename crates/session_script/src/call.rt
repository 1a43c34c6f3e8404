ghost use Rattle.std.specs.Prelude.{◌≡◌};

use std::marker::Model;
use vfs_names::{How, Payload, VPath};

/// What a session asks for. Handles are the session's own; positions, lengths and sizes are in
/// bytes.
#[derive(Debug, Drop, PartialEq, Eq)]
pub enum Call {
    Open { h: u8, path: VPath, how: How },
    Read { h: u8, pos: u64, len: u64 },
    Write { h: u8, pos: u64, payload: Payload },
    Size { h: u8, size: u64 },
    Close { h: u8 },
    Stat { path: VPath },
    List { path: VPath },
    MakeDir { path: VPath },
    RemoveDir { path: VPath },
    Unlink { path: VPath },
    Rename { from: VPath, to: VPath },
}

/// A call, the session that makes it (1 to 16), and the number of its line.
#[derive(Debug, Drop, PartialEq, Eq)]
pub struct CallLine {
    pub line: u32,
    pub session: u8,
    pub call: Call,
}

/// What a line asks for.
#[derive(Debug, Drop, PartialEq, Eq)]
pub enum What {
    Call(CallLine),
    /// Move the clock by so many milliseconds, at most 2^40.
    Advance(u64),
    /// Upload what is due.
    Tick,
    /// Run the cleaner.
    Clean,
    /// Ask the remote what changed.
    Poll,
    /// End the phase.
    Join,
    /// End the epoch and recover.
    Restart,
}

/// A line of a script that asks for something, with its number, from 1. Empty lines and comments
/// are counted.
#[derive(Debug, Drop, PartialEq, Eq)]
pub struct Line {
    pub line: u32,
    pub what: What,
}

/// A script. Contracts see the list of its lines.
#[derive(Debug, Drop)]
pub struct Script {
    lines: Vec<Line>,
}

impl Model for Script {
    ghost use Rattle.std.specs.Prelude.{List};
    ghost use Rattle.session_script.specs.declared.call.Line.{Line};

    ghost Value = { List Line };

    ghost view = { λ s. s.lines.items };
}

impl Script {
    pub(crate) fn from_lines(lines: Vec<Line>) -> Script
        ensures { result ≡ lines.items }
    {
        Script { lines }
    }

    pub fn lines(&self) -> &[Line]
        ensures { result.now ≡ self.now }
    {
        self.lines.as_slice()
    }
}
