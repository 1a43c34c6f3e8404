ghost use Rattle.std.specs.Prelude.{◌≡◌};
ghost use Rattle.session_script.specs.Built.{is_plain_open, is_one_name, is_built, is_built_call};

use crate::call::{Call, What};
use vfs_names::{Access, How, VPath};

fn is_plain_open(how: &How) -> bool
    ensures { result ≡ is_plain_open how.now }
{
    how.access != Access::Write && !how.excl && !how.trunc && !how.append
}

fn is_one_name(path: &VPath) -> bool
    ensures { result ≡ is_one_name path.now }
{
    !path.as_str().as_bytes().contains(&b'/')
}

fn is_built_call(call: &Call) -> bool
    ensures { result ≡ is_built_call call.now }
{
    match call {
        Call::Open { path, how, .. } => is_plain_open(how) && is_one_name(path),
        Call::Read { .. } | Call::Write { .. } | Call::Size { .. } | Call::Close { .. } => true,
        _ => false,
    }
}

/// The program can do what a line asks for.
pub(crate) fn is_built(asked: &What) -> bool
    ensures { result ≡ is_built asked.now }
{
    match asked {
        What::Call(line) => line.session == 1 && is_built_call(&line.call),
        What::Join | What::Advance(_) | What::Tick => true,
        _ => false,
    }
}
