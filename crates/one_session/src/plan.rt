ghost use Rattle.std.specs.Prelude.{◌≡◌, ◌≤◌, Some, false};
ghost use Rattle.shown_rows.specs.declared.Shown.TheVariants as Shown;
ghost use Rattle.one_session.specs.Looking.{Chooses, Gives, Plans};

use crate::start::Start;
use shown_rows::Shown;
use std::alloc::Global;
use vfs_names::{Fingerprint, NoMemory, Refusal, VPath};
use vfs_outside::{Object, Remote, RemoteError};

/// The longest object that a file can hold, in bytes.
const OBJECT_LIMIT: u64 = 1 << 40;

/// What an open meets at a path: whether its file is dirty or open, whether the object that the file holds is there, the
/// fingerprint of that object, and what the root shows; and whether a file is to be made where nothing is.
#[derive(Clone, Copy, Debug)]
pub(crate) struct Met {
    pub(crate) used: bool,
    pub(crate) bound: bool,
    pub(crate) held: Option<Fingerprint>,
    pub(crate) shown: Option<Shown>,
    pub(crate) create: bool,
}

/// What an open does.
#[derive(Drop)]
pub(crate) enum Plan<O: Object> {
    Begin(Start<O>),
    Refuse(Refusal),
    /// The object that the root shows is gone.
    Lose,
}

/// What is done with an object that was opened, where the file holds this.
fn choose<O: Object>(held: Option<Fingerprint>, object: O) -> Plan<O>
    ensures chosen { Chooses O.print_of held object result }
{
    let print = object.print();
    if print.size > OBJECT_LIMIT {
        return Plan::Refuse(Refusal::TooBig);
    }
    match held {
        Some(held) if held.agrees(&print) => Plan::Begin(Start::Bind(object)),
        Some(_) => Plan::Begin(Start::Adopt(object)),
        None => Plan::Begin(Start::Adopt(object)),
    }
}

/// What an open does with an object that is shown: where the file holds it and it is there, the file is opened as it is;
/// else the object is opened.
fn open_shown<R: Remote>(
    alloc: Global,
    remote: &mut R,
    path: &VPath,
    met: Met,
    print: Fingerprint,
) -> Result<Plan<R::Object>, NoMemory>
    requires unused { met.used ≡ false }
    requires shown { met.shown ≡ Some (Shown.Object print) }
    ensures plans { Plans R.Object.print_of met (R.outside remote.old) (R.outside remote.new) result }
    ensures gives { Gives R.Object.print_of R.Object.bytes (R.outside remote.old)
        (R.outside remote.new) result }
    ensures faults { (R.outside remote.old).faults ≤ (R.outside remote.new).faults }
    ensures changes { (R.outside remote.old).changes ≤ (R.outside remote.new).changes }
{
    if met.bound && met.held == Some(print) {
        return Ok(Plan::Begin(Start::Kept));
    }
    match remote.open_object(alloc, path) {
        Ok(object) => Ok(choose(met.held, object)),
        Err(RemoteError::Missing) => Ok(Plan::Lose),
        Err(RemoteError::Failed) => Ok(Plan::Refuse(Refusal::RemoteFault)),
        Err(RemoteError::NoMemory) => Err(NoMemory),
        Err(RemoteError::Exists) => unreachable!(),
        Err(RemoteError::NotEmpty) => unreachable!(),
    }
}

/// What an open does with what it meets: a file that is used is opened as it is; an object that is shown is opened; where
/// nothing is, a file is made if it is to be.
pub(crate) fn make_plan<R: Remote>(
    alloc: Global,
    remote: &mut R,
    path: &VPath,
    met: Met,
) -> Result<Plan<R::Object>, NoMemory>
    ensures plans { Plans R.Object.print_of met (R.outside remote.old) (R.outside remote.new) result }
    ensures gives { Gives R.Object.print_of R.Object.bytes (R.outside remote.old)
        (R.outside remote.new) result }
    ensures faults { (R.outside remote.old).faults ≤ (R.outside remote.new).faults }
    ensures changes { (R.outside remote.old).changes ≤ (R.outside remote.new).changes }
{
    if met.used {
        return Ok(Plan::Begin(Start::Kept));
    }
    match met.shown {
        None if met.create => Ok(Plan::Begin(Start::Create)),
        None => Ok(Plan::Refuse(Refusal::NotFound)),
        Some(shown) => match shown {
            Shown::Dir => Ok(Plan::Refuse(Refusal::IsDir)),
            Shown::Object(print) => open_shown(alloc, remote, path, met, print),
        },
    }
}
