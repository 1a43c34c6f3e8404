ghost use Rattle.std.specs.Prelude.{◌≡◌, None, Some};
ghost use Rattle.one_session.specs.Views.{refused_place};
ghost use Rattle.session_text.specs.declared.reply.Reply.TheVariants as Reply;
ghost use Rattle.vfs_names.specs.declared.refusal.Refusal.TheVariants as Refusal;

use session_text::Reply;
use vfs_names::{ItemId, Refusal};

/// What a call was answered, and its places in the tree and in a file.
pub(crate) struct Outcome {
    pub(crate) reply: Reply,
    pub(crate) tree: Option<u32>,
    pub(crate) file: Option<(ItemId, u32)>,
}

impl Outcome {
    /// A refusal of a call that added nothing.
    pub(crate) fn bare(why: Refusal) -> Outcome
        ensures reply { result.reply ≡ Reply.Refused why }
        ensures tree { result.tree ≡ None }
        ensures file { result.file ≡ None }
    {
        Outcome {
            reply: Reply::Refused(why),
            tree: None,
            file: None,
        }
    }

    /// The answer of a call with a place in a file alone.
    pub(crate) fn of_file(reply: Reply, place: Option<(ItemId, u32)>) -> Outcome
        ensures reply { result.reply ≡ reply }
        ensures tree { result.tree ≡ None }
        ensures file { result.file ≡ place }
    {
        Outcome {
            reply,
            tree: None,
            file: place,
        }
    }

    /// The answer of a call on a handle that was refused, which for the object and the disk has a place in the file.
    pub(crate) fn of_refusal(why: Refusal, place: Option<(ItemId, u32)>) -> Outcome
        ensures reply { result.reply ≡ Reply.Refused why }
        ensures tree { result.tree ≡ None }
        ensures file { result.file ≡ refused_place why place }
    {
        let reply = Reply::Refused(why);
        match why {
            Refusal::RemoteFault => Outcome::of_file(reply, place),
            Refusal::DiskFault => Outcome::of_file(reply, place),
            Refusal::Stale { .. } => Outcome::of_file(reply, place),
            _ => Outcome::of_file(reply, None),
        }
    }

    /// A refusal of a call for want of memory, after what it listed.
    pub(crate) fn starved(listed: Option<u32>) -> Outcome
        ensures reply { result.reply ≡ Reply.Refused Refusal.NoMemory }
        ensures tree { result.tree ≡ listed }
        ensures file { result.file ≡ None }
    {
        Outcome {
            reply: Reply::Refused(Refusal::NoMemory),
            tree: listed,
            file: None,
        }
    }

    /// A refusal of a call that says so in the tree.
    pub(crate) fn refused(why: Refusal, place: u32) -> Outcome
        ensures reply { result.reply ≡ Reply.Refused why }
        ensures tree { result.tree ≡ Some place }
        ensures file { result.file ≡ None }
    {
        Outcome {
            reply: Reply::Refused(why),
            tree: Some(place),
            file: None,
        }
    }
}
