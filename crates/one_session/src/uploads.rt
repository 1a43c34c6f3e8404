ghost use Rattle.std.specs.Prelude.{◌≡◌, ◌≤◌, ◌<◌, ◌^◌, [], IfNone, IfOk, IfSome, OnErr};
ghost use Rattle.vfs_names.specs.declared.who.Actor.TheVariants.{Main};
ghost use Rattle.downloaders.specs.Rules.{HasChunk};
ghost use Rattle.writeback_queue.specs.Queue.{IsIdle};
ghost use Rattle.one_session.specs.Sending.{SendsNext};
ghost use Rattle.one_session.specs.Standing.{IsSoundStore, state_of};
ghost use Rattle.one_session.specs.Views.{histories};
ghost use Rattle.one_session.specs.Whole.{IsUpTo};

use crate::store::Store;
use crate::turn::note_turn;
use downloaders::Plan;
use item_upload::Ended;
use std::alloc::Global;
use vfs_names::{By, NoMemory};
use vfs_outside::{CacheFile, Object, Remote};

impl<O: Object, F: CacheFile> Store<O, F> {
    /// Uploads the file whose turn is first, where one is due, and says in the tree which object stands at its path then.
    pub(crate) fn upload_next<R: Remote<Object = O>>(
        &mut self,
        alloc: Global,
        remote: &mut R,
        plan: &Plan,
        by: By,
    ) -> Result<Option<Ended>, NoMemory>
        requires sound { IsSoundStore F.tells self.old }
        requires actor { by.who.actor ≡ Main }
        requires pass { by.pass ≡ 0 }
        requires now { by.now ≤ 2 ^ 62 }
        requires later { IsUpTo by (histories self.old.files.items) }
        requires transfers { 0 < self.old.files.queue.terms.transfers }
        requires chunk { HasChunk plan.now.chunk }
        ensures sound { IsSoundStore F.tells self.new }
        ensures later { IsUpTo by (histories self.new.files.items) }
        ensures sent { IfOk result (λ ended. IfSome ended (SendsNext F.tells R.tells O.tells by
            (state_of self.old [] [] 0) (state_of self.new [] [] 0)
            (R.outside remote.old) (R.outside remote.new))) }
        ensures none { IfOk result (λ ended. IfNone ended
            (IsIdle self.old.files.queue by.now)) }
        ensures still { IfOk result (λ ended. IfNone ended
            (state_of self.new [] [] 0 ≡ state_of self.old [] [] 0)) }
        ensures uncalled { IfOk result (λ ended. IfNone ended
            (R.outside remote.new ≡ R.outside remote.old)) }
        ensures err { OnErr result (state_of self.new [] [] 0 ≡ state_of self.old [] [] 0) }
        ensures err_uncalled { OnErr result (R.outside remote.new ≡ R.outside remote.old) }
    {
        let ready = self.tree.make_ready();
        match self.files.upload_next(alloc, remote, plan, by, ready) {
            Ok(Some(turn)) => Ok(Some(note_turn(&mut self.tree, by, turn))),
            Ok(None) => Ok(None),
            Err(NoMemory) => Err(NoMemory),
        }
    }
}
