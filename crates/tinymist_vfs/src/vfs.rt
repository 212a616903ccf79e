//! The layers of a virtual file system, with their revision.
ghost use Rattle.std.specs.Prelude.{◌≡◌, ◌+◌, ◌-◌, ◌^◌, ◌≤◌, List, [], OnErr, OnOk, IfOk, IfErr, IsErr, IsErrOf};
ghost use Rattle.ty_model.specs.Version.{first_version};
ghost use Rattle.ty_model.specs.Standing.{no_changes};
ghost use Rattle.ty_model.specs.Held.{version_of, Standing};
ghost use Rattle.ty_model.specs.Version as plain;

mod clean;
mod commit;
mod listing;
mod read;
mod reset;

use crate::ids::resolver::RootResolver;
use crate::layers::Layers;
use crate::layers::changes::Changes;
use crate::layers::stamp::Stamp;
use std::alloc::Global;
use std::marker::Model;
use std::sync::ledger::Ledger;
use ty_path::OutOfMemory;
use ty_persist::Steps;
use ty_syntax::{TagFault, Tags};

/// Layers of files with a revision: an overlay by id, an overlay by path, and the files that a watcher told,
/// over a disk that is lent to each read. A resolver tells the paths of ids.
#[derive(Drop)]
pub struct Vfs<R> {
    pub(crate) alloc: Global,
    pub(crate) space: u64,
    pub(crate) revision: u64,
    pub(crate) layers: Layers,
    pub(crate) reset: Stamp,
    pub(crate) changes: Changes,
    pub(crate) resolver: R,
}

impl<R> Model for Vfs<R> {
    ghost use Rattle.ty_model.specs.Held.{Kept, kept_code};

    ghost Value = { Kept R };

    ghost coded = { kept_code R.code };

    ghost view = { λ v. record {
      held = record { space = v.space; revision = v.revision; layers = v.layers; reset = v.reset; changes = v.changes };
      resolver = v.resolver;
    } };
}

impl<R> Vfs<R> {
    /// The revision, which is 2 at first and rises with each commit that changes something, and each reset.
    pub fn revision(&self) -> u64
        ensures { result ≡ self.now.held.revision }
    {
        self.revision
    }

    /// The number of the space: another one for each `Vfs` that is made with the same tags.
    pub fn space(&self) -> u64
        ensures { result ≡ self.now.held.space }
    {
        self.space
    }
}

impl<R: RootResolver> Vfs<R> {
    /// Layers without files, as the first version of a fresh space number. It takes no memory.
    ///
    /// # Errors
    ///
    /// `Full` exactly where the counter of spaces stands at its last value.
    pub fn new(alloc: Global, resolver: R, tags: &mut Tags) -> Result<Vfs<R>, TagFault>
        ensures space { IfOk result (λ v. v.held.space ≡ tags.old.next_space) }
        ensures version { IfOk result (λ v. version_of R.known v ≡ first_version v.held.space (R.known resolver)) }
        ensures resolver { IfOk result (λ v. v.resolver ≡ resolver) }
        ensures changes { IfOk result (λ v. v.held.changes ≡ no_changes) }
        ensures standing { IfOk result (λ v. Standing R.known v []) }
        ensures tags { OnOk result (tags.new ≡ record tags.old { next_space = tags.old.next_space + 1 }) }
        ensures err { OnErr result (tags.new ≡ tags.old) }
        ensures full { IsErrOf result TagFault.Full → tags.old.next_space ≡ 2 ^ 64 - 1 }
        ensures exact { tags.old.next_space ≡ 2 ^ 64 - 1 → IsErr result }
        ensures only { IfErr result (λ fault. fault ≡ TagFault.Full) }
    {
        let space = tags.fresh_space()?;
        Ok(Vfs {
            alloc,
            space,
            revision: 2,
            layers: Layers::new(alloc),
            reset: Stamp::next(space, 1),
            changes: Changes::new(alloc),
            resolver,
        })
    }

    /// An equal value under the same space number: a copy to change, which takes the place of this one or is dropped.
    pub fn staged<L: Ledger>(&self, steps: &mut Steps<L>) -> Result<Vfs<R>, OutOfMemory>
        ensures same { IfOk result (λ v. v ≡ self.now) }
        ensures cost { steps.new ≤ steps.old + 6 }
    {
        Ok(Vfs {
            alloc: self.alloc,
            space: self.space,
            revision: self.revision,
            layers: self.layers.share(steps)?,
            reset: self.reset,
            changes: self.changes.share(self.alloc, steps)?,
            resolver: self.resolver.share(self.alloc)?,
        })
    }

    /// A copy under a fresh space number.
    ///
    /// # Errors
    ///
    /// `Full` exactly where the counter of spaces stands at its last value.
    pub fn snapshot<L: Ledger>(
        &self,
        tags: &mut Tags,
        steps: &mut Steps<L>,
    ) -> Result<Vfs<R>, TagFault>
        ensures space { IfOk result (λ v. v.held.space ≡ tags.old.next_space) }
        ensures version { IfOk result (λ v. version_of R.known v ≡ version_of R.known self.now) }
        ensures changes { IfOk result (λ v. v.held.changes ≡ self.now.held.changes) }
        ensures resolver { IfOk result (λ v. v.resolver ≡ self.now.resolver) }
        ensures standing { (past : List plain.Version) → Standing R.known self.now past → IfOk result (λ v. Standing R.known v past) }
        ensures tags { OnOk result (tags.new ≡ record tags.old { next_space = tags.old.next_space + 1 }) }
        ensures err { OnErr result (tags.new ≡ tags.old) }
        ensures full { IsErrOf result TagFault.Full → tags.old.next_space ≡ 2 ^ 64 - 1 }
        ensures exact { tags.old.next_space ≡ 2 ^ 64 - 1 → IsErr result }
        ensures cost { steps.new ≤ steps.old + 8 }
    {
        let mut copy = self.staged(steps)?;
        copy.space = tags.fresh_space()?;
        Ok(copy)
    }

    /// The same layers under a fresh space number, as one version without a past: nothing was dropped yet,
    /// and nothing changed since.
    ///
    /// # Errors
    ///
    /// `Full` exactly where the counter of spaces stands at its last value.
    pub fn fork<L: Ledger>(&self, tags: &mut Tags, steps: &mut Steps<L>) -> Result<Vfs<R>, TagFault>
        ensures space { IfOk result (λ v. v.held.space ≡ tags.old.next_space) }
        ensures version { IfOk result (λ v. version_of R.known v ≡ plain.forked v.held.space (version_of R.known self.now)) }
        ensures changes { IfOk result (λ v. v.held.changes ≡ no_changes) }
        ensures resolver { IfOk result (λ v. v.resolver ≡ self.now.resolver) }
        ensures standing { IfOk result (λ v. Standing R.known v []) }
        ensures tags { OnOk result (tags.new ≡ record tags.old { next_space = tags.old.next_space + 1 }) }
        ensures err { OnErr result (tags.new ≡ tags.old) }
        ensures full { IsErrOf result TagFault.Full → tags.old.next_space ≡ 2 ^ 64 - 1 }
        ensures exact { tags.old.next_space ≡ 2 ^ 64 - 1 → IsErr result }
        ensures cost { steps.new ≤ steps.old + 4 }
    {
        let mut layers = self.layers.share(steps)?;
        let resolver = self.resolver.share(self.alloc)?;
        let space = tags.fresh_space()?;
        layers.forget_drops(self.alloc);
        Ok(Vfs {
            alloc: self.alloc,
            space,
            revision: 2,
            layers,
            reset: Stamp::next(space, 1),
            changes: Changes::new(self.alloc),
            resolver,
        })
    }
}
