//! At which revision each path last changed. The newest mark may wait beside the map, since it takes no memory there:
//! a commit in place makes all that can be refused first, and then leaves its mark.
ghost use Rattle.std.specs.Prelude.{◌≡◌, ◌+◌, ◌≤◌, None, IfOk, OnOk};
ghost use Rattle.std.specs.Option.{option_map};
ghost use Rattle.std.specs.FinMap as map;
ghost use Rattle.ty_path.specs.Shared.{path_text};
ghost use Rattle.tinymist_vfs.specs.PathMarks.{marks_in, marked_at, waiting_in};

use crate::layers::store::{at_text, put_path};
use std::alloc::Global;
use std::sync::ledger::Ledger;
use ty_path::{ImmutPath, OutOfMemory, Share};
use ty_persist::{Map, Steps};

/// The revision at which a path changed.
pub(crate) struct Mark {
    path: ImmutPath,
    revision: u64,
}

/// The revisions at which paths last changed.
pub(crate) struct PathMarks {
    settled: Map<ImmutPath, u64>,
    waiting: Option<Mark>,
}

impl Drop for Mark {
    fn drop(self) {
        let Mark {
            path: _,
            revision: _,
        } = self;
    }
}

impl Drop for PathMarks {
    fn drop(self) {
        let PathMarks {
            settled: _,
            waiting: _,
        } = self;
    }
}

fn share_waiting(alloc: Global, waiting: &Option<Mark>) -> Result<Option<Mark>, OutOfMemory>
    ensures { IfOk result (λ again. option_map waiting_in again ≡ option_map waiting_in waiting.now) }
{
    match waiting {
        Some(mark) => Ok(Some(Mark {
            path: mark.path.share(alloc)?,
            revision: mark.revision,
        })),
        None => Ok(None),
    }
}

/// The revision of the mark that waits, where it is at this path.
fn waiting_at(waiting: &Option<Mark>, path: &str) -> Option<u64>
    ensures { result ≡ marked_at waiting.now path.now }
{
    match waiting {
        Some(mark) if mark.path.as_str() == path => Some(mark.revision),
        _ => None,
    }
}

impl PathMarks {
    pub(crate) fn new(alloc: Global) -> PathMarks
        ensures { marks_in result ≡ map.empty }
    {
        PathMarks {
            settled: Map::new(alloc),
            waiting: None,
        }
    }

    pub(crate) fn share<L: Ledger>(
        &self,
        alloc: Global,
        steps: &mut Steps<L>,
    ) -> Result<PathMarks, OutOfMemory>
        ensures same { IfOk result (λ again. marks_in again ≡ marks_in self.now) }
        ensures cost { steps.new ≤ steps.old + 1 }
    {
        Ok(PathMarks {
            settled: self.settled.share(steps)?,
            waiting: share_waiting(alloc, &self.waiting)?,
        })
    }

    /// The revision at which the path with this text last changed.
    pub(crate) fn get(&self, path: &str) -> Option<u64>
        ensures { result ≡ map.get (marks_in self.now) path.now }
    {
        match waiting_at(&self.waiting, path) {
            Some(revision) => Some(revision),
            None => at_text(&self.settled, path).copied(),
        }
    }

    /// Puts the mark that waits into the map.
    pub(crate) fn settle<L: Ledger>(
        &mut self,
        alloc: Global,
        steps: &mut Steps<L>,
    ) -> Result<(), OutOfMemory>
        ensures same { marks_in self.new ≡ marks_in self.old }
        ensures none { OnOk result (self.new.waiting ≡ None) }
    {
        if let Some(mark) = &self.waiting {
            let path = mark.path.share(alloc)?;
            put_path(&mut self.settled, path, mark.revision, steps)?;
        }
        self.waiting = None;
        Ok(())
    }

    /// Leaves a mark beside the map, where none waits.
    pub(crate) fn wait(&mut self, path: ImmutPath, revision: u64)
        requires { self.old.waiting ≡ None }
        ensures { marks_in self.new ≡ map.insert (marks_in self.old) (path_text path) revision }
    {
        self.waiting = Some(Mark { path, revision });
    }

    /// Marks a path.
    pub(crate) fn put<L: Ledger>(
        &mut self,
        alloc: Global,
        path: &ImmutPath,
        revision: u64,
        steps: &mut Steps<L>,
    ) -> Result<(), OutOfMemory>
        ensures ok { OnOk result (marks_in self.new ≡ map.insert (marks_in self.old) (path_text path.now) revision) }
    {
        self.settle(alloc, steps)?;
        put_path(&mut self.settled, path.share(alloc)?, revision, steps)
    }
}
