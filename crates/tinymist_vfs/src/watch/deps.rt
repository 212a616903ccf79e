//! What a watcher is to watch.
ghost use Rattle.std.specs.Prelude.{List};
ghost use Rattle.tinymist_vfs.specs.Maps.{Path};
ghost use Rattle.tinymist_vfs.specs.Deps.{CallsAt};

use ty_path::ImmutPath;

/// Tells which paths are watched.
pub trait NotifyDeps {
    ghost paths: { Self → List Path };

    /// Calls `f` at each path, in order.
    fn dependencies<G: FnMut(&ImmutPath)>(&self, f: &mut G)
        requires { G.IsAlwaysCallable f.old }
        ensures { CallsAt G.step (paths self.now) f.old f.new };
}

impl NotifyDeps for Vec<ImmutPath> {
    ghost paths = { λ v. v.items };

    fn dependencies<G: FnMut(&ImmutPath)>(&self, f: &mut G) {
        let mut rest = self.as_slice();
        while let Some((path, more)) = rest.split_first() {
            f(path);
            rest = more;
        }
    }
}
