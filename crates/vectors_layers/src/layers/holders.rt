//! A holder of layers from outside their crate: batches reach it by the same calls.
ghost use Rattle.std.specs.Prelude.{◌≡◌, refl};
ghost use Rattle.tinymist_vfs.specs.Commits.{put_held};

use crate::files::holding;
use crate::layers::made::{Layered, joined};
use std::test::Fail;
use tinymist_vfs::{Batch, HoldsVfs, MockRootResolver, ReviseFault, RevisingVfs, Vfs};
use ty_syntax::Tags;

/// Layers under a name.
#[derive(Drop)]
struct Named {
    name: u64,
    layers: Layered,
}

impl HoldsVfs<MockRootResolver> for Named {
    ghost kept = { λ n. n.layers };

    ghost with_held = { λ n h. record n { layers = put_held n.layers h } };

    fn vfs(&self) -> &Layered {
        &self.layers
    }

    fn commit(&mut self, batch: &Batch) -> Result<u64, ReviseFault> {
        self.layers.commit(batch)
    }

    ghost holds = { λ n h. refl };
}

#[test]
fn batches_reach_a_holder(rt: HostRuntime) -> Result<(), Fail> {
    let alloc = rt.alloc();
    let layers = Vfs::new(alloc, MockRootResolver, &mut Tags::new())?;
    let mut named = Named { name: 7, layers };
    let mut batch = RevisingVfs::new(alloc, &mut named);
    batch.map_shadow("/a/.", holding(alloc, "x")?)?;
    assert_eq!(rt; batch.vfs().revision(), 2);
    assert_eq!(rt; batch.finish()?, 3);
    assert_eq!(rt; (named.name, named.layers.revision()), (7, 3));
    assert_eq!(rt;
        joined(alloc, &named.layers.shadow_paths()?)?.as_str(),
        "/a "
    );
    Ok(())
}
