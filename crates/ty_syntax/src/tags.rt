//! The counters from which tags of ids and numbers of spaces are drawn.
ghost use Rattle.std.specs.Prelude.{◌≡◌, ◌+◌, ◌-◌, ◌^◌, ◌<◌, OnErr, IfOk, IsErr, IfErr, ◌↔◌};

use std::marker::Model;
use thiserror::Error;
use ty_path::OutOfMemory;

/// Why no number was drawn.
#[derive(Clone, Copy, Debug, PartialEq, Eq, Error)]
pub enum TagFault {
    /// The counter stands at its last value.
    #[error("the counter stands at its last value")]
    Full,
    /// No memory was left.
    #[error("out of memory")]
    OutOfMemory,
}

impl From<OutOfMemory> for TagFault {
    ghost use Rattle.ty_syntax.specs.declared.tags.TagFault.TheVariants.{OutOfMemory as no_memory};

    ghost from_gives = { λ _ fault. fault ≡ no_memory };

    fn from(_: OutOfMemory) -> Self {
        TagFault::OutOfMemory
    }
}

/// Two counters: a number that was drawn is never drawn again. Contracts see the numbers that come next.
#[derive(Drop)]
pub struct Tags {
    next_id: u64,
    next_space: u64,
}

impl Model for Tags {
    ghost use Rattle.ty_model.specs.Counters.{Counters};

    ghost Value = { Counters };

    ghost view = { λ t. record { next_id = t.next_id; next_space = t.next_space } };
}

impl Tags {
    /// Tags 1 and 2 are those of the detached entry and of the main file in memory.
    pub fn new() -> Tags
        ensures { result ≡ record { next_id = 3; next_space = 1 } }
    {
        Tags {
            next_id: 3,
            next_space: 1,
        }
    }

    /// Counters that stand at these numbers.
    pub fn at(next_id: u64, next_space: u64) -> Tags
        ensures { result ≡ record { next_id = next_id; next_space = next_space } }
    {
        Tags {
            next_id,
            next_space,
        }
    }

    /// The tag of a new id. It takes no memory.
    pub fn fresh_id(&mut self) -> Result<u64, TagFault>
        ensures ok { IfOk result (λ n. (n ≡ self.old.next_id) × (self.new ≡ record self.old { next_id = n + 1 })) }
        ensures err { OnErr result (self.new ≡ self.old) }
        ensures full { IfErr result (λ fault. fault ≡ TagFault.Full) }
        ensures exact { IsErr result ↔ (self.old.next_id ≡ 2 ^ 64 - 1) }
    {
        let tag = self.next_id()?;
        self.spend_id();
        Ok(tag)
    }

    /// The tag that comes next, which is not spent by this.
    pub(crate) fn next_id(&self) -> Result<u64, TagFault>
        ensures ok { IfOk result (λ n. (n ≡ self.now.next_id) × (n < 2 ^ 64 - 1)) }
        ensures full { IfErr result (λ fault. fault ≡ TagFault.Full) }
        ensures exact { IsErr result ↔ (self.now.next_id ≡ 2 ^ 64 - 1) }
    {
        if self.next_id == u64::MAX {
            return Err(TagFault::Full);
        }
        Ok(self.next_id)
    }

    pub(crate) fn spend_id(&mut self)
        requires { self.old.next_id < 2 ^ 64 - 1 }
        ensures { self.new ≡ record self.old { next_id = self.old.next_id + 1 } }
    {
        self.next_id += 1;
    }

    /// The number of a new space. It takes no memory.
    pub fn fresh_space(&mut self) -> Result<u64, TagFault>
        ensures ok { IfOk result (λ n. (n ≡ self.old.next_space) × (self.new ≡ record self.old { next_space = n + 1 })) }
        ensures err { OnErr result (self.new ≡ self.old) }
        ensures full { IfErr result (λ fault. fault ≡ TagFault.Full) }
        ensures exact { IsErr result ↔ (self.old.next_space ≡ 2 ^ 64 - 1) }
    {
        if self.next_space == u64::MAX {
            return Err(TagFault::Full);
        }
        let space = self.next_space;
        self.next_space = space + 1;
        Ok(space)
    }
}
