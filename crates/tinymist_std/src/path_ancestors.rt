//! A path and its parents.
ghost use Rattle.std.specs.Prelude.{◌≡◌, Some};
ghost use Rattle.std.specs.Option.{option_copied};
ghost use Rattle.std.specs.Iterator.{at_most};
ghost use Rattle.std.specs.Path.Iter.{ancestors_left};
ghost use Rattle.tinymist_std.specs.PathAncestors.{StepsUp, path_next, path_stop};

use std::path::{Ancestors, Path};

/// A path and then its parents, up to a given one.
#[derive(Drop)]
pub struct PathAncestors<'a> {
    rest: Ancestors<'a>,
    stop: Option<&'a str>,
    is_done: bool,
}

impl<'a> PathAncestors<'a> {
    /// The path and then its parents, up to `stop` where it is one of them, and else to the end.
    pub(crate) fn new(path: &'a str, stop: Option<&'a str>) -> PathAncestors<'a>
        ensures first { path_next result ≡ Some path.now }
        ensures stop { path_stop result ≡ option_copied stop.entry }
    {
        PathAncestors {
            rest: Path::new(path).ancestors(),
            stop,
            is_done: false,
        }
    }
}

impl<'a> Iterator for PathAncestors<'a> {
    type Item = &'a str;

    ghost next_gives = { StepsUp };

    ghost remaining = { λ s. at_most (ancestors_left s.rest) };

    fn next(&mut self) -> Option<&'a str> {
        if self.is_done {
            return None;
        }
        let path = self.rest.next()?;
        if let Some(stop) = self.stop {
            self.is_done = path == Path::new(stop);
        }
        Some(path.as_str())
    }
}
