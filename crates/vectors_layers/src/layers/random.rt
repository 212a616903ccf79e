//! Thousands of items of fixed seeds, in batches of one and of many, beside plain rows: one for each path.
use crate::files::holding;
use crate::layers::made::{Layered, ids_of, joined, path};
use crate::layers::versions::is_clean;
use std::alloc::Global;
use std::test::Fail;
use tinymist_vfs::{FileChangeSet, Item, MockRootResolver, RevisingVfs, Vfs};
use ty_cells::{DummyAccessModel, OwnCells};
use ty_path::CleanPath;
use ty_syntax::{FileId, Tags};

/// The paths, ascending.
static PATHS: [&str; 6] = ["/w/a", "/w/b", "/w/c", "/w/d", "/w/e", "/w/f"];

/// What the files hold.
static TEXTS: [&str; 3] = ["x", "y", "zz"];

/// What stands at a path, and what stood there before the batch. An empty text stands for nothing.
#[derive(Drop)]
struct Row {
    path: &'static str,
    shadow: &'static str,
    told: &'static str,
    shadow_before: &'static str,
    told_before: &'static str,
    dropped: bool,
    changed: u64,
}

impl Row {
    fn new(path: &'static str) -> Row {
        Row {
            path,
            shadow: "",
            told: "",
            shadow_before: "",
            told_before: "",
            dropped: false,
            changed: 0,
        }
    }

    fn drop_shadow(&mut self) {
        self.shadow = "";
        self.dropped = true;
    }

    fn drop_told(&mut self) {
        self.told = "";
        self.dropped = true;
    }

    /// An item at this path.
    fn change(&mut self, kind: u64, text: &'static str) {
        match kind {
            0 | 1 => self.shadow = text,
            2 => self.drop_shadow(),
            3 | 4 => self.told = text,
            _ => self.drop_told(),
        }
    }

    /// The item that empties the overlays.
    fn clear(&mut self) {
        if !self.shadow.is_empty() {
            self.drop_shadow();
        }
    }

    fn differs(&self) -> bool {
        self.dropped || self.shadow != self.shadow_before || self.told != self.told_before
    }

    /// Ends a batch, and answers whether it made the path other.
    fn end_batch(&mut self, revision: u64) -> bool {
        let differs = self.differs();
        if differs {
            self.changed = revision;
        }
        self.shadow_before = self.shadow;
        self.told_before = self.told;
        self.dropped = false;
        differs
    }

    /// What a read of the path gives, where there is a file.
    fn text(&self) -> &'static str {
        if self.shadow.is_empty() {
            self.told
        } else {
            self.shadow
        }
    }
}

/// The next number of a sequence.
fn next(x: u64) -> u64 {
    x.wrapping_mul(6364136223846793005)
        .wrapping_add(1442695040888963407)
}

fn telling(alloc: Global, at: &str, text: &str) -> Result<Item, Fail> {
    let files = vec![in alloc; (path(alloc, at)?, holding(alloc, text)?)]?;
    Ok(Item::ChangeSet(FileChangeSet::new_inserts(alloc, files)))
}

fn removing(alloc: Global, at: &str) -> Result<Item, Fail> {
    let paths = vec![in alloc; path(alloc, at)?]?;
    Ok(Item::ChangeSet(FileChangeSet::new_removes(alloc, paths)))
}

/// The item that a number names at a path with a text.
fn item_for(alloc: Global, kind: u64, at: &str, text: &str) -> Result<Item, Fail> {
    match kind {
        0 | 1 => Ok(Item::MapPath(CleanPath::new(alloc, at)?, holding(alloc, text)?)),
        2 => Ok(Item::UnmapPath(CleanPath::new(alloc, at)?)),
        3 | 4 => telling(alloc, at, text),
        5 => removing(alloc, at),
        _ => Ok(Item::Clear),
    }
}

/// The same item at the rows.
fn apply(rows: &mut [Row], kind: u64, at: &str, text: &'static str) {
    for row in rows.iter_mut() {
        if kind > 5 {
            row.clear();
        } else if row.path == at {
            row.change(kind, text);
        }
    }
}

/// Ends a batch, and answers the revision after it.
fn end_batch(rows: &mut [Row], revision: u64) -> u64 {
    let next = revision.saturating_add(1);
    let mut after = revision;
    for row in rows.iter_mut() {
        if row.end_batch(next) {
            after = next;
        }
    }
    after
}

/// Whether a read of the id gives this text, or fails where it is empty.
fn reads_as(live: &Layered, id: &FileId, text: &str) -> bool {
    let mut disk = DummyAccessModel::new();
    let mut cells = OwnCells::new(&mut disk);
    match live.read(&mut cells, id) {
        Ok(bytes) => bytes.as_slice() == text.as_bytes(),
        Err(_) => text.is_empty(),
    }
}

/// Whether a read of the row's path gives its text, and the path is clean where the row says so.
fn shows_row(alloc: Global, live: &Layered, row: &Row, since: u64) -> Result<bool, Fail> {
    let ids = ids_of(alloc, &[row.path])?;
    let read = ids.first().is_some_and(|id| reads_as(live, id, row.text()));
    let clean = is_clean(live, since, &ids)?;
    Ok(read && clean == (row.changed <= since))
}

/// The paths with a shadow, with a space behind each.
fn shadows(alloc: Global, rows: &[Row]) -> Result<String, Fail> {
    let mut paths = String::new(alloc);
    for row in rows {
        if !row.shadow.is_empty() {
            paths.push_str(row.path)?;
            paths.push(' ')?;
        }
    }
    Ok(paths)
}

/// Whether the layers show what the rows do.
fn shows(alloc: Global, live: &Layered, rows: &[Row], since: u64) -> Result<bool, Fail> {
    for row in rows {
        if !shows_row(alloc, live, row, since)? {
            return Ok(false);
        }
    }
    let paths = joined(alloc, &live.shadow_paths()?)?;
    Ok(paths.as_str() == shadows(alloc, rows)?.as_str())
}

/// Gathers one item in a batch, and in the rows.
fn gather(
    alloc: Global,
    batch: &mut RevisingVfs<'_, MockRootResolver>,
    rows: &mut [Row],
    x: u64,
) -> Result<(), Fail> {
    let at = PATHS[((x >> 33) % 6) as usize];
    let text = TEXTS[((x >> 40) % 3) as usize];
    let kind = (x >> 50) % 7;
    batch.push(item_for(alloc, kind, at, text)?)?;
    apply(rows, kind, at, text);
    Ok(())
}

/// A batch of one or of four items. Answers whether it raised the revision as the rows do, and that revision.
fn step(
    alloc: Global,
    live: &mut Layered,
    rows: &mut [Row],
    revision: u64,
    x: u64,
) -> Result<Option<u64>, Fail> {
    let mut batch = live.revise()?;
    let mut item = x;
    let items = if x >> 62 == 0 { 4 } else { 1 };
    for _ in 0..items {
        item = next(item);
        gather(alloc, &mut batch, rows, item)?;
    }
    let after = end_batch(rows, revision);
    Ok((batch.finish()? == after).then_some(after))
}

/// Runs a seed, and answers whether the layers showed what the rows did after each batch.
fn agrees(alloc: Global, seed: u64, batches: u32) -> Result<bool, Fail> {
    let mut live = Vfs::new(alloc, MockRootResolver, &mut Tags::new())?;
    let mut rows = Vec::new(alloc);
    for at in PATHS {
        rows.push(Row::new(at))?;
    }
    let mut x = seed;
    let mut revision = 2;
    for _ in 0..batches {
        x = next(next(x));
        match step(alloc, &mut live, &mut rows, revision, x)? {
            Some(after) => revision = after,
            None => return Ok(false),
        }
        if !shows(alloc, &live, &rows, revision / 10 * 10)? {
            return Ok(false);
        }
    }
    Ok(true)
}

#[test]
fn ten_thousand_items_beside_plain_rows(rt: HostRuntime) -> Result<(), Fail> {
    for seed in [1, 2, 3] {
        assert!(rt; agrees(rt.alloc(), seed, 2000)?, "seed {seed}");
    }
    Ok(())
}
