//! Worked tables of the maps, over keys and values that own memory too, shares that only sharing survives, and maps
//! that threads share.
ghost use Rattle.std.specs.Prelude.{◌≡◌, ◌<◌, ℕ, IfOk};
ghost use Rattle.std.specs.String.{string_bytes};

use std::alloc::Global;
use std::marker::Brand;
use std::sync::Arc;
use std::sync::atomic::{AtomicU64, Ordering};
use std::sync::ledger::{Blank, Ledger};
use std::thread;
use std::thread::Threads;
use ty_path::{CleanPath, ImmutPath, OutOfMemory, Share};
use ty_persist::{Map, Steps};
use ty_persist_plain::ListMap;

// ---- one table of commands for both forms

#[derive(Drop, Clone, Copy)]
enum Command {
    Insert(u64, u64),
    Remove(u64),
    Get(u64),
}

// Commands, and what each answers.
static TABLE: [(Command, Option<u64>); 22] = [
    (Command::Get(5), None),
    (Command::Remove(5), None),
    (Command::Insert(5, 50), None),
    (Command::Insert(3, 30), None),
    (Command::Insert(8, 80), None),
    (Command::Insert(9, 90), None),
    (Command::Insert(7, 70), None),
    (Command::Insert(5, 51), Some(50)),
    (Command::Get(5), Some(51)),
    (Command::Get(6), None),
    (Command::Get(9), Some(90)),
    (Command::Remove(3), Some(30)),
    (Command::Remove(3), None),
    (Command::Remove(4), None),
    (Command::Insert(1, 10), None),
    (Command::Insert(2, 20), None),
    (Command::Insert(3, 31), None),
    (Command::Insert(4, 40), None),
    (Command::Remove(5), Some(51)),
    (Command::Insert(1, 11), Some(10)),
    (Command::Get(1), Some(11)),
    (Command::Get(5), None),
];

// The entries after all of the table.
static LEFT: [(u64, u64); 7] = [
    (1, 11),
    (2, 20),
    (3, 31),
    (4, 40),
    (7, 70),
    (8, 80),
    (9, 90),
];

// A map that can be given commands.
trait Obeys: Drop {
    fn obey<L: Ledger>(
        &mut self,
        command: Command,
        steps: &mut Steps<L>,
    ) -> Result<Option<u64>, OutOfMemory>;

    fn entries(&self, alloc: Global) -> Result<Vec<(u64, u64)>, OutOfMemory>;
}

impl Obeys for Map<u64, u64> {
    fn obey<L: Ledger>(
        &mut self,
        command: Command,
        steps: &mut Steps<L>,
    ) -> Result<Option<u64>, OutOfMemory> {
        match command {
            Command::Insert(key, value) => self.insert(key, value, steps),
            Command::Remove(key) => self.remove(&key, steps),
            Command::Get(key) => Ok(self.get(&key).copied()),
        }
    }

    fn entries(&self, alloc: Global) -> Result<Vec<(u64, u64)>, OutOfMemory> {
        let mut made = Vec::new(alloc);
        for (key, value) in self.iter() {
            made.push((*key, *value))?;
        }
        Ok(made)
    }
}

impl Obeys for ListMap<u64, u64> {
    fn obey<L: Ledger>(
        &mut self,
        command: Command,
        steps: &mut Steps<L>,
    ) -> Result<Option<u64>, OutOfMemory> {
        match command {
            Command::Insert(key, value) => self.insert(key, value, steps),
            Command::Remove(key) => self.remove(&key, steps),
            Command::Get(key) => Ok(self.get(&key).copied()),
        }
    }

    fn entries(&self, alloc: Global) -> Result<Vec<(u64, u64)>, OutOfMemory> {
        let mut made = Vec::new(alloc);
        for (key, value) in self.iter() {
            made.push((*key, *value))?;
        }
        Ok(made)
    }
}

// How many commands of the table answer as it says, up to the first that doesn't.
fn obeyed<M: Obeys, L: Ledger>(map: &mut M, blank: Blank) -> Result<usize, OutOfMemory>
    requires name { blank.name ≡ L.name }
    requires parts { blank.parts ≡ L.parts }
    requires some { 0 < L.parts }
{
    let mut steps: Steps<L> = Steps::new(blank);
    for (row, (command, answer)) in TABLE.iter().enumerate() {
        if map.obey(*command, &mut steps)? != *answer {
            return Ok(row);
        }
    }
    Ok(TABLE.len())
}

#[test]
fn the_tree_obeys(rt: HostRuntime) -> Result<(), OutOfMemory> {
    let mut map: Map<u64, u64> = Map::new(rt.alloc());
    assert!(rt; map.is_empty());
    assert_eq!(rt; obeyed::<_, Brand>(&mut map, Blank::new(1))?, TABLE.len());
    assert_eq!(rt; map.entries(rt.alloc())?.as_slice(), LEFT.as_slice());
    assert_eq!(rt; map.len(), LEFT.len());
    assert!(rt; !map.is_empty());
    Ok(())
}

#[test]
fn the_list_obeys(rt: HostRuntime) -> Result<(), OutOfMemory> {
    let mut map: ListMap<u64, u64> = ListMap::new(rt.alloc());
    assert!(rt; map.is_empty());
    assert_eq!(rt; obeyed::<_, Brand>(&mut map, Blank::new(1))?, TABLE.len());
    assert_eq!(rt; map.entries(rt.alloc())?.as_slice(), LEFT.as_slice());
    assert_eq!(rt; map.len(), LEFT.len());
    assert!(rt; !map.is_empty());
    Ok(())
}

// ---- older versions

// 1 to 1000 upwards, a share after each hundred, and all keys taken out of the last map downwards. Answers the shares.
fn shares_of_each_hundred<L: Ledger>(
    alloc: Global,
    blank: Blank,
) -> Result<Vec<Map<u64, u64>>, OutOfMemory>
    requires name { blank.name ≡ L.name }
    requires parts { blank.parts ≡ L.parts }
    requires some { 0 < L.parts }
{
    let mut steps: Steps<L> = Steps::new(blank);
    let mut map: Map<u64, u64> = Map::new(alloc);
    let mut kept = Vec::new(alloc);
    for key in 1..1001 {
        map.insert(key, key, &mut steps)?;
        if key % 100 == 0 {
            kept.push(map.share(&mut steps)?)?;
        }
    }
    for key in 0..1000 {
        map.remove(&(1000 - key), &mut steps)?;
    }
    Ok(kept)
}

// How many keys a map has, if they are 1, 2 and so on, each its own value.
fn count_upwards(map: &Map<u64, u64>) -> Option<u64> {
    let mut last = 0;
    for (key, value) in map.iter() {
        if last == u64::MAX || *key != last + 1 || *value != *key {
            return None;
        }
        last += 1;
    }
    Some(last)
}

#[test]
fn older_versions_stay(rt: HostRuntime) -> Result<(), OutOfMemory> {
    let kept = shares_of_each_hundred::<Brand>(rt.alloc(), Blank::new(1))?;
    assert_eq!(rt; kept.len(), 10);
    for (i, map) in kept.iter().enumerate() {
        assert_eq!(rt; count_upwards(map), Some(100 * (i as u64 + 1)));
    }
    Ok(())
}

// ---- how often keys and values are shared

// A number whose shares are counted.
#[derive(Drop)]
#[derive_where(PartialEq, Eq, PartialOrd, Ord)]
struct Counted {
    number: u64,
    #[derive_where(skip(EqHashOrd))]
    shares: Arc<AtomicU64>,
}

impl Share for Counted {
    ghost Seen = { ℕ };

    ghost seen = { λ c. c.number };

    fn share(&self, _alloc: Global) -> Result<Counted, OutOfMemory> {
        self.shares.fetch_add(1, Ordering::SeqCst);
        made(self.number, &self.shares)
    }
}

fn made(number: u64, shares: &Arc<AtomicU64>) -> Result<Counted, OutOfMemory>
    ensures { IfOk result (λ c. c.number ≡ number) }
{
    Ok(Counted {
        number,
        shares: Arc::try_clone(shares)?,
    })
}

// How often keys and values were shared.
#[derive(Drop)]
struct Tally {
    keys: Arc<AtomicU64>,
    values: Arc<AtomicU64>,
}

impl Tally {
    fn new(alloc: Global) -> Result<Tally, OutOfMemory> {
        Ok(Tally {
            keys: Arc::new(alloc, AtomicU64::new(0))?,
            values: Arc::new(alloc, AtomicU64::new(0))?,
        })
    }

    // The shares since the last call.
    fn taken(&self) -> (u64, u64) {
        (
            self.keys.swap(0, Ordering::SeqCst),
            self.values.swap(0, Ordering::SeqCst),
        )
    }

    fn put<L: Ledger>(
        &self,
        map: &mut Map<Counted, Counted>,
        number: u64,
        steps: &mut Steps<L>,
    ) -> Result<(), OutOfMemory> {
        let key = made(number, &self.keys)?;
        let value = made(number, &self.values)?;
        map.insert(key, value, steps)?;
        Ok(())
    }
}

// The shares of keys and of values that a share of a map of 1000 made, an `insert` of a new key into it, and a `remove`.
fn shares_made<L: Ledger>(alloc: Global, blank: Blank) -> Result<[(u64, u64); 3], OutOfMemory>
    requires name { blank.name ≡ L.name }
    requires parts { blank.parts ≡ L.parts }
    requires some { 0 < L.parts }
{
    let mut steps: Steps<L> = Steps::new(blank);
    let tally = Tally::new(alloc)?;
    let mut map: Map<Counted, Counted> = Map::new(alloc);
    for number in 0..1000 {
        tally.put(&mut map, number, &mut steps)?;
    }
    tally.taken();
    let mut other = map.share(&mut steps)?;
    let by_share = tally.taken();
    tally.put(&mut other, 5000, &mut steps)?;
    let by_insert = tally.taken();
    let key = made(500, &tally.keys)?;
    other.remove(&key, &mut steps)?;
    Ok([by_share, by_insert, tally.taken()])
}

#[test]
fn no_share_copies_entries(rt: HostRuntime) -> Result<(), OutOfMemory> {
    let [share, insert, remove] = shares_made::<Brand>(rt.alloc(), Blank::new(1))?;
    assert_eq!(rt; share, (0, 0));
    assert!(rt; insert.0 <= 80 && insert.1 <= 80);
    assert!(rt; remove.0 <= 80 && remove.1 <= 80);
    Ok(())
}

// ---- only sharing survives

// How many keys the shared map has, and how often it is shared.
const KEYS: u64 = 100_000;

const SHARES: u64 = 10_000;

// Each number below the bound, its own value.
fn numbered<L: Ledger>(
    alloc: Global,
    bound: u64,
    steps: &mut Steps<L>,
) -> Result<Map<u64, u64>, OutOfMemory> {
    let mut map = Map::new(alloc);
    for key in 0..bound {
        map.insert(key, key, steps)?;
    }
    Ok(map)
}

// Shares of a map, all held at once.
fn shares_of<L: Ledger>(
    alloc: Global,
    map: &Map<u64, u64>,
    count: u64,
    steps: &mut Steps<L>,
) -> Result<Vec<Map<u64, u64>>, OutOfMemory> {
    let mut kept = Vec::new(alloc);
    for _ in 0..count {
        kept.push(map.share(steps)?)?;
    }
    Ok(kept)
}

// Ten thousand shares of a map of a hundred thousand keys, after which the map changes.
fn many_shares<L: Ledger>(alloc: Global, blank: Blank) -> Result<Vec<Map<u64, u64>>, OutOfMemory>
    requires name { blank.name ≡ L.name }
    requires parts { blank.parts ≡ L.parts }
    requires some { 0 < L.parts }
{
    let mut steps: Steps<L> = Steps::new(blank);
    let mut map = numbered(alloc, KEYS, &mut steps)?;
    let kept = shares_of(alloc, &map, SHARES, &mut steps)?;
    map.insert(KEYS, 0, &mut steps)?;
    map.insert(7, 0, &mut steps)?;
    map.remove(&9, &mut steps)?;
    Ok(kept)
}

// Whether a map has each number below the bound, its own value, at the keys that changed later.
fn is_as_shared(map: &Map<u64, u64>) -> bool {
    map.len() as u64 == KEYS
        && map.get(&KEYS).is_none()
        && map.get(&7).copied() == Some(7)
        && map.get(&9).copied() == Some(9)
}

#[test]
fn many_shares_of_many_keys(rt: HostRuntime) -> Result<(), OutOfMemory> {
    let kept = many_shares::<Brand>(rt.alloc(), Blank::new(1))?;
    assert_eq!(rt; kept.len() as u64, SHARES);
    assert!(rt; kept.iter().all(is_as_shared));
    Ok(())
}

// ---- keys and values that own memory, through the bounds

// A text that a share of it copies.
#[derive(Drop, PartialEq, Eq, PartialOrd, Ord)]
struct Name {
    text: String,
}

impl Share for Name {
    ghost use Rattle.std.specs.Prelude.{ℕ, List};
    ghost use Rattle.std.specs.String.{string_bytes};

    ghost Seen = { List ℕ };

    ghost seen = { λ n. string_bytes n.text };

    fn share(&self, alloc: Global) -> Result<Name, OutOfMemory> {
        make_name(alloc, self.text.as_str())
    }
}

fn make_name(alloc: Global, text: &str) -> Result<Name, OutOfMemory>
    ensures { IfOk result (λ n. string_bytes n.text ≡ text.now) }
{
    Ok(Name {
        text: String::from_str(alloc, text)?,
    })
}

// Sets a key twice. Answers what the second call found, and what there is afterwards.
fn set_twice<K: Ord + Share, V: Share, L: Ledger>(
    alloc: Global,
    key: K,
    values: (V, V),
    blank: Blank,
) -> Result<(Option<V>, Option<V>), OutOfMemory>
    requires name { blank.name ≡ L.name }
    requires parts { blank.parts ≡ L.parts }
    requires some { 0 < L.parts }
{
    let mut steps: Steps<L> = Steps::new(blank);
    let mut map: Map<K, V> = Map::new(alloc);
    let again = key.share(alloc)?;
    let (first, second) = values;
    map.insert(key.share(alloc)?, first, &mut steps)?;
    let older = map.share(&mut steps)?;
    let before = map.insert(again, second, &mut steps)?;
    drop(older);
    let last = map.remove(&key, &mut steps)?;
    Ok((before, last))
}

#[test]
fn owned_values_come_back(rt: HostRuntime) -> Result<(), OutOfMemory> {
    let alloc = rt.alloc();
    let values = (make_name(alloc, "old")?, make_name(alloc, "new")?);
    let (before, last) = set_twice::<_, _, Brand>(
        alloc,
        make_name(alloc, "key")?,
        values,
        Blank::new(1),
    )?;
    assert_eq!(rt; before.as_ref().map(|n| n.text.as_str()), Some("old"));
    assert_eq!(rt; last.as_ref().map(|n| n.text.as_str()), Some("new"));
    Ok(())
}

// ---- look-ups by a text

fn path(alloc: Global, text: &str) -> Result<ImmutPath, OutOfMemory> {
    Ok(Arc::new(alloc, String::from_str(alloc, text)?)?)
}

fn of_paths<L: Ledger>(
    alloc: Global,
    blank: Blank,
) -> Result<(Map<ImmutPath, u64>, ListMap<ImmutPath, u64>), OutOfMemory>
    requires name { blank.name ≡ L.name }
    requires parts { blank.parts ≡ L.parts }
    requires some { 0 < L.parts }
{
    let mut steps: Steps<L> = Steps::new(blank);
    let mut tree = Map::new(alloc);
    let mut list = ListMap::new(alloc);
    for (i, text) in ["/b", "/a/c", "/a", ""].iter().enumerate() {
        tree.insert(path(alloc, text)?, i as u64, &mut steps)?;
        list.insert(path(alloc, text)?, i as u64, &mut steps)?;
    }
    let older = list.share(&mut steps)?;
    list.remove(&path(alloc, "/a")?, &mut steps)?;
    Ok((tree, older))
}

#[test]
fn texts_find_paths(rt: HostRuntime) -> Result<(), OutOfMemory> {
    let (tree, list) = of_paths::<Brand>(rt.alloc(), Blank::new(1))?;
    for (text, value) in [
        ("/a", Some(2)),
        ("/a/c", Some(1)),
        ("/a/", None),
        ("", Some(3)),
        ("/c", None),
    ] {
        assert_eq!(rt; tree.get_text(text).copied(), value, "at {text}");
        assert_eq!(rt; list.get_text(text).copied(), value, "at {text}");
    }
    Ok(())
}

// A clean path finds its value by itself and by its text.
#[test]
fn clean_paths_are_keys(rt: HostRuntime) -> Result<(), OutOfMemory> {
    let mut map = Map::new(rt.alloc());
    for (i, text) in ["/b", "/a/../a/c", "/a/"].iter().enumerate() {
        map.set(CleanPath::new(rt.alloc(), text)?, i as u64)?;
    }
    for (text, value) in [("/a/c", Some(1)), ("/a", Some(2)), ("/c", None)] {
        let path = CleanPath::new(rt.alloc(), text)?;
        assert_eq!(rt; map.get(&path).copied(), value, "at {text}");
        assert_eq!(rt; map.get_text(text).copied(), value, "at {text}");
    }
    assert_eq!(rt; map.get_text("/a/").copied(), None);
    Ok(())
}

// ---- threads

// A share of the map moves into another thread.
fn len_elsewhere<
    K: Ord + Share + Send + Sync + 'static,
    V: Share + Send + Sync + 'static,
    L: Ledger,
>(rt: &impl Threads, map: &Map<K, V>, steps: &mut Steps<L>) -> Result<usize, OutOfMemory> {
    let theirs = map.share(steps)?;
    match thread::spawn(rt, move || theirs.len()) {
        Ok(child) => Ok(child.join(rt)),
        Err(_) => Err(OutOfMemory),
    }
}

fn counted_elsewhere<L: Ledger>(
    rt: &impl Threads,
    map: &Map<ImmutPath, u64>,
    blank: Blank,
) -> Result<usize, OutOfMemory>
    requires name { blank.name ≡ L.name }
    requires parts { blank.parts ≡ L.parts }
    requires some { 0 < L.parts }
{
    let mut steps: Steps<L> = Steps::new(blank);
    len_elsewhere(rt, map, &mut steps)
}

#[test]
fn threads_share_a_map(rt: HostRuntime) -> Result<(), OutOfMemory> {
    let (tree, list) = of_paths::<Brand>(rt.alloc(), Blank::new(1))?;
    let (tree, list) = (&tree, &list);
    let found = thread::join(
        &rt,
        || tree.get_text("/a").copied(),
        || tree.get_text("/b").copied(),
    );
    assert_eq!(rt; found, (Some(2), Some(0)));
    let counted = thread::join(&rt, || list.iter().count(), || list.len());
    assert_eq!(rt; counted, (4, 4));
    assert_eq!(rt; counted_elsewhere::<Brand>(&rt, tree, Blank::new(1))?, 4);
    Ok(())
}

#[test]
fn calls_without_a_count(rt: HostRuntime) -> Result<(), OutOfMemory> {
    let mut map: Map<u64, u64> = Map::new(rt.alloc());
    map.set(1, 10)?;
    map.set(1, 11)?;
    assert_eq!(rt; map.replace(1, 12)?, Some(11));
    let before = map.snapshot()?;
    assert_eq!(rt; map.take(&1)?, Some(12));
    assert_eq!(rt; (map.get(&1), before.get(&1)), (None, Some(&12)));
    Ok(())
}
