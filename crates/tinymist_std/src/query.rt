//! Cells that are computed once, whose answers can be relied upon through a note.
ghost use Rattle.std.specs.Prelude.{◌≡◌, None, Some, Ok, MatchOption};
ghost use Rattle.std.specs.Option.{ForNone, option_map};
ghost use Rattle.tinymist_std.specs.Query.{Tells};

use once_cell::race::OnceBox;
use std::alloc::Global;
use std::fmt::Display;
use thiserror::Error;
use ty_path::OutOfMemory;

/// Why a query gave no value.
#[derive(Clone, Copy, Debug, PartialEq, Eq, Error)]
#[error_bound(E: Display)]
pub enum QueryFault<'a, E> {
    /// The query failed with this error, which stays.
    #[error("{0}")]
    Query(&'a E),
    /// Memory ran out, and the note knows nothing.
    #[error("out of memory")]
    OutOfMemory,
}

/// A value, or the context that its query is given.
#[derive(Drop)]
enum Origin<T, C> {
    Value(T),
    Context(C),
}

/// A value that is computed once. Threads that ask together may each compute one; the first to
/// finish is kept.
#[derive(Drop)]
pub struct QueryRef<T, E, C = ()> {
    alloc: Global,
    origin: Origin<T, C>,
    cell: OnceBox<Result<T, E>>,
}

/// What a caller has learned of one `QueryRef`.
#[derive(Drop)]
pub struct Note<T, E> {
    seen: once_cell::race::Note<Result<T, E>>,
}

impl<T: Drop, E: Drop, C> QueryRef<T, E, C> {
    ghost use Rattle.tinymist_std.specs.Query.{Agree, Answers, IsNoteOf, Stays, Tells, known_result, known_value};

    /// A query whose value is known.
    pub fn with_value(alloc: Global, value: T) -> QueryRef<T, E, C>
        ensures { known_value result ≡ Some value }
    {
        QueryRef {
            alloc,
            origin: Origin::Value(value),
            cell: OnceBox::new(alloc),
        }
    }

    /// A query that is computed in a context.
    pub fn with_context(alloc: Global, ctx: C) -> QueryRef<T, E, C>
        ensures { known_value result ≡ None }
    {
        QueryRef {
            alloc,
            origin: Origin::Context(ctx),
            cell: OnceBox::new(alloc),
        }
    }

    /// A note that knows nothing but the value that the query was made with.
    pub fn note(&self) -> Note<T, E>
        ensures note { IsNoteOf self.now result }
        ensures known { known_result self.now result ≡ option_map Ok (known_value self.now) }
    {
        Note {
            seen: self.cell.note(),
        }
    }

    /// The value, computed by `f` where there is none yet. Of a query that was made with its value
    /// this is that value, and `f` isn't called.
    pub fn compute<'a, F: FnOnce() -> Result<T, E> + Drop>(
        &'a self,
        f: F,
        note: &mut Note<T, E>,
    ) -> Result<&'a T, QueryFault<'a, E>>
        requires note { IsNoteOf self.now note.old }
        requires callable { ForNone (known_value self.now) (F.pre f) }
        ensures note { IsNoteOf self.now note.new }
        ensures answer { Answers (known_result self.now note.new) result }
        ensures stays { Stays (known_result self.now note.old) (known_result self.now note.new) }
    {
        if let Origin::Value(value) = &self.origin {
            return Ok(value);
        }
        self.settle(f, note)
    }

    /// The value, computed by `f` of the context where there is none yet. Of a query that was made
    /// with its value this is that value, and `f` isn't called.
    pub fn compute_with_context<'a, F: FnOnce(&C) -> Result<T, E> + Drop>(
        &'a self,
        f: F,
        note: &mut Note<T, E>,
    ) -> Result<&'a T, QueryFault<'a, E>>
        requires note { IsNoteOf self.now note.old }
        requires callable { ForNone (known_value self.now) (F.IsAlwaysCallable f) }
        ensures note { IsNoteOf self.now note.new }
        ensures answer { Answers (known_result self.now note.new) result }
        ensures stays { Stays (known_result self.now note.old) (known_result self.now note.new) }
    {
        match &self.origin {
            Origin::Value(value) => Ok(value),
            Origin::Context(ctx) => self.settle(
                move ||
                    requires { F.IsAlwaysCallable f }
                { f(ctx) },
                note,
            ),
        }
    }

    /// The value or the error, where there is one, and the note then knows it; `None` only where the
    /// note knows none. No memory is taken.
    pub fn get_uninitialized<'a>(
        &'a self,
        note: &mut Note<T, E>,
    ) -> Option<Result<&'a T, QueryFault<'a, E>>>
        requires note { IsNoteOf self.now note.old }
        ensures note { IsNoteOf self.now note.new }
        ensures answer { MatchOption result (known_result self.now note.new ≡ None)
            (Tells (known_result self.now note.new)) }
        ensures stays { Stays (known_result self.now note.old) (known_result self.now note.new) }
    {
        if let Origin::Value(value) = &self.origin {
            return Some(Ok(value));
        }
        Some(answer(self.cell.get_as(&mut note.seen)?))
    }

    /// Two notes of one query that know a result know the same one.
    pub fn compare(&self, note: &mut Note<T, E>, other: Note<T, E>)
        requires note { IsNoteOf self.now note.old }
        requires other { IsNoteOf self.now other }
        ensures note { IsNoteOf self.now note.new }
        ensures known { known_result self.now note.new ≡ known_result self.now note.old }
        ensures agree { Agree (known_result self.now note.old) (known_result self.now other) }
    {
        note.seen.compare(other.seen);
    }

    /// The kept result, or else that of `f`, which is kept.
    fn settle<'a, F: FnOnce() -> Result<T, E> + Drop>(
        &'a self,
        f: F,
        note: &mut Note<T, E>,
    ) -> Result<&'a T, QueryFault<'a, E>>
        requires fresh { known_value self.now ≡ None }
        requires note { IsNoteOf self.now note.old }
        requires callable { F.pre f }
        ensures note { IsNoteOf self.now note.new }
        ensures answer { Answers (known_result self.now note.new) result }
        ensures stays { Stays (known_result self.now note.old) (known_result self.now note.new) }
    {
        let alloc = self.alloc;
        let kept: Result<&'a Result<T, E>, OutOfMemory> = self.cell.get_or_try_init_as(
            move ||
                requires { F.pre f }
            { Ok(Box::new(alloc, f())?) },
            &mut note.seen,
        );
        match kept {
            Ok(result) => answer(result),
            Err(_) => Err(QueryFault::OutOfMemory),
        }
    }
}

/// A kept result as an answer.
fn answer<T, E>(kept: &Result<T, E>) -> Result<&T, QueryFault<'_, E>>
    ensures { Tells (Some kept.now) result }
{
    match kept {
        Ok(value) => Ok(value),
        Err(error) => Err(QueryFault::Query(error)),
    }
}
