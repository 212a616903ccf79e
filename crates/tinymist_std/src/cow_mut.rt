//! A value that is owned or lent to be written.
ghost use Rattle.std.specs.Prelude.{◌≡◌, []};
ghost use Rattle.std.specs.Borrow.{Lends, sem};
ghost use mir.Syntax.{named};
ghost use Rattle.tinymist_std.specs.CowMut.{cow_value, cow_with};

/// An owned value, or one that is lent to be written.
#[derive(Drop)]
pub enum CowMut<'a, T> {
    /// The value itself.
    Owned(T),
    /// A value that stands elsewhere.
    Borrowed(&'a mut T),
}

impl<'a, T> CowMut<'a, T> {
    ghost use Rattle.tinymist_std.specs.contracts.cow_mut.CowMut.{the_row as cow_row};

    /// The value within.
    pub fn get(&self) -> &T
        ensures { result.now ≡ cow_value self.now }
    {
        match self {
            CowMut::Owned(value) => value,
            CowMut::Borrowed(value) => &**value,
        }
    }

    /// The value within, to be written. What is written is within afterwards.
    pub fn get_mut(&mut self) -> &mut T
        ensures* writes_back { sem 𝓛 (Lends (cow_row (record { mir = named 1; lft = [] }) T.row) T.row
            self.entry result (cow_with self.old)) }
        ensures value { result.now ≡ cow_value self.old }
    {
        match self {
            CowMut::Owned(value) => value,
            CowMut::Borrowed(value) => &mut **value,
        }
    }
}
