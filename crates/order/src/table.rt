// A table of at most `N` things, which lie in the table itself, with the line of those that it holds.
ghost use Rattle.std.specs.Prelude.{◌≡◌, ◌<◌, ◌≤◌, [], length, nat_lt, IfSome, slice_set, slice_get, remove};
ghost use Rattle.order.specs.Lines.{appended, at_place, joined, told};

use crate::line::Line;
use crate::ordering::Ordering;
use std::marker::Model;

#[derive(Drop)]
pub struct Table<T, const N: usize> {
    places: [T; N],
    line: Line,
}

// Clauses see those in line, the first at the head.
impl<T, const N: usize> Model for Table<T, N> {
    ghost use Rattle.std.specs.Prelude.{◌≡◌, List, length};
    ghost use Rattle.order.specs.Lines.{lined};

    ghost Value = { List T };

    ghost view = { λ t. lined t.line t.places };

    ghost invariant = { λ t. length t.places ≡ N };
}

impl<T: Copy, const N: usize> Table<T, N> {
    // An empty table. What stands in the places that the line does not count is never read.
    pub fn new(blank: T) -> Table<T, N>
        ensures empty { result ≡ [] }
    {
        Table {
            places: [blank; N],
            line: Line::new(),
        }
    }

    // Those in line, the first at the front.
    pub fn all(&self) -> &[T]
        ensures line { result.now ≡ self.now }
        ensures within { length result.now ≤ N }
    {
        self.line.all(&self.places)
    }

    // Puts the item before the first that is behind it, and tells its place, from 1, if there is a place left.
    pub fn join<O: Ordering<Item = T>>(&mut self, order: &O, item: T) -> Option<usize>
        ensures place { result ≡ told N (O.Ordering.standing order.now) item self.old }
        ensures within { IfSome result (λ place. (0 < place) × (place ≤ N)) }
        ensures line { self.new ≡ joined N (O.Ordering.standing order.now) item self.old }
    {
        self.line.join(&mut self.places, order, item)
    }

    // Puts the item last, if there is a place left, and says whether there was, as `Line::append` does.
    pub fn append(&mut self, item: T) -> bool
        ensures room { result ≡ nat_lt (length self.old) N }
        ensures line { self.new ≡ appended N item self.old }
    {
        self.line.append(&mut self.places, item)
    }

    // The one that stands first, if any.
    pub fn first(&self) -> Option<T>
        ensures item { result ≡ at_place 1 self.now }
    {
        self.line.first(&self.places)
    }

    // Takes out the one at the index, if any, and closes the gap.
    pub fn remove(&mut self, index: usize) -> Option<T>
        ensures item { result ≡ slice_get self.old index }
        ensures line { self.new ≡ remove self.old index }
    {
        self.line.remove(&mut self.places, index.checked_add(1)?)
    }

    // Puts the item in the place of the one at the index, if any.
    pub fn put(&mut self, index: usize, item: T)
        ensures line { self.new ≡ slice_set self.old index item }
    {
        if let Some(place) = index.checked_add(1) {
            self.line.put(&mut self.places, place, item);
        }
    }
}
