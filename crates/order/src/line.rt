// A line of things of one kind, kept in the first places of a slice that is lent at each call.
ghost use Rattle.std.specs.Prelude.{◌≡◌, ◌+◌, ◌-◌, ◌<◌, ◌≤◌, length, IfSome, MatchBool, MatchOption, nat_lt};
ghost use Rattle.order.specs.declared.standing.Standing.{Standing};
ghost use Rattle.std.specs.List.{insert};
ghost use Rattle.order.specs.Lines.{place_of, joined, told, appended, at_place, without, put_at, lined, laid, Ordered, Amid};

use crate::ordering::Ordering;

// How many places of the slice are taken. A line over a shorter slice than it counts has all of the slice's places.
// The slice is lent at each call, since its owner keeps it in fixed memory, so the line has its length alone.
#[derive(Clone, Copy, Debug, Default, PartialEq, Eq)]
pub struct Line {
    len: usize,
}

impl Line {
    pub fn new() -> Line
        ensures empty { result.len ≡ 0 }
    {
        Line { len: 0 }
    }

    // A line of so many.
    pub fn of(len: usize) -> Line
        ensures count { result.len ≡ len }
    {
        Line { len }
    }

    // Those in line, the first at the front.
    pub fn all<'a, T>(&self, places: &'a [T]) -> &'a [T]
        ensures line { result.now ≡ lined self.now places.now }
        ensures bound { length result.now ≤ length places.now }
        ensures slots { laid result.now places.now ≡ places.now }
    {
        &places[..self.len.min(places.len())]
    }

    // Puts the item before the first that is behind it, and tells its place, from 1. In a line in order that is behind
    // all that are ahead of it or level with it. It is turned away exactly when every place of the slice holds one.
    pub fn join<O: Ordering>(
        &mut self,
        places: &mut [O::Item],
        order: &O,
        item: O::Item,
    ) -> Option<usize>
    where
        O::Item: Copy,
        ensures place { result ≡ told (length places.old) (O.Ordering.standing order.now) item (lined self.old places.old) }
        ensures within { IfSome result (λ place. (0 < place) × (place ≤ length places.old)) }
        ensures line { lined self.new places.new ≡ joined (length places.old) (O.Ordering.standing order.now) item (lined self.old places.old) }
        ensures slots { places.new ≡ laid (joined (length places.old) (O.Ordering.standing order.now) item (lined self.old places.old)) places.old }
        ensures count { MatchOption result (self.new ≡ self.old) (λ _. self.new.len ≡ self.old.len + 1) }
        ensures ordered { Ordered (O.Ordering.standing order.now) (lined self.old places.old) → Ordered (O.Ordering.standing order.now) (lined self.new places.new) }
        ensures amid { Ordered (O.Ordering.standing order.now) (lined self.old places.old) → IfSome result (λ place. Amid (O.Ordering.standing order.now) item (place - 1) (lined self.old places.old)) }
    {
        let line = self.all(places);
        if line.len() == places.len() {
            return None;
        }
        let place = place_for(line, order, &item);
        self.insert(places, place, item);
        Some(place + 1)
    }

    // Puts the item last, whatever its standing; it is turned away exactly when every place holds one. Whether it was
    // put is a plain `bool`, as at `HashSet::insert`: an error would only hand back an item that the caller can copy.
    pub fn append<T: Copy>(&mut self, places: &mut [T], item: T) -> bool
        ensures room { result ≡ nat_lt (length (lined self.old places.old)) (length places.old) }
        ensures line { lined self.new places.new ≡ appended (length places.old) item (lined self.old places.old) }
        ensures slots { places.new ≡ laid (appended (length places.old) item (lined self.old places.old)) places.old }
        ensures count { MatchBool result (self.new.len ≡ self.old.len + 1) (self.new ≡ self.old) }
    {
        let last = self.all(places).len();
        if last == places.len() {
            return false;
        }
        self.insert(places, last, item);
        true
    }

    // The one that stands first, if any.
    pub fn first<T: Copy>(&self, places: &[T]) -> Option<T>
        ensures item { result ≡ at_place 1 (lined self.now places.now) }
    {
        self.all(places).first().copied()
    }

    // The one at the place, from 1, if any.
    pub fn at<T: Copy>(&self, places: &[T], place: usize) -> Option<T>
        ensures item { result ≡ at_place place (lined self.now places.now) }
        ensures cases { MatchOption result (without place (lined self.now places.now) ≡ lined self.now places.now) (λ _. (0 < place) × (place ≤ length (lined self.now places.now))) }
    {
        self.all(places).get(place.checked_sub(1)?).copied()
    }

    // Takes out the one at the place, from 1, if any, and closes the gap.
    pub fn remove<T: Copy>(&mut self, places: &mut [T], place: usize) -> Option<T>
        ensures item { result ≡ at_place place (lined self.old places.old) }
        ensures line { lined self.new places.new ≡ without place (lined self.old places.old) }
        ensures slots { places.new ≡ laid (without place (lined self.old places.old)) places.old }
        ensures count { MatchOption result (self.new ≡ self.old) (λ _. self.new.len ≡ length (without place (lined self.old places.old))) }
        ensures ordered { (cmp : T → T → Standing) → Ordered cmp (lined self.old places.old) → Ordered cmp (lined self.new places.new) }
    {
        let gone = self.at(places, place)?;
        self.close_gap(places, place);
        Some(gone)
    }

    // Puts the item in the place of the one that stands there, from 1, if any.
    pub fn put<T: Copy>(&self, places: &mut [T], place: usize, item: T)
        ensures line { lined self.now places.new ≡ put_at place item (lined self.now places.old) }
        ensures slots { places.new ≡ laid (put_at place item (lined self.now places.old)) places.old }
    {
        let count = self.all(places).len();
        put_at(&mut places[..count], place, item);
    }

    // Moves those from the index on up by one, and puts the item into the gap.
    fn insert<T: Copy>(&mut self, places: &mut [T], index: usize, item: T)
        requires within { index ≤ length (lined self.old places.old) }
        requires room { length (lined self.old places.old) < length places.old }
        ensures line { lined self.new places.new ≡ insert (lined self.old places.old) index item }
        ensures slots { places.new ≡ laid (insert (lined self.old places.old) index item) places.old }
        ensures count { self.new.len ≡ self.old.len + 1 }
    {
        places.copy_within(index..self.len, index + 1);
        places[index] = item;
        self.len += 1;
    }

    // Moves those behind the place down by one.
    fn close_gap<T: Copy>(&mut self, places: &mut [T], place: usize)
        requires some { 0 < place }
        requires within { place ≤ length (lined self.old places.old) }
        ensures line { lined self.new places.new ≡ without place (lined self.old places.old) }
        ensures slots { places.new ≡ laid (without place (lined self.old places.old)) places.old }
        ensures count { self.new.len ≡ length (without place (lined self.old places.old)) }
        ensures ordered { (cmp : T → T → Standing) → Ordered cmp (lined self.old places.old) → Ordered cmp (lined self.new places.new) }
    {
        let len = self.all(places).len();
        places.copy_within(place..len, place - 1);
        self.len = len - 1;
    }
}

// The index of the item's place. Put there, the item keeps a line in order; this follows from the two laws. It is a
// function of its own, since beside the chain of the next one the proof did not close.
fn place_for<O: Ordering>(line: &[O::Item], order: &O, item: &O::Item) -> usize
    ensures within { result ≤ length line.now }
    ensures place { result ≡ place_of (O.Ordering.standing order.now) item.now line.now }
    ensures ordered { Ordered (O.Ordering.standing order.now) line.now → Ordered (O.Ordering.standing order.now) (insert line.now result item.now) }
    ensures amid { Ordered (O.Ordering.standing order.now) line.now → Amid (O.Ordering.standing order.now) item.now result line.now }
{
    count_ahead(line, order, item)
}

// How many stand in front of the first that is behind the item.
fn count_ahead<O: Ordering>(line: &[O::Item], order: &O, item: &O::Item) -> usize
    ensures within { result ≤ length line.now }
    ensures place { result ≡ place_of (O.Ordering.standing order.now) item.now line.now }
{
    line.iter()
        .take_while(|other| order.compare(other, item).not_behind())
        .count()
}

// Puts the item at the place, from 1; where there is no such place, nothing changes.
pub fn put_at<T: Copy>(places: &mut [T], place: usize, item: T)
    ensures places { places.new ≡ put_at place item places.old }
{
    let Some(index) = place.checked_sub(1) else {
        return;
    };
    if index < places.len() {
        places[index] = item;
    }
}
