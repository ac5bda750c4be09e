// The queue of waiting rows: a binary heap in the first places of a lent table, least first.
ghost use Rattle.std.specs.Prelude.{◌≡◌, ℕ, ◌+◌, ◌-◌, ◌*◌, ◌<◌, ◌≤◌, ◌∷◌, length, IfSome, Some, slice_get, slice_index_or, slice_set};
ghost use Rattle.std.specs.List.Sorted.{IsPermutation};
ghost use Rattle.std.specs.List.{swap};
ghost use Rattle.std.specs.BinaryHeap.Sift.{SiftsUp, SiftsDown, IsGreaterChild};
ghost use Rattle.search.specs.declared.entry.Waiting.{Waiting};
ghost use Rattle.search.specs.Lending.{SameTable};
ghost use Rattle.search.specs.Queues.{waitings, places, queue, sooner, Queued, Least, Lowered, turned_order, Placed, Fresh};

use crate::entry::{Entry, Waiting};
use tariff::Tariff;

// The row that waits at a place.
pub(crate) fn waiting_at<C: Copy>(table: &[Entry<C>], at: usize) -> Waiting<C>
    requires { at < length table.now }
    ensures { result ≡ slice_index_or (waitings table.now) at result }
{
    table[at].waiting
}

// The rows that wait, in the first `count` places of a table: first the least by the tariff.
#[derive(Drop)]
pub(crate) struct Queue<'t, 'q, T: Tariff> {
    pub(crate) tariff: &'t T,
    pub(crate) table: &'q mut [Entry<T::Charge>],
    pub(crate) count: usize,
    ghost fits: { (count ≤ length table.now) × (count ≤ 65536) },
}

impl<T: Tariff> Queue<'_, '_, T> {
    // Does one row come before the other: a smaller charge, or the same and a lower number?
    fn is_sooner(&self, a: Waiting<T::Charge>, b: Waiting<T::Charge>) -> bool
        ensures { result ≡ sooner (T.charges self.now.tariff.now).le a b }
    {
        let by_charge = self.tariff.compare(a.charge, b.charge);
        by_charge.then(a.row.cmp(&b.row)).is_lt()
    }

    // The row that waits at a place.
    fn waiting_at(&self, at: usize) -> Waiting<T::Charge>
        requires { at < length self.now.table.now }
        ensures { result ≡ slice_index_or (waitings self.now.table.now) at result }
    {
        waiting_at(self.table, at)
    }

    // Lets a row wait at a place, and notes the place, if the table has a note for the row.
    fn put(&mut self, at: usize, waiting: Waiting<T::Charge>)
        requires { at < self.old.count }
        ensures waits { waitings self.new.table.now ≡ slice_set (waitings self.old.table.now) at waiting }
        ensures places { places self.new.table.now ≡ slice_set (places self.old.table.now) waiting.row at }
        ensures kept { SameTable self.old.table self.new.table × (self.new.tariff ≡ self.old.tariff) }
        ensures count { self.new.count ≡ self.old.count }
    {
        self.table[at].waiting = waiting;
        let note = waiting.row as usize;
        // By its number: of what is written through `get_mut` only the length is known afterwards.
        if note < self.table.len() {
            self.table[note].place = at as u16;
        }
    }

    // The place that is noted for a row, if the table has a note for it.
    fn place_of(&self, row: u16) -> Option<usize>
        ensures { result ≡ slice_get (places self.now.table.now) row }
    {
        let entry = self.table.get(row as usize)?;
        Some(entry.place as usize)
    }

    // The place where a row waits, if its note tells of one.
    fn find(&self, row: u16) -> Option<usize>
        ensures found { IfSome result (λ k. (k < self.now.count) × ((d : Waiting T.Charge) → (slice_index_or (waitings self.now.table.now) k d).row ≡ row)) }
        ensures noted { IfSome result (λ k. slice_get (places self.now.table.now) row ≡ Some k) }
        ensures each { Placed self.now.count self.now.table.now → (k : ℕ) (d : Waiting T.Charge) → k < self.now.count → (slice_index_or (queue self.now.count self.now.table.now) k d).row ≡ row → result ≡ Some k }
    {
        let place = self.place_of(row)?;
        if place < self.count && self.waiting_at(place).row == row {
            return Some(place);
        }
        None
    }

    // Exchanges two waiting rows.
    fn exchange(&mut self, first: usize, second: usize)
        requires { (first < self.old.count) × (second < self.old.count) }
        ensures swapped { queue self.old.count self.new.table.now ≡ swap (queue self.old.count self.old.table.now) first second }
        ensures noted { Placed self.old.count self.old.table.now → Placed self.old.count self.new.table.now }
        ensures kept { SameTable self.old.table self.new.table × (self.new.tariff ≡ self.old.tariff) }
        ensures count { self.new.count ≡ self.old.count }
    {
        let down = self.waiting_at(first);
        let up = self.waiting_at(second);
        self.put(first, up);
        self.put(second, down);
    }

    // Moves the row at `start` up, until none above it comes later.
    fn rise(&mut self, start: usize)
        requires { start < self.old.count }
        ensures shuffled { IsPermutation (queue self.old.count self.old.table.now) (queue self.old.count self.new.table.now) }
        ensures rises { SiftsUp (turned_order (T.charges self.old.tariff.now).le) (queue self.old.count self.old.table.now) start (queue self.old.count self.new.table.now) }
        ensures noted { Placed self.old.count self.old.table.now → Placed self.old.count self.new.table.now }
        ensures kept { SameTable self.old.table self.new.table × (self.new.tariff ≡ self.old.tariff) }
        ensures count { self.new.count ≡ self.old.count }
    {
        let mut place = start;
        // A counted loop: the heap climbs by halves, which no iterator of the library does.
        while 0 < place {
            let above = (place - 1) / 2;
            let here = self.waiting_at(place);
            let up = self.waiting_at(above);
            if !self.is_sooner(here, up) {
                return;
            }
            self.exchange(above, place);
            place = above;
        }
    }

    // The sooner of the rows below `place`.
    fn sooner_below(&self, place: usize) -> usize
        requires { 2 * place + 1 < self.now.count }
        ensures bound { (result < self.now.count) × (place * 2 + 1 ≤ result) × (result ≤ place * 2 + 2) }
        ensures best { IsGreaterChild (turned_order (T.charges self.now.tariff.now).le) (queue self.now.count self.now.table.now) place result self.now.count }
    {
        let left = 2 * place + 1;
        if self.count <= left + 1 {
            return left;
        }
        let one = self.waiting_at(left);
        let other = self.waiting_at(left + 1);
        if self.is_sooner(one, other) {
            return left;
        }
        left + 1
    }

    // Moves the first row down, until none below it comes sooner.
    fn sink(&mut self)
        ensures shuffled { IsPermutation (queue self.old.count self.old.table.now) (queue self.old.count self.new.table.now) }
        ensures sinks { SiftsDown (turned_order (T.charges self.old.tariff.now).le) (queue self.old.count self.old.table.now) 0 self.old.count (queue self.old.count self.new.table.now) }
        ensures noted { Placed self.old.count self.old.table.now → Placed self.old.count self.new.table.now }
        ensures kept { SameTable self.old.table self.new.table × (self.new.tariff ≡ self.old.tariff) }
        ensures count { self.new.count ≡ self.old.count }
    {
        let mut place = 0;
        // A counted loop: the heap sinks by doubles, which no iterator of the library does.
        while place < self.count / 2 {
            let below = self.sooner_below(place);
            let here = self.waiting_at(place);
            let down = self.waiting_at(below);
            if !self.is_sooner(down, here) {
                return;
            }
            self.exchange(place, below);
            place = below;
        }
    }

    // Puts a row into the queue.
    pub(crate) fn push(&mut self, waiting: Waiting<T::Charge>)
        requires { (self.old.count < length self.old.table.now) × (self.old.count < 65536) }
        ensures held { IsPermutation (waiting ∷ queue self.old.count self.old.table.now) (queue (self.old.count + 1) self.new.table.now) }
        ensures queued { Queued (T.charges self.old.tariff.now).le (queue self.old.count self.old.table.now) → Queued (T.charges self.old.tariff.now).le (queue (self.old.count + 1) self.new.table.now) }
        ensures noted { Fresh waiting (queue self.old.count self.old.table.now) → waiting.row < length self.old.table.now → Placed self.old.count self.old.table.now → Placed (self.old.count + 1) self.new.table.now }
        ensures kept { SameTable self.old.table self.new.table × (self.new.tariff ≡ self.old.tariff) }
        ensures count { self.new.count ≡ self.old.count + 1 }
    {
        let last = self.count;
        self.count += 1;
        self.put(last, waiting);
        self.rise(last);
    }

    // Takes the first of the queue.
    pub(crate) fn pop(&mut self) -> Waiting<T::Charge>
        requires { 0 < self.old.count }
        ensures held { IsPermutation (queue self.old.count self.old.table.now) (result ∷ queue (self.old.count - 1) self.new.table.now) }
        ensures queued { Queued (T.charges self.old.tariff.now).le (queue self.old.count self.old.table.now) → Queued (T.charges self.old.tariff.now).le (queue (self.old.count - 1) self.new.table.now) }
        ensures least { Queued (T.charges self.old.tariff.now).le (queue self.old.count self.old.table.now) → Least (T.charges self.old.tariff.now).le result (queue self.old.count self.old.table.now) }
        ensures noted { Placed self.old.count self.old.table.now → Placed (self.old.count - 1) self.new.table.now }
        ensures kept { SameTable self.old.table self.new.table × (self.new.tariff ≡ self.old.tariff) }
        ensures count { self.new.count + 1 ≡ self.old.count }
    {
        let first = self.waiting_at(0);
        let end = self.count - 1;
        let last = self.waiting_at(end);
        self.put(0, last);
        self.count = end;
        self.sink();
        first
    }

    // Lets a waiting row come as early as its new charge says, if that is earlier.
    pub(crate) fn lower(&mut self, waiting: Waiting<T::Charge>) -> bool
        ensures held { Placed self.old.count self.old.table.now → Lowered (T.charges self.old.tariff.now).le waiting (queue self.old.count self.old.table.now) (queue self.old.count self.new.table.now) result }
        ensures queued { Queued (T.charges self.old.tariff.now).le (queue self.old.count self.old.table.now) → Queued (T.charges self.old.tariff.now).le (queue self.old.count self.new.table.now) }
        ensures noted { Placed self.old.count self.old.table.now → Placed self.old.count self.new.table.now }
        ensures kept { SameTable self.old.table self.new.table × (self.new.tariff ≡ self.old.tariff) }
        ensures count { self.new.count ≡ self.old.count }
    {
        let Some(place) = self.find(waiting.row) else {
            return false;
        };
        let held = self.waiting_at(place);
        if !self.is_sooner(waiting, held) {
            return false;
        }
        self.put(place, waiting);
        self.rise(place);
        true
    }
}
