// A list of at most N values, which needs no heap and can be copied.
#![tactic(auto)]

ghost use Rattle.std.specs.Prelude.{◌≡◌, ◌+◌, ◌-◌, ◌≤◌, ◌<◌, ◌==◌, ◌++◌, List, [], ◌∷◌, length, take, drop, replicate, slice_set, insert, remove, ⊤};

use std::alloc::AllocError;
use std::marker::Model;

// What the unused cells of a list hold.
pub trait Blank: Copy {
    ghost blank: { Self };

    fn blank() -> Self
        ensures { result ≡ blank };
}

impl Blank for u8 {
    ghost blank = { 0 };

    fn blank() -> u8 {
        0
    }
}

// At most N values. The cells behind them hold the blank, so that the values determine all cells.
#[derive(Copy)]
pub struct ShortList<T: Blank, const N: usize> {
    cells: [T; N],
    size: usize,
}

impl<T: Blank, const N: usize> Model for ShortList<T, N> {
    ghost use Rattle.std.specs.Prelude.{length, take};
    ghost use Rattle.text_list.specs.Cells.{Items, items_code, Fine, filled, determined};

    ghost Value = { Items T };

    ghost coded = { items_code T.code };

    ghost view = { λ l. record { items = take l.size l.cells } };

    ghost invariant = { λ l. Fine T.blank N l.cells l.size };

    ghost inverse = { λ v. record { cells = filled T.blank N v.items; size = length v.items } };

    ghost inverse_ok = { λ l h. let d = determined T.blank N l.cells l.size h in rw (d.0, d.1) };
}

impl<T: Blank, const N: usize> ShortList<T, N> {
    // No values.
    pub fn new() -> Self
        ensures { result.items ≡ [] }
    {
        ShortList {
            cells: [T::blank(); N],
            size: 0,
        }
    }

    // How many values there are.
    pub fn len(&self) -> usize
        ensures value { result ≡ length self.now.items }
        ensures fits { result ≤ N }
    {
        self.as_slice().len()
    }

    // The values.
    pub fn as_slice(&self) -> &[T]
        ensures value { result.now ≡ self.now.items }
        ensures fits { length result.now ≤ N }
    {
        &self.cells[..self.size]
    }

    // Whether there are none.
    pub fn is_empty(&self) -> bool
        ensures { result ≡ (length self.now.items == 0) }
    {
        self.size == 0
    }

    // Whether there is no room for one more.
    pub fn is_full(&self) -> bool
        ensures value { result ≡ (length self.now.items == N) }
        ensures fits { length self.now.items ≤ N }
    {
        self.size == N
    }

    // Another value at a place.
    pub fn set(&mut self, index: usize, value: T)
        requires { index < length self.old.items }
        ensures items { self.new.items ≡ slice_set self.old.items index value }
        ensures len { length self.new.items ≡ length self.old.items }
    {
        set_at(&mut self.cells, index, value);
    }

    // Other values from a place on.
    pub fn set_all(&mut self, index: usize, values: &[T])
        requires { index + length values.now ≤ length self.old.items }
        ensures items { self.new.items ≡ take index self.old.items ++ values.now ++ drop (index + length values.now) self.old.items }
        ensures len { length self.new.items ≡ length self.old.items }
    {
        write_at(&mut self.cells, index, values);
    }

    // One value more, at the end. There must be room for it.
    pub fn push(&mut self, value: T)
        requires { length self.old.items < N }
        ensures items { self.new.items ≡ self.old.items ++ value ∷ [] }
        ensures len { length self.new.items ≡ length self.old.items + 1 }
    {
        let size = self.size;
        set_at(&mut self.cells, size, value);
        self.size = size + 1;
    }

    // Values at the end. There must be room for them.
    pub fn extend_from_slice(&mut self, values: &[T])
        requires { length self.old.items + length values.now ≤ N }
        ensures items { self.new.items ≡ self.old.items ++ values.now }
        ensures len { length self.new.items ≡ length self.old.items + length values.now }
    {
        let size = self.size;
        write_at(&mut self.cells, size, values);
        self.size = size + values.len();
    }

    // One value more, at a place; the later ones move up. There must be room for it.
    pub fn insert(&mut self, index: usize, value: T)
        requires in_bounds { index ≤ length self.old.items }
        requires room { length self.old.items < N }
        ensures items { self.new.items ≡ insert self.old.items index value }
        ensures len { length self.new.items ≡ length self.old.items + 1 }
    {
        let size = self.size;
        insert_at(&mut self.cells, size, index, value);
        self.size = size + 1;
    }

    // The value at a place goes; the later ones move down.
    pub fn remove(&mut self, index: usize)
        requires { index < length self.old.items }
        ensures items { self.new.items ≡ remove self.old.items index }
        ensures len { length self.new.items + 1 ≡ length self.old.items }
    {
        let size = self.size;
        remove_at(&mut self.cells, size, index, T::blank());
        self.size = size - 1;
    }

    // All values go.
    pub fn clear(&mut self)
        ensures { self.new.items ≡ [] }
    {
        let size = self.size;
        write_blank(&mut self.cells, size, T::blank());
        self.size = 0;
    }
}

impl<T: Blank, const N: usize> Clone for ShortList<T, N> {
    ghost is_clone = { λ x y. y ≡ x };

    ghost is_infallible = { λ _. ⊤ };

    fn clone(&self) -> Result<Self, AllocError> {
        Ok(*self)
    }
}

// ---- the cells, of which the first `size` are used

// Another value in a cell.
fn set_at<T: Copy>(cells: &mut [T], index: usize, value: T)
    requires { index < length cells.old }
    ensures { cells.new ≡ slice_set cells.old index value }
{
    cells[index] = value;
}

// Values over the cells from a place on.
fn write_at<T: Copy>(cells: &mut [T], index: usize, values: &[T])
    requires { index + length values.now ≤ length cells.old }
    ensures { cells.new ≡ take index cells.old ++ values.now ++ drop (index + length values.now) cells.old }
{
    cells[index..index + values.len()].copy_from_slice(values);
}

// A value between the used cells: it takes one more.
fn insert_at<T: Copy>(cells: &mut [T], size: usize, index: usize, value: T)
    requires { (index ≤ size) × (size < length cells.old) }
    ensures { cells.new ≡ insert (take size cells.old) index value ++ drop (size + 1) cells.old }
{
    cells.copy_within(index..size, index + 1);
    cells[index] = value;
}

// The used cells but one; the last of them gets the blank.
fn remove_at<T: Copy>(cells: &mut [T], size: usize, index: usize, blank: T)
    requires { (index < size) × (size ≤ length cells.old) }
    ensures { cells.new ≡ remove (take size cells.old) index ++ blank ∷ drop size cells.old }
{
    cells.copy_within(index + 1..size, index);
    cells[size - 1] = blank;
}

// The blank over the used cells.
fn write_blank<T: Copy>(cells: &mut [T], size: usize, blank: T)
    requires { size ≤ length cells.old }
    ensures { cells.new ≡ replicate size blank ++ drop size cells.old }
{
    for i in 0..size {
        cells[i] = blank;
    }
}
