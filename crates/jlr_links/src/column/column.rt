//! A column of values.
ghost use Rattle.std.specs.Prelude.{◌≡◌, ◌<◌, ◌≤◌, IfOk, length, option_copied, replicate, slice_index_or, unwrap_or};
ghost use Rattle.std.specs.Prelude.{vec_capacity};
ghost use Rattle.jlr_links.specs.Columns.{IsLonger};
ghost use Rattle.std.specs.Borrow.{sem};

use crate::column::blank::Blank;
use std::alloc::{AllocError, Global};
use std::marker::Model;
use std::ops::{Index, IndexMut};

/// How many places are filled at once.
const AT_ONCE: usize = 64;

/// A value at each number below a length, which stays as it is.
#[derive(Drop)]
pub struct Column<T: Blank> {
    /// The values up to the highest place that was written to.
    front: Vec<T>,
    /// The value at each place behind.
    blank: T,
    length: usize,
}

impl<T: Blank> Model for Column<T> {
    ghost use Rattle.std.specs.Prelude.{List};
    ghost use Rattle.jlr_links.specs.Columns.{whole, IsColumn};

    ghost Value = { List T };

    ghost view = { λ c. whole c.front.items c.length c.blank };

    ghost invariant = { λ c. IsColumn c.front c.length c.blank T.nothing };
}

impl<T: Blank + Drop> Column<T> {
    /// A blank at each of so many places. All room is made at once, and none of it is written.
    ///
    /// # Errors
    /// `AllocError` where the room cannot be had.
    pub fn new(alloc: Global, length: u32) -> Result<Self, AllocError>
        ensures { IfOk result (λ column. column ≡ replicate length T.nothing) }
    {
        Ok(Column {
            front: Vec::with_capacity(alloc, length as usize)?,
            blank: T::blank(),
            length: length as usize,
        })
    }

    /// How many places there are.
    pub fn len(&self) -> usize
        ensures { result ≡ length self.now }
    {
        self.length
    }

    /// The value at a place. None stands for a blank, and for what is at no place.
    #[inline(always)]
    pub fn get(&self, index: usize) -> Option<&T>
        ensures { unwrap_or (option_copied result) T.nothing ≡ slice_index_or self.now index T.nothing }
    {
        self.front.get(index)
    }
}

impl<T: Blank + Drop> Index<usize> for Column<T> {
    type Output = T;

    ghost can_index = { λ c i. i < length c };

    ghost index_gives = { λ c i x. x ≡ slice_index_or c i x };

    #[inline(always)]
    fn index(&self, index: usize) -> &T
        requires { index < length self.now }
        ensures { result.now ≡ slice_index_or self.now index result.now }
    {
        match self.front.get(index) {
            Some(value) => value,
            None => &self.blank,
        }
    }
}

impl<T: Blank + Drop> IndexMut<usize> for Column<T> {
    ghost use Rattle.jlr_links.specs.Lends.{lends_place};

    #[inline(always)]
    fn index_mut(&mut self, index: usize) -> &mut T
        requires { index < length self.old }
        ensures* writes_back { sem 𝓛 (lends_place T.row T.Blank self.entry index result) }
        ensures value { result.now ≡ slice_index_or self.old index result.now }
    {
        reach(&mut self.front, index, self.length);
        &mut self.front[index]
    }
}

/// The front of a column of this length is written up to a place, with blanks: what the column holds stays as it is.
#[inline(always)]
fn reach<T: Blank + Drop>(front: &mut Vec<T>, index: usize, count: usize)
    requires place { index < count }
    requires room { count ≤ vec_capacity front.old }
    requires within { length front.old.items ≤ count }
    ensures reached { index < length front.new.items }
    ensures capacity { vec_capacity front.new ≡ vec_capacity front.old }
    ensures same { IsLonger count T.nothing front.old.items front.new.items }
{
    if front.len() <= index {
        fill(front, index, count);
    }
}

/// The same where a place was never written, and for some places behind it at once: such a write seldom comes alone.
#[inline(never)]
fn fill<T: Blank + Drop>(front: &mut Vec<T>, index: usize, count: usize)
    requires place { index < count }
    requires room { count ≤ vec_capacity front.old }
    requires within { length front.old.items ≤ count }
    ensures reached { index < length front.new.items }
    ensures capacity { vec_capacity front.new ≡ vec_capacity front.old }
    ensures same { IsLonger count T.nothing front.old.items front.new.items }
{
    let end = if count - index > AT_ONCE {
        index + AT_ONCE
    } else {
        count
    };
    while front.len() < end {
        front.push_reserved(T::blank());
    }
}
