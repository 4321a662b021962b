// A list of at most so many values in a place of fixed size: keeping and copying it takes no memory. It relies on
// `blank` for what stands in the places that are not in use.

ghost use Rattle.std.specs.Prelude.{⊤, ◌≡◌, ◌<◌, ◌≤◌, ◌+◌, ◌-◌, ◌↔◌, [], ◌∷◌, ◌++◌, length, take, IsTrue, slice_index_or, slice_set};
ghost use Rattle.std.specs.Cmp.Lexicographic.{pointwise, lists_per, lists_equiv};
ghost use Rattle.base.specs.Padded.{padded};

use crate::blank::Blank;
use std::alloc::AllocError;
use std::marker::Model;

/// From 0 to `N` values. Contracts see the list of them.
#[derive(Copy, Debug)]
pub struct PaddedList<T: Blank, const N: usize> {
    // the values, then blank ones
    places: [T; N],
    len: usize,
}

impl<T: Blank, const N: usize> Model for PaddedList<T, N> {
    ghost use Rattle.std.specs.Prelude.{List, length, take};
    ghost use Rattle.std.specs.Coded.{coded_list};
    ghost use Rattle.base.specs.Padded.{padded, IsPadded, length-kept};

    ghost Value = { List T };

    ghost coded = { coded_list T.code };

    ghost view = { λ l. take l.len l.places };

    ghost invariant = { λ l. IsPadded T.blank N l.places l.len };

    ghost inverse = { λ xs. record { places = padded T.blank N xs; len = length xs } };

    ghost inverse_ok = { λ l is i. record { places = is.rest i; len = length-kept T.blank N l.places l.len is i } };
}

impl<T: Blank, const N: usize> PaddedList<T, N> {
    /// No values.
    #[inline(always)]
    pub fn none() -> Self
        ensures { result ≡ [] }
    {
        PaddedList {
            places: [T::blank(); N],
            len: 0,
        }
    }

    /// A copy of these values, at most `N` of them.
    pub fn copied(values: &[T]) -> Self
        requires { length values.now ≤ N }
        ensures { result ≡ values.now }
    {
        let mut places = [T::blank(); N];
        places[..values.len()].copy_from_slice(values);
        PaddedList {
            places,
            len: values.len(),
        }
    }

    /// How many values there are.
    #[inline(always)]
    pub fn len(&self) -> usize
        ensures count { result ≡ length self.now }
        ensures few { result ≤ N }
    {
        self.len
    }

    /// Whether there is none.
    #[inline(always)]
    pub fn is_empty(&self) -> bool
        ensures { IsTrue result ↔ (self.now ≡ []) }
    {
        self.len == 0
    }

    /// The values.
    #[inline(always)]
    pub fn as_slice(&self) -> &[T]
        ensures values { result.now ≡ self.now }
        ensures few { length self.now ≤ N }
    {
        &self.places[..self.len]
    }

    /// The values, and after them blank ones up to `N`.
    #[inline(always)]
    pub fn padded(&self) -> &[T; N]
        ensures { result.now ≡ padded T.blank N self.now }
    {
        &self.places
    }

    /// The value at a place, the first being 0.
    #[inline(always)]
    pub fn at(&self, place: usize) -> &T
        requires { place < length self.now }
        ensures { result.now ≡ slice_index_or self.now place result.now }
    {
        // The proof knows how many values there are once a field is read.
        let _len = self.len;
        &self.places[place]
    }

    /// Puts another value at a place.
    #[inline(always)]
    pub fn set(&mut self, place: usize, value: T)
        requires { place < length self.old }
        ensures { self.new ≡ slice_set self.old place value }
    {
        let _len = self.len;
        self.places[place] = value;
    }

    /// One value more, which comes last.
    #[inline(always)]
    pub fn push(&mut self, value: T)
        requires { length self.old < N }
        ensures { self.new ≡ self.old ++ value ∷ [] }
    {
        let len = self.len;
        self.places[len] = value;
        self.len = len + 1;
    }

    /// One blank value more, which comes last. No place is touched.
    #[inline(always)]
    pub fn push_blank(&mut self)
        requires { length self.old < N }
        ensures { self.new ≡ self.old ++ T.blank ∷ [] }
    {
        self.len += 1;
    }

    /// Takes the last value.
    #[inline(always)]
    pub fn pop(&mut self) -> T
        requires { 0 < length self.old }
        ensures { self.old ≡ self.new ++ result ∷ [] }
    {
        self.len -= 1;
        let value = self.places[self.len];
        self.places[self.len] = T::blank();
        value
    }

    /// All but the last value.
    #[inline(always)]
    pub fn remove_last(&mut self)
        requires { 0 < length self.old }
        ensures { self.new ≡ take (length self.old - 1) self.old }
    {
        self.len -= 1;
        self.places[self.len] = T::blank();
    }

    /// No value any more. Only places that are in use are touched.
    #[inline(always)]
    pub fn clear(&mut self)
        ensures { self.new ≡ [] }
    {
        while self.len() > 0 {
            self.remove_last();
        }
    }

    /// Makes this list the other one. Only places that are in use here or there are looked at.
    #[inline(always)]
    pub fn copy_from(&mut self, other: &Self)
        ensures { self.new ≡ other.now }
    {
        let end = self.len.max(other.len);
        for place in 0..end {
            self.places[place] = other.places[place];
        }
        self.len = other.len;
    }

    /// Whether both are the same values in the same order. Only places that are in use are looked at.
    #[inline(always)]
    pub fn is_same(&self, other: &Self) -> bool
        ensures { IsTrue result ↔ (self.now ≡ other.now) }
    {
        if self.len != other.len {
            return false;
        }
        for place in 0..self.len {
            if !self.places[place].is_same(&other.places[place]) {
                return false;
            }
        }
        true
    }
}

impl<T: Blank, const N: usize> Clone for PaddedList<T, N> {
    ghost is_clone = { λ l copy. copy ≡ l };

    ghost is_infallible = { λ _. ⊤ };

    fn clone(&self) -> Result<Self, AllocError> {
        Ok(*self)
    }
}

impl<T: Blank + PartialEq, const N: usize> PartialEq for PaddedList<T, N> {
    ghost eq = { pointwise T.eq };

    ghost laws = { lists_per T.laws };

    /// Whether both have as many values, and equal ones at each place.
    #[inline(always)]
    fn eq(&self, other: &Self) -> bool {
        self.as_slice() == other.as_slice()
    }
}

impl<T: Blank + Eq, const N: usize> Eq for PaddedList<T, N> {
    ghost laws = { lists_equiv T.Eq.laws };
}
