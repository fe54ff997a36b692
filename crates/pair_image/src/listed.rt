// The codes and the entries of an image, one after another.
ghost use Rattle.std.specs.Prelude.{◌≡◌, ◌^◌, ◌<◌, List, drop, slice_get, OnSome};
ghost use Rattle.std.specs.Iterator.{YieldsFirst, item_count};
ghost use Rattle.pair_image.specs.Calls.{parts_of};
ghost use Rattle.pair_image.specs.Format.{Parts};

use crate::reader::Image;
use pairs::pair::PairEntry;
use std::marker::PhantomData;
use ternary::words::{StateCode, StateNo};

/// What an image has a list of.
pub trait Listed: Drop {
    // The list in the parts of an image.
    ghost listed: { Parts → List Self };

    // An item by its place in the list, and none past the last.
    fn get(image: &Image<'_>, index: usize) -> Option<Self>
        ensures value { result ≡ slice_get (listed (parts_of image.now)) index }
        ensures few { OnSome result (index < 2 ^ 16) };
}

impl Listed for StateCode {
    ghost listed = { λ p. p.codes };

    fn get(image: &Image<'_>, index: usize) -> Option<StateCode> {
        if index >= image.header().states as usize {
            return None;
        }
        image.code(StateNo(index as u16))
    }
}

impl Listed for PairEntry {
    ghost listed = { λ p. p.entries };

    fn get(image: &Image<'_>, index: usize) -> Option<PairEntry> {
        if index >= image.header().entries as usize {
            return None;
        }
        image.entry(index)
    }
}

/// The items of a list of an image, from `next` on.
#[derive(Drop)]
pub struct Items<'a, T> {
    image: Image<'a>,
    next: usize,
    of: PhantomData<T>,
}

impl<T: Listed> Iterator for Items<'_, T> {
    type Item = T;

    ghost next_gives = { YieldsFirst (λ s. drop s.next (T.listed (parts_of s.image))) };

    ghost remaining = { item_count (λ s. drop s.next (T.listed (parts_of s.image))) };

    fn next(&mut self) -> Option<T> {
        let item = T::get(&self.image, self.next)?;
        self.next += 1;
        Some(item)
    }
}

impl<'a, T> Items<'a, T> {
    // All items of an image's list.
    fn all(image: Image<'a>) -> Items<'a, T>
        ensures image { result.image ≡ image.entry }
        ensures next { result.next ≡ 0 }
    {
        Items {
            image,
            next: 0,
            of: PhantomData,
        }
    }
}

impl<'a> Image<'a> {
    /// The codes of the states, in state order.
    pub fn codes(&self) -> Items<'a, StateCode>
        ensures image { result.image ≡ self.now }
        ensures next { result.next ≡ 0 }
    {
        Items::all(*self)
    }

    /// The entries, in their sequence.
    pub fn entries(&self) -> Items<'a, PairEntry>
        ensures image { result.image ≡ self.now }
        ensures next { result.next ≡ 0 }
    {
        Items::all(*self)
    }
}
