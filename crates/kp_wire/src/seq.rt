//! A list whose contracts speak of its elements alone.

ghost use Rattle.std.specs.Prelude.{◌≡◌, List, length};

use std::marker::Model;

/// A list on the heap, seen as the list of its elements.
#[derive(Debug, Drop)]
pub struct Seq<T> {
    items: Vec<T>,
}

impl<T> Model for Seq<T> {
    ghost Value = { List T };

    ghost view = { λ seq. seq.items.items };
}

impl<T> Seq<T> {
    /// The elements of `items`, without a copy.
    pub fn new(items: Vec<T>) -> Self
        ensures { result ≡ items.items }
    {
        Seq { items }
    }

    pub fn as_slice(&self) -> &[T]
        ensures { result.now ≡ self.now }
    {
        self.items.as_slice()
    }

    pub fn len(&self) -> usize
        ensures { result ≡ length self.now }
    {
        self.items.len()
    }

    /// The elements, without a copy.
    pub fn into_vec(self) -> Vec<T>
        ensures { result.items ≡ self }
    {
        let Seq { items } = self;
        items
    }
}
