//! The lists in messages: a `Vec` that contracts see as a list.

ghost use Rattle.std.specs.Prelude.{◌≡◌, ◌==◌, length};

use std::cmp::PartialEq;
use std::marker::Model;

/// A list that a message owns. Contracts see its elements in order. It is made of a `Vec` by `new` and gives it back by
/// `into_vec`, both without taking memory.
#[derive(Debug, Drop)]
pub struct Items<T> {
    vec: Vec<T>,
}

impl<T> Model for Items<T> {
    ghost use Rattle.std.specs.Prelude.{List};

    ghost Value = { List T };

    ghost view = { λ a. a.vec.items };
}

impl<T> Items<T> {
    pub fn new(vec: Vec<T>) -> Self
        ensures { result ≡ vec.items }
    {
        Items { vec }
    }

    pub fn as_slice(&self) -> &[T]
        ensures { result.now ≡ self.now }
    {
        self.vec.as_slice()
    }

    pub fn len(&self) -> usize
        ensures { result ≡ length self.now }
    {
        self.vec.len()
    }

    pub fn is_empty(&self) -> bool
        ensures { result ≡ (length self.now == 0) }
    {
        self.vec.is_empty()
    }

    pub fn into_vec(self) -> Vec<T>
        ensures { result.items ≡ self }
    {
        let Items { vec } = self;
        vec
    }
}

impl<T: PartialEq> PartialEq for Items<T> {
    ghost use Rattle.std.specs.Cmp.Lexicographic.{pointwise, lists_per};

    ghost eq = { pointwise T.eq };

    ghost laws = { lists_per T.laws };

    fn eq(&self, other: &Items<T>) -> bool {
        self.vec == other.vec
    }
}
