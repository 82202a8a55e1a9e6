//! A vector that contracts see as the list of its items.

ghost use Rattle.std.specs.Prelude.{◌≡◌};

use std::marker::Model;

/// The items of a vector. Contracts see a `List` as the list, wherever it stands: in a field, in
/// a variant, in another `List`. None of its calls takes memory.
#[derive(Debug, Drop)]
pub struct List<T> {
    vec: Vec<T>,
}

impl<T> Model for List<T> {
    ghost use Rattle.std.specs.Prelude.{List as Items};

    ghost Value = { Items T };

    ghost view = { λ a. a.vec.items };
}

impl<T> List<T> {
    /// The items of the vector.
    pub fn of(v: Vec<T>) -> List<T>
        ensures { result ≡ v.items }
    {
        List { vec: v }
    }

    /// The items, as the vector that holds them.
    pub fn items(&self) -> &Vec<T>
        ensures { result.now.items ≡ self.now }
    {
        &self.vec
    }

    /// The vector itself.
    pub fn into_items(self) -> Vec<T>
        ensures { result.items ≡ self }
    {
        let List { vec } = self;
        vec
    }
}
