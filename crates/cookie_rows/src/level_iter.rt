//! An iterator over one level of the maps.
ghost use Rattle.std.specs.Prelude.{◌≡◌, ◌++◌, [], List, None, Some};
ghost use Rattle.std.specs.Slice.Iter.{iter_rest};
ghost use Rattle.cookie_rows.specs.LevelIters.{left_in};

use crate::hashing::HashKey;
use ordered_map::Values;
use std::marker::Model;
use std::slice;

/// An iterator over the values of a list or of a table, in order.
#[derive(Drop)]
pub(crate) struct LevelIter<'a, V> {
    list: slice::Iter<'a, V>,
    table: Option<Values<'a, V, HashKey>>,
}

impl<'a, V> Model for LevelIter<'a, V> {
    ghost Value = { List V };

    ghost view = { λ iter. iter_rest iter.list ++ left_in iter.table };
}

impl<'a, V> LevelIter<'a, V> {
    // Returns an iterator over these values.
    pub(crate) fn of_list(values: &'a [V]) -> LevelIter<'a, V>
        ensures { result ≡ values.now }
    {
        LevelIter {
            list: values.iter(),
            table: None,
        }
    }

    // Returns an iterator over the values of a table.
    pub(crate) fn of_table(values: Values<'a, V, HashKey>) -> LevelIter<'a, V>
        ensures { result ≡ values.entry }
    {
        LevelIter {
            list: ([]).iter(),
            table: Some(values),
        }
    }
}

impl<'a, V> Iterator for LevelIter<'a, V> {
    type Item = &'a V;

    ghost use Rattle.std.specs.Iterator.{YieldsFirstRef, item_count};

    ghost next_gives = { YieldsFirstRef (λ values. values) };

    ghost remaining = { item_count (λ values. values) };

    fn next(&mut self) -> Option<&'a V> {
        if let Some(value) = self.list.next() {
            return Some(value);
        }
        match &mut self.table {
            Some(values) => values.next(),
            None => None,
        }
    }
}
