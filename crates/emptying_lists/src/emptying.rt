//! A list that is emptied from its front.
ghost use Rattle.std.specs.Prelude.{◌≡◌};
ghost use Rattle.emptying_lists.specs.Emptying.{TakesFirst};

use std::marker::Model;

/// The number of taken items after which memory is freed.
const PIECE: usize = 4_096;

/// A list whose items are taken one after another, from the first. It has memory for the items that
/// are left and at most 4,096 more, so the results made of them may take their place. Contracts see
/// the items that are left.
#[derive(Drop)]
pub struct EmptyingList<T> {
    // The last one first.
    backwards: Vec<T>,
}

impl<T> Model for EmptyingList<T> {
    ghost use Rattle.std.specs.Prelude.{List, reverse};

    ghost Value = { List T };

    ghost view = { λ l. reverse l.backwards.items };
}

impl<T> EmptyingList<T> {
    /// Makes a list that is to be emptied, of the items of another.
    pub fn new(items: Vec<T>) -> EmptyingList<T>
        ensures { result ≡ items.items }
    {
        let mut backwards = items;
        backwards.reverse();
        EmptyingList { backwards }
    }

    /// Takes the first item. Returns `None` if there is none.
    pub fn take_first(&mut self) -> Option<T>
        ensures { TakesFirst self.old self.new result }
    {
        let first = self.backwards.pop();
        if self.backwards.len() % PIECE == 0 {
            self.backwards.shrink_to_fit();
        }
        first
    }
}
