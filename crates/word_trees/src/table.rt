//! A number of each word.

ghost use Rattle.std.specs.Prelude.{◌≡◌, ◌<◌, ◌≤◌, ◌+◌, ◌*◌, ◌^◌, replicate, IfOk, length};
ghost use Rattle.word_trees.specs.Numbers.{most, raised};
ghost use Rattle.word_trees.specs.Trees.{wide};

use crate::nodes::{Node, greatest, raise};
use dx_base::Memory;
use std::alloc::Global;
use std::marker::Model;

/// A number of each word, 0 at first.
#[derive(Drop)]
pub struct Table {
    nodes: Vec<Node>,
    depth: usize,
    width: usize,
}

impl Model for Table {
    ghost use Rattle.std.specs.Prelude.{List, ℕ};
    ghost use Rattle.word_trees.specs.Trees.{words};
    ghost use Rattle.word_trees.specs.Tables.{IsTable};

    ghost Value = { List ℕ };

    ghost view = { λ t. words t.depth t.nodes.items };

    ghost invariant = { λ t. IsTable t.depth t.width t.nodes.items };
}

impl Table {
    /// A table of at least that many words, each with the number 0.
    pub fn new(alloc: Global, count: usize) -> Result<Table, Memory>
        requires { count ≤ 2 ^ 20 }
        ensures zeros { IfOk result (λ t. t ≡ replicate (length t) 0) }
        ensures room { IfOk result (λ t. count ≤ length t) }
        ensures no_waste { IfOk result (λ t. length t ≤ 2 * count + 1) }
    {
        let mut depth = 0;
        let mut width = 1;
        while width < count {
            width *= 2;
            depth += 1;
        }
        let nodes = vec![in alloc; Node { full: 0, top: 0 }; 2 * width - 1]?;
        Ok(Table {
            nodes,
            depth,
            width,
        })
    }

    /// Raises the numbers of the words from `first` to before `end`.
    pub fn raise(&mut self, first: usize, end: usize, number: u64)
        requires { first < end }
        ensures { self.new ≡ raised 0 first end number self.old }
    {
        raise(
            &mut self.nodes,
            self.depth,
            self.width,
            0,
            first,
            end,
            number,
        );
    }

    /// The greatest number of the words from `first` to before `end`.
    pub fn greatest(&self, first: usize, end: usize) -> u64
        requires { first < end }
        ensures { result ≡ most 0 first end self.now }
    {
        greatest(&self.nodes, self.depth, self.width, 0, first, end)
    }
}
