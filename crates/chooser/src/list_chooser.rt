//! A chooser that gives the numbers of a list.

ghost use Rattle.std.specs.Prelude.{◌≡◌, [], ◌∷◌, ◌++◌, length, None, Some, IfOk, OnErr};
ghost use Rattle.chooser.specs.Listed.{listed};

use crate::choice::Chooser;
use dx_base::Memory;
use std::alloc::Global;
use std::marker::Model;

/// A chooser that gives the numbers of a list in order, and then 0 for ever. Each start goes back to
/// the first, whatever its number.
#[derive(Debug, Drop)]
pub struct ListChooser {
    list: Vec<u64>,
    started: Option<u64>,
    given: Vec<u64>,
}

impl Model for ListChooser {
    ghost use Rattle.chooser.specs.Listed.{ListView};

    ghost Value = { ListView };

    ghost view = { λ c. record { list = c.list.items; started = c.started; given = c.given.items } };
}

impl ListChooser {
    /// A chooser of these numbers. It takes no memory.
    pub fn new(alloc: Global, list: Vec<u64>) -> ListChooser
        ensures { result ≡ record { list = list.items; started = None; given = [] } }
    {
        ListChooser {
            list,
            started: None,
            given: Vec::new(alloc),
        }
    }

    /// The numbers given since the last start.
    pub fn given(&self) -> &[u64]
        ensures { result.now ≡ self.now.given }
    {
        self.given.as_slice()
    }
}

impl Chooser for ListChooser {
    ghost given = { λ c. c.given };

    ghost started = { λ c. c.started };

    fn start(&mut self, number: u64)
        ensures { self.new ≡ record self.old { started = Some number; given = [] } }
    {
        self.started = Some(number);
        self.given.clear();
    }

    fn next(&mut self) -> Result<u64, Memory>
        ensures number { IfOk result (λ n. n ≡ listed self.old.list (length self.old.given)) }
        ensures ok { IfOk result (λ n. self.new ≡ record self.old { given = self.old.given ++ n ∷ [] }) }
        ensures same { OnErr result (self.new ≡ self.old) }
    {
        let number = match self.list.get(self.given.len()) {
            Some(number) => *number,
            None => 0,
        };
        self.given.push(number)?;
        Ok(number)
    }
}
