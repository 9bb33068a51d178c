//! What calls do to one command list.

ghost use Rattle.std.specs.Prelude.{◌≡◌, IfOk, OnOk, OnErr};
ghost use Rattle.std.specs.Option.{option_copied};
ghost use Rattle.std.specs.Result.{result_err};
ghost use Rattle.d3d_machine.specs.State.{declared_list, is_recording as takes_commands, is_closed_state};
ghost use Rattle.d3d_machine.specs.Recorders.{recorder_of};
ghost use Rattle.d3d_machine.specs.Replies.{records_from as from_allocator, record_error as error_of_record};
ghost use Rattle.d3d_machine.specs.Effects.{recorded, begun};
ghost use Rattle.d3d_machine.specs.Lists.{ended, closed_commands};

use crate::calls::Record;
use crate::checks::argument_error;
use crate::events::{Command, ListState, Listed};
use crate::world::World;
use dx_base::{AllocatorId, Hresult, LIST_COMMANDS, Memory, Seq};
use std::alloc::Global;

impl Listed {
    /// A list as it is declared: closed and empty.
    pub fn declared(alloc: Global) -> Listed
        ensures { result ≡ declared_list }
    {
        Listed {
            state: ListState::Closed,
            allocator: None,
            commands: Seq::new(alloc),
            error: None,
        }
    }

    /// Whether the list takes commands.
    pub fn is_recording(&self) -> bool
        ensures { result ≡ takes_commands self.now }
    {
        match self.state {
            ListState::Recording => true,
            ListState::Closed => false,
            ListState::Failed => false,
        }
    }

    /// Whether the list can be executed.
    pub fn is_closed(&self) -> bool
        ensures { result ≡ is_closed_state self.now.state }
    {
        match self.state {
            ListState::Recording => false,
            ListState::Closed => true,
            ListState::Failed => false,
        }
    }

    /// The commands of a closed list.
    pub fn closed(&self) -> Option<&[Command]>
        ensures { option_copied result ≡ closed_commands self.now }
    {
        if self.is_closed() {
            Some(self.commands.as_slice())
        } else {
            None
        }
    }

    /// The allocator that the list is recording from.
    pub fn recorder(&self) -> Option<AllocatorId>
        ensures { result ≡ recorder_of self.now }
    {
        if self.is_recording() {
            self.allocator
        } else {
            None
        }
    }

    /// Whether the list is recording from that allocator.
    pub fn records_from(&self, allocator: AllocatorId) -> bool
        ensures { result ≡ from_allocator allocator.0 self.now }
    {
        match self.recorder() {
            Some(from) => from.0 == allocator.0,
            None => false,
        }
    }

    /// The error that a recording call leaves in the list: a full list comes before a bad argument.
    fn record_error(&self, world: &World, what: Record) -> Option<Hresult>
        ensures { result ≡ error_of_record world.now self.now what }
    {
        if self.commands.len() >= LIST_COMMANDS {
            Some(Hresult::Fail)
        } else {
            argument_error(world, what)
        }
    }

    /// A recording call on a recording list: where it holds an error, none; else the command or the
    /// error more. Refused for memory, the list stays.
    pub(crate) fn record(&mut self, world: &World, what: Record) -> Result<(), Memory>
        ensures ok { OnOk result (self.new ≡ recorded world.now what self.old) }
        ensures same { OnErr result (self.new ≡ self.old) }
    {
        if self.error.is_some() {
            return Ok(());
        }
        match self.record_error(world, what) {
            Some(error) => self.error = Some(error),
            None => self.commands.push(Command { what })?,
        }
        Ok(())
    }

    /// Ends the recording: the list is closed, or has failed where it holds an error, which is answered.
    pub(crate) fn end(&mut self) -> Result<(), Hresult>
        ensures answer { result_err result ≡ self.old.error }
        ensures list { self.new ≡ ended self.old }
    {
        match self.error {
            None => {
                self.state = ListState::Closed;
                Ok(())
            }
            Some(error) => {
                self.state = ListState::Failed;
                Err(error)
            }
        }
    }

    /// Begins to record from that allocator; takes no memory.
    pub(crate) fn begin(&mut self, allocator: AllocatorId)
        ensures { self.new ≡ begun allocator.0 }
    {
        self.state = ListState::Recording;
        self.allocator = Some(allocator);
        self.commands.clear();
        self.error = None;
    }
}
