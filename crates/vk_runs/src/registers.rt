//! What the registers of commands view.

use crate::slow_machine::SlowMachine;
use dx_base::{Class, Memory, Seq};
use std::alloc::Global;
use vk_sync_rules::VkResource;
use vk_types::{PlanView, Register, VkCommand};

/// What the load of a slot answered: the place of a view in the plan plus one, or 0 where none is set.
#[derive(Clone, Copy)]
pub(crate) struct Answer {
    pub heap: u32,
    pub slot: u32,
    pub view: u32,
}

/// Words that a register views.
#[derive(Clone, Copy)]
pub(crate) struct Columns {
    pub resource: VkResource,
    pub first: u64,
    pub count: u64,
}

/// The answer for a slot, if there is one.
fn answer_for(answers: &[Answer], heap: u32, slot: u32) -> Option<u32> {
    for answer in answers {
        if answer.heap == heap && answer.slot == slot {
            return Some(answer.view);
        }
    }
    None
}

/// Appends the answer for a register, where it is a slot that has none yet.
fn push_answer(
    answers: &mut Seq<Answer>,
    register: Register,
    loaded: &[u32],
) -> Result<(), Memory> {
    let Register::Slot { heap, slot } = register else {
        return Ok(());
    };
    if answer_for(answers.as_slice(), heap, slot).is_some() {
        return Ok(());
    }
    let view = loaded.get(answers.len()).copied().unwrap_or(0);
    answers.push(Answer { heap, slot, view })
}

/// The registers of a command.
pub(crate) fn registers_of(command: VkCommand) -> [Register; 4] {
    let none = Register::Unbound;
    match command {
        VkCommand::Clear { target, .. } => [target, none, none, none],
        VkCommand::Dispatch { t0, t1, u0, b0, .. } => [t0, t1, u0, b0],
        VkCommand::Barrier { .. }
        | VkCommand::Copy { .. }
        | VkCommand::CopyImage { .. }
        | VkCommand::CopyIn { .. }
        | VkCommand::CopyOut { .. } => [none, none, none, none],
    }
}

/// The slots that a command loads, each once, with what was loaded.
pub(crate) fn answers_of(
    alloc: Global,
    command: VkCommand,
    loaded: &[u32],
) -> Result<Seq<Answer>, Memory> {
    let mut answers = Seq::new(alloc);
    for register in registers_of(command) {
        push_answer(&mut answers, register, loaded)?;
    }
    Ok(answers)
}

/// How many slots a command loads.
pub(crate) fn slot_count(alloc: Global, command: VkCommand) -> Result<usize, Memory> {
    let answers = answers_of(alloc, command, &[])?;
    let count = answers.len();
    drop(answers);
    Ok(count)
}

impl SlowMachine {
    /// All words of a resource, if it is there.
    fn whole(&self, resource: VkResource) -> Option<Columns> {
        Some(Columns {
            resource,
            first: 0,
            count: self.size_of(resource)?,
        })
    }

    /// The words of a view of the plan, as one of a class.
    fn words_of_view(&self, at: u32, class: Class) -> Option<Columns> {
        match *self.views.get(at as usize)? {
            PlanView::Buffer {
                class: is,
                buffer,
                first,
                words,
            } if is == class => Some(Columns {
                resource: VkResource::Buffer(buffer),
                first: first as u64,
                count: words as u64,
            }),
            PlanView::Image {
                class: is,
                image,
                sub,
            } if is == class => self.whole(VkResource::Image(image, sub)),
            _ => None,
        }
    }

    /// The words of a buffer from one on.
    fn words_from(&self, buffer: u32, first: u32) -> Option<Columns> {
        let resource = VkResource::Buffer(buffer);
        let first = first as u64;
        Some(Columns {
            resource,
            first,
            count: self.size_of(resource)?.checked_sub(first)?,
        })
    }

    /// The words that a register views, as one of a class.
    pub(crate) fn columns(
        &self,
        answers: &[Answer],
        class: Class,
        register: Register,
    ) -> Option<Columns> {
        match register {
            Register::Unbound | Register::Constant(_) => None,
            Register::Root { buffer, first } => self.words_from(buffer, first),
            Register::Fixed(at) => self.words_of_view(at, class),
            Register::Slot { heap, slot } => {
                let view = answer_for(answers, heap, slot)?;
                self.words_of_view(view.checked_sub(1)?, class)
            }
        }
    }
}
