//! The slots of heaps that a command loads.

ghost use Rattle.std.specs.Prelude.{◌≡◌, ◌≤◌, [], ◌++◌, length};
ghost use Rattle.std.specs.List.{list_any};
ghost use Rattle.vk_sync_rules.specs.Machines.{listed, new_slot, slots_in_all};
ghost use Rattle.vk_sync_rules.specs.Registers.{same_slot, first_of_each, slots_in as slots_of_register, slots_of as slots_of_command};

use vk_types::{Register, VkCommand};

/// A heap and a place in it.
pub(crate) type Slot = (u32, u32);

/// The slots that a command loads, each once, in the order of the first register that uses it.
#[derive(Clone, Copy, Debug, PartialEq, Eq)]
pub(crate) struct Slots {
    pub first: Option<Slot>,
    pub second: Option<Slot>,
    pub third: Option<Slot>,
    pub fourth: Option<Slot>,
}

/// The slot of a register, if it is one.
pub(crate) fn slot_of(register: Register) -> Option<Slot>
    ensures { listed result ≡ slots_of_register register }
{
    match register {
        Register::Unbound => None,
        Register::Constant(_) => None,
        Register::Root { .. } => None,
        Register::Fixed(_) => None,
        Register::Slot { heap, slot } => Some((heap, slot)),
    }
}

/// Whether a slot is the other one.
pub(crate) fn is_it(slot: Slot, other: Option<Slot>) -> bool
    ensures { result ≡ list_any (same_slot slot) (listed other) }
{
    match other {
        None => false,
        Some(other) => slot.0 == other.0 && slot.1 == other.1,
    }
}

/// A slot, unless it is one of three others.
#[tactic(auto, using(crate::proofs::SlotSteps::any_three))]
fn unless(
    slot: Option<Slot>,
    one: Option<Slot>,
    two: Option<Slot>,
    three: Option<Slot>,
) -> Option<Slot>
    ensures { result ≡ new_slot slot (listed one ++ (listed two ++ (listed three ++ []))) }
{
    let slot = slot?;
    if is_it(slot, one) || (is_it(slot, two) || is_it(slot, three)) {
        None
    } else {
        Some(slot)
    }
}

/// The slots of some registers.
fn slots_of_four(
    one: Option<Slot>,
    two: Option<Slot>,
    three: Option<Slot>,
    four: Option<Slot>,
) -> Slots
    ensures { slots_in_all result ≡ first_of_each [] (listed one ++ (listed two ++ (listed three ++ (listed four ++ [])))) }
{
    let first = unless(one, None, None, None);
    let second = unless(two, first, None, None);
    let third = unless(three, second, first, None);
    let fourth = unless(four, third, second, first);
    Slots {
        first,
        second,
        third,
        fourth,
    }
}

/// The slots that a command loads.
pub(crate) fn slots_of(command: VkCommand) -> Slots
    ensures { slots_in_all result ≡ slots_of_command command }
{
    match command {
        VkCommand::Barrier { .. } => slots_of_four(None, None, None, None),
        VkCommand::Copy { .. } => slots_of_four(None, None, None, None),
        VkCommand::CopyImage { .. } => slots_of_four(None, None, None, None),
        VkCommand::CopyIn { .. } => slots_of_four(None, None, None, None),
        VkCommand::CopyOut { .. } => slots_of_four(None, None, None, None),
        VkCommand::Clear { target, .. } => slots_of_four(slot_of(target), None, None, None),
        VkCommand::Dispatch { t0, t1, u0, b0, .. } => {
            slots_of_four(slot_of(t0), slot_of(t1), slot_of(u0), slot_of(b0))
        }
    }
}

/// How many slots there are.
fn one_if(slot: Option<Slot>) -> usize
    ensures value { result ≡ length (listed slot) }
    ensures most { result ≤ 1 }
{
    match slot {
        None => 0,
        Some(_) => 1,
    }
}

impl Slots {
    /// How many slots there are.
    pub(crate) fn count(self) -> usize
        ensures { result ≡ length (slots_in_all self) }
    {
        one_if(self.first) + (one_if(self.second) + (one_if(self.third) + one_if(self.fourth)))
    }
}
