//! What a command reads and writes through its registers.

/// What a register of a dispatch stands for.
#[derive(Clone, Copy, Debug, PartialEq, Eq)]
pub enum Register {
    /// Nothing: it reads 0, and drops what is written.
    Unbound,
    /// One word, which the command has in itself.
    Constant(u32),
    /// A buffer, by its place in the plan, from the word `first` to its end.
    Root { buffer: u32, first: u32 },
    /// A view, by its place in the plan.
    Fixed(u32),
    /// The view that a slot of a heap holds when the command is done.
    Slot { heap: u32, slot: u32 },
}

/// How many invocations a dispatch has.
#[derive(Clone, Copy, Debug, PartialEq, Eq)]
pub enum Count {
    Number(u32),
    /// The word of a buffer when the command is done, but no more than `most` (vkCmdDispatchIndirect).
    Word { buffer: u32, word: u32, most: u32 },
}
