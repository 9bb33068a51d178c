//! The words that commands touch.

use crate::registers::{Answer, Columns};
use crate::slow_machine::SlowMachine;
use crate::words::{Extent, Word};
use dx_base::{Class, Memory, Routine, Seq};
use vk_sync_rules::VkResource;
use vk_types::{Access, Count, Register, Stage, VkCommand, VkLayout};

/// Words that a command touches through one register, or on one side of a row.
#[derive(Clone, Copy)]
pub(crate) struct Part {
    pub columns: Columns,
    pub access: Access,
    pub writes: bool,
    /// Two parts of one register are no two registers.
    pub register: usize,
    /// The layout that a copy names.
    pub named: Option<VkLayout>,
}

/// What a routine with some invocations touches of a register.
#[derive(Clone, Copy)]
enum Used {
    Nothing,
    First,
    Each,
    Groups,
    All,
}

/// A row of the table of routines.
#[derive(Clone, Copy)]
struct UsedRow {
    t0: Used,
    t1: Used,
    b0: Used,
    read_u0: Used,
    written_u0: Used,
}

/// A row, its columns in their order.
macro_rules! row {
    ($t0:ident, $t1:ident, $b0:ident, $read_u0:ident, $written_u0:ident) => {
        UsedRow {
            t0: Used::$t0,
            t1: Used::$t1,
            b0: Used::$b0,
            read_u0: Used::$read_u0,
            written_u0: Used::$written_u0,
        }
    };
}

/// The table of routines.
fn row_of(routine: Routine) -> UsedRow {
    match routine {
        Routine::Fill => row!(Nothing, Nothing, First, Nothing, Each),
        Routine::Move => row!(Each, Nothing, Nothing, Nothing, Each),
        Routine::Add => row!(Each, Each, Nothing, Nothing, Each),
        Routine::Mul => row!(Each, Nothing, First, Nothing, Each),
        Routine::Gather => row!(All, Each, Nothing, Nothing, Each),
        Routine::Scatter => row!(Each, Each, Nothing, All, All),
        Routine::Sums => row!(Each, Nothing, Nothing, Nothing, Groups),
        Routine::Histogram => row!(Each, Nothing, Nothing, All, All),
    }
}

/// How many words of a view are used by `n` invocations.
fn used_words(used: Used, n: u64, has: u64) -> u64 {
    if n == 0 {
        return 0;
    }
    match used {
        Used::Nothing => 0,
        Used::First => has.min(1),
        Used::Each => has.min(n),
        Used::Groups => has.min(n.saturating_add(63) / 64),
        Used::All => has,
    }
}

impl Part {
    /// The word at a place of it.
    pub fn word(&self, at: u64) -> Word {
        Word {
            resource: self.columns.resource,
            at: self.columns.first.saturating_add(at),
        }
    }

    /// Whether it has a word.
    pub fn has(&self, word: Word) -> bool {
        for at in 0..self.columns.count {
            if self.word(at) == word {
                return true;
            }
        }
        false
    }
}

/// The stage of a command that is no barrier.
pub(crate) fn stage_of(command: VkCommand) -> Stage {
    match command {
        VkCommand::Clear { .. } | VkCommand::Dispatch { .. } => Stage::ComputeShader,
        VkCommand::Copy { .. }
        | VkCommand::CopyImage { .. }
        | VkCommand::CopyIn { .. }
        | VkCommand::CopyOut { .. }
        | VkCommand::Barrier { .. } => Stage::Copy,
    }
}

/// Words of a buffer.
pub(crate) fn words_of_buffer(buffer: u32, first: u64, count: u64) -> Columns {
    Columns {
        resource: VkResource::Buffer(buffer),
        first,
        count,
    }
}

/// The words of a row of a subresource.
fn row_of_sub(extent: Extent, row: u64) -> Columns {
    Columns {
        resource: extent.resource,
        first: row.saturating_mul(extent.width),
        count: extent.width,
    }
}

/// Appends what a copy reads, and the layout that it names.
fn push_read(
    parts: &mut Seq<Part>,
    columns: Columns,
    named: Option<VkLayout>,
) -> Result<(), Memory> {
    parts.push(Part {
        columns,
        access: Access::TransferRead,
        writes: false,
        register: parts.len(),
        named,
    })
}

/// Appends what a copy writes, and the layout that it names.
fn push_write(
    parts: &mut Seq<Part>,
    columns: Columns,
    named: Option<VkLayout>,
) -> Result<(), Memory> {
    parts.push(Part {
        columns,
        access: Access::TransferWrite,
        writes: true,
        register: parts.len(),
        named,
    })
}

/// Appends what is used of a view; nothing where there is none.
fn push_used(
    parts: &mut Seq<Part>,
    columns: Option<Columns>,
    count: u64,
    access: Access,
    register: usize,
) -> Result<(), Memory> {
    let Some(columns) = columns else {
        return Ok(());
    };
    if count == 0 {
        return Ok(());
    }
    parts.push(Part {
        columns: Columns { count, ..columns },
        access,
        writes: access == Access::ShaderStorageWrite,
        register,
        named: None,
    })
}

/// How many words a view has.
fn count_of(columns: Option<Columns>) -> u64 {
    match columns {
        None => 0,
        Some(columns) => columns.count,
    }
}

/// Appends what a routine with `n` invocations uses of a view.
fn push_view(
    parts: &mut Seq<Part>,
    columns: Option<Columns>,
    used: (Used, u64),
    access: Access,
    register: usize,
) -> Result<(), Memory> {
    let count = used_words(used.0, used.1, count_of(columns));
    push_used(parts, columns, count, access, register)
}

/// Appends the word that counts invocations, if one does.
fn push_counted(parts: &mut Seq<Part>, count: Count) -> Result<(), Memory> {
    match count {
        Count::Number(_) => Ok(()),
        Count::Word { buffer, word, .. } => {
            let columns = words_of_buffer(buffer, word as u64, 1);
            push_used(parts, Some(columns), 1, Access::ShaderRead, 4)
        }
    }
}

/// How many invocations there are at most, and what is read of u0: where a word counts them, all that may be written keeps what
/// it had behind them.
fn bounds_of(count: Count, row: UsedRow) -> (u64, Used) {
    match count {
        Count::Number(n) => (n as u64, row.read_u0),
        Count::Word { most, .. } => (most as u64, row.written_u0),
    }
}

/// Appends what a dispatch reads and writes of u0.
fn push_u0(
    parts: &mut Seq<Part>,
    u0: Option<Columns>,
    read: (Used, u64),
    written: (Used, u64),
) -> Result<(), Memory> {
    push_view(parts, u0, read, Access::ShaderStorageRead, 2)?;
    push_view(parts, u0, written, Access::ShaderStorageWrite, 2)
}

/// Appends the parts of a dispatch whose registers t0, t1, u0 and b0 view these words.
fn push_dispatch(
    parts: &mut Seq<Part>,
    routine: Routine,
    count: Count,
    views: [Option<Columns>; 4],
) -> Result<(), Memory> {
    let [t0, t1, u0, b0] = views;
    let row = row_of(routine);
    let (n, read_u0) = bounds_of(count, row);
    push_counted(parts, count)?;
    push_view(parts, t0, (row.t0, n), Access::ShaderRead, 0)?;
    push_view(parts, t1, (row.t1, n), Access::ShaderRead, 1)?;
    push_view(parts, b0, (row.b0, n), Access::UniformRead, 3)?;
    push_u0(parts, u0, (read_u0, n), (row.written_u0, n))
}

impl SlowMachine {
    /// The words that the registers t0, t1, u0 and b0 of a dispatch view.
    pub(crate) fn views_of(
        &self,
        answers: &[Answer],
        registers: [Register; 4],
    ) -> [Option<Columns>; 4] {
        let [t0, t1, u0, b0] = registers;
        [
            self.columns(answers, Class::Srv, t0),
            self.columns(answers, Class::Srv, t1),
            self.columns(answers, Class::Uav, u0),
            self.columns(answers, Class::Cbv, b0),
        ]
    }

    /// All words of a subresource; none where it is not there.
    fn sub_words(&self, resource: VkResource) -> Columns {
        Columns {
            resource,
            first: 0,
            count: self.size_of(resource).unwrap_or(0),
        }
    }

    /// Appends the rows of a copy between a subresource, with the layout that it names, and a buffer, by its first word and its
    /// pitch: into the subresource, or out of it.
    fn push_rows(
        &self,
        parts: &mut Seq<Part>,
        sub: (VkResource, VkLayout),
        rows: (u32, u32, u32),
        into: bool,
    ) -> Result<(), Memory> {
        let (buffer, first, pitch) = rows;
        let Some(extent) = self.extent_of(sub.0) else {
            return push_write(parts, self.sub_words(sub.0), Some(sub.1));
        };
        for row in 0..extent.rows {
            let before = row.saturating_mul(pitch as u64);
            let words = words_of_buffer(buffer, before.saturating_add(first as u64), extent.width);
            let texels = row_of_sub(extent, row);
            if into {
                push_read(parts, words, None)?;
                push_write(parts, texels, Some(sub.1))?;
            } else {
                push_read(parts, texels, Some(sub.1))?;
                push_write(parts, words, None)?;
            }
        }
        Ok(())
    }

    /// Appends the parts of a command.
    fn push_parts(
        &self,
        parts: &mut Seq<Part>,
        command: VkCommand,
        answers: &[Answer],
    ) -> Result<(), Memory> {
        match command {
            VkCommand::Barrier { .. } => Ok(()),
            VkCommand::Copy {
                to,
                to_first,
                from,
                from_first,
                words,
            } => {
                let count = words as u64;
                push_read(parts, words_of_buffer(from, from_first as u64, count), None)?;
                push_write(parts, words_of_buffer(to, to_first as u64, count), None)
            }
            VkCommand::Clear { target, .. } => {
                let view = self.columns(answers, Class::Uav, target);
                push_used(parts, view, count_of(view), Access::ShaderStorageWrite, 0)
            }
            VkCommand::Dispatch {
                routine,
                count,
                t0,
                t1,
                u0,
                b0,
            } => {
                let views = self.views_of(answers, [t0, t1, u0, b0]);
                push_dispatch(parts, routine, count, views)
            }
            VkCommand::CopyImage { .. } | VkCommand::CopyIn { .. } | VkCommand::CopyOut { .. } =>
                self.push_image_parts(parts, command),
        }
    }

    /// Appends the parts of a copy of all words of a subresource into another one, each with the layout that it names.
    fn push_image_copy(
        &self,
        parts: &mut Seq<Part>,
        to: (VkResource, VkLayout),
        from: (VkResource, VkLayout),
    ) -> Result<(), Memory> {
        let read = self.sub_words(from.0);
        let written = Columns {
            resource: to.0,
            ..read
        };
        push_read(parts, read, Some(from.1))?;
        push_write(parts, written, Some(to.1))
    }

    /// Appends the parts of a copy that has to do with an image.
    fn push_image_parts(&self, parts: &mut Seq<Part>, command: VkCommand) -> Result<(), Memory> {
        match command {
            VkCommand::CopyImage {
                to,
                to_sub,
                to_layout,
                from,
                from_sub,
                from_layout,
            } => {
                let to = (VkResource::Image(to, to_sub), to_layout);
                let from = (VkResource::Image(from, from_sub), from_layout);
                self.push_image_copy(parts, to, from)
            }
            VkCommand::CopyIn {
                image,
                sub,
                layout,
                buffer,
                first,
                pitch,
            } => {
                let sub = (VkResource::Image(image, sub), layout);
                self.push_rows(parts, sub, (buffer, first, pitch), true)
            }
            VkCommand::CopyOut {
                buffer,
                first,
                pitch,
                image,
                sub,
                layout,
            } => {
                let sub = (VkResource::Image(image, sub), layout);
                self.push_rows(parts, sub, (buffer, first, pitch), false)
            }
            VkCommand::Barrier { .. }
            | VkCommand::Copy { .. }
            | VkCommand::Clear { .. }
            | VkCommand::Dispatch { .. } => Ok(()),
        }
    }

    /// The parts of a command.
    pub(crate) fn parts_of(
        &self,
        command: VkCommand,
        answers: &[Answer],
    ) -> Result<Seq<Part>, Memory> {
        let mut parts = Seq::new(self.alloc);
        self.push_parts(&mut parts, command, answers)?;
        Ok(parts)
    }
}
