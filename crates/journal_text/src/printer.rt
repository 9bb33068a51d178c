//! The printer of journals.

ghost use Rattle.std.specs.Prelude.{◌≡◌, ◌∷◌, ◌++◌, decimal, IfOk, OnOk};
ghost use Rattle.std.specs.List.{flat_map};
ghost use Rattle.line_forms.specs.Lines.{line_text, rest_of_line};
ghost use Rattle.journal_text.specs.Printing.{batch_words, buffer_text, change_words, command_text, commands_of, heap_text, image_text, journal_text, plan_text, queues_words, step_text, step_words, view_text};
ghost use Rattle.journal_words.specs.PrintedWords.{register_word};
ghost use Rattle.journal_words.specs.Tables.{access_rows, layout_word as word_of_layout, stage_rows};
ghost use Rattle.journal_words.specs.Words.{set_word};

use dx_base::Memory;
use journal_words::{
    class_word, end_with_both, end_with_numbers, home_word, layout_word, put_accesses, put_count,
    put_register, put_stages, put_sub, routine_word,
};
use line_forms::{end_line, end_with_words, put, put_hex, put_next, put_number};
use std::alloc::Global;
use vk_types::{
    Accesses, Batch, Change, DevicePlan, PlanBuffer, PlanImage, PlanView, Register, Stages,
    VkCommand, VkLayout, VkStep,
};

/// Appends a space and a layout.
fn put_layout(out: &mut Vec<u8>, layout: VkLayout) -> Result<(), Memory>
    ensures { OnOk result (out.new.items ≡ out.old.items ++ 32 ∷ word_of_layout layout) }
{
    put_next(out, layout_word(layout).as_bytes())
}

/// Appends stages and accesses, each set behind a space.
fn put_side(out: &mut Vec<u8>, stages: Stages, accesses: Accesses) -> Result<(), Memory>
    ensures { OnOk result (out.new.items ≡ out.old.items ++ 32 ∷ (set_word stage_rows stages.0 ++ 32 ∷ set_word access_rows accesses.0)) }
{
    put(out, b" ")?;
    put_stages(out, stages)?;
    put(out, b" ")?;
    put_accesses(out, accesses)
}

/// Ends a line with a change of layout, where there is one.
#[tactic(auto, unfolding(line_forms::specs::Lines::rest_of_line))]
fn end_with_change(out: &mut Vec<u8>, change: Option<Change>) -> Result<(), Memory>
    ensures { OnOk result (out.new.items ≡ out.old.items ++ rest_of_line (change_words change)) }
{
    let Some(change) = change else {
        return end_line(out);
    };
    put_number(out, change.image as u64)?;
    put_sub(out, change.sub)?;
    put_layout(out, change.old)?;
    put_layout(out, change.new)?;
    end_line(out)
}

/// Appends a place of an image: a number, a subresource and a layout, each behind a space.
fn put_place(out: &mut Vec<u8>, image: u32, sub: u32, layout: VkLayout) -> Result<(), Memory>
    ensures { OnOk result (out.new.items ≡ out.old.items ++ 32 ∷ (decimal image ++ 32 ∷ (decimal sub ++ 32 ∷ word_of_layout layout))) }
{
    put_number(out, image as u64)?;
    put_number(out, sub as u64)?;
    put_layout(out, layout)
}

/// Appends two registers, each behind a space.
fn put_registers(out: &mut Vec<u8>, one: Register, other: Register) -> Result<(), Memory>
    ensures { OnOk result (out.new.items ≡ out.old.items ++ 32 ∷ (register_word one ++ 32 ∷ register_word other)) }
{
    put_register(out, one)?;
    put_register(out, other)
}

/// Appends the line of a command.
#[tactic(auto, unfolding(crate::specs::Printing::command_text, line_forms::specs::Lines::line_text, line_forms::specs::Lines::rest_of_line))]
fn put_command(out: &mut Vec<u8>, command: VkCommand) -> Result<(), Memory>
    ensures { OnOk result (out.new.items ≡ out.old.items ++ command_text command) }
{
    match command {
        VkCommand::Barrier {
            from,
            made,
            to,
            seen,
            change,
        } => {
            put(out, b"barrier")?;
            put_side(out, from, made)?;
            put_side(out, to, seen)?;
            end_with_change(out, change)
        }
        VkCommand::Copy {
            to,
            to_first,
            from,
            from_first,
            words,
        } => {
            put(out, b"copy")?;
            put_number(out, to as u64)?;
            put_number(out, to_first as u64)?;
            put_number(out, from as u64)?;
            put_number(out, from_first as u64)?;
            put_number(out, words as u64)?;
            end_line(out)
        }
        VkCommand::CopyImage {
            to,
            to_sub,
            to_layout,
            from,
            from_sub,
            from_layout,
        } => {
            put(out, b"copyimage")?;
            put_place(out, to, to_sub, to_layout)?;
            put_place(out, from, from_sub, from_layout)?;
            end_line(out)
        }
        VkCommand::CopyIn {
            image,
            sub,
            layout,
            buffer,
            first,
            pitch,
        } => {
            put(out, b"copyin")?;
            put_place(out, image, sub, layout)?;
            put_number(out, buffer as u64)?;
            put_number(out, first as u64)?;
            put_number(out, pitch as u64)?;
            end_line(out)
        }
        VkCommand::CopyOut {
            buffer,
            first,
            pitch,
            image,
            sub,
            layout,
        } => {
            put(out, b"copyout")?;
            put_number(out, buffer as u64)?;
            put_number(out, first as u64)?;
            put_number(out, pitch as u64)?;
            put_place(out, image, sub, layout)?;
            end_line(out)
        }
        VkCommand::Clear { target, word } => {
            put(out, b"clear")?;
            put_register(out, target)?;
            put_hex(out, word)?;
            end_line(out)
        }
        VkCommand::Dispatch {
            routine,
            count,
            t0,
            t1,
            u0,
            b0,
        } => {
            put(out, b"dispatch")?;
            put_next(out, routine_word(routine).as_bytes())?;
            put_count(out, count)?;
            put_registers(out, t0, t1)?;
            put_registers(out, u0, b0)?;
            end_line(out)
        }
    }
}

/// Appends the lines of commands.
fn put_commands(out: &mut Vec<u8>, commands: &[VkCommand]) -> Result<(), Memory>
    ensures { OnOk result (out.new.items ≡ out.old.items ++ flat_map command_text commands.now) }
{
    for command in commands {
        put_command(out, *command)?;
    }
    Ok(())
}

/// Appends the first line of a submission.
#[tactic(auto, unfolding(line_forms::specs::Lines::line_text, line_forms::specs::Lines::rest_of_line))]
fn put_batch(out: &mut Vec<u8>, batch: &Batch) -> Result<(), Memory>
    ensures { OnOk result (out.new.items ≡ out.old.items ++ line_text (batch_words batch.now)) }
{
    put(out, b"submit")?;
    put_number(out, batch.queue as u64)?;
    put_number(out, batch.number)?;
    put_number(out, batch.commands.len() as u64)?;
    put(out, b" waits")?;
    end_with_both(out, batch.waits.as_slice(), batch.sets.as_slice())
}

/// Appends the line of a step, of a submission the first.
#[tactic(auto, unfolding(line_forms::specs::Lines::line_text, line_forms::specs::Lines::rest_of_line))]
fn put_step_line(out: &mut Vec<u8>, step: &VkStep) -> Result<(), Memory>
    ensures { OnOk result (out.new.items ≡ out.old.items ++ line_text (step_words step.now)) }
{
    match step {
        VkStep::Submit(batch) => put_batch(out, batch),
        VkStep::Pass { queue, number } => {
            put(out, b"pass")?;
            put_number(out, *queue as u64)?;
            put_number(out, *number)?;
            end_line(out)
        }
        VkStep::Command {
            queue,
            number,
            place,
            loaded,
        } => {
            put(out, b"command")?;
            put_number(out, *queue as u64)?;
            put_number(out, *number)?;
            put_number(out, *place)?;
            end_with_numbers(out, loaded.as_slice())
        }
        VkStep::Bump { queue, number } => {
            put(out, b"bump")?;
            put_number(out, *queue as u64)?;
            put_number(out, *number)?;
            end_line(out)
        }
        VkStep::HostWrite {
            buffer,
            first,
            words,
        } => {
            put(out, b"hostwrite")?;
            put_number(out, *buffer as u64)?;
            put_number(out, *first as u64)?;
            end_with_words(out, words.as_slice())
        }
        VkStep::HostRead {
            buffer,
            first,
            words,
        } => {
            put(out, b"hostread")?;
            put_number(out, *buffer as u64)?;
            put_number(out, *first as u64)?;
            end_with_words(out, words.as_slice())
        }
        VkStep::Update { heap, slot } => {
            put(out, b"update")?;
            put_number(out, *heap as u64)?;
            put_number(out, *slot as u64)?;
            end_line(out)
        }
    }
}

/// The commands of a step.
fn commands_of(step: &VkStep) -> &[VkCommand]
    ensures { result.now ≡ commands_of step.now }
{
    match step {
        VkStep::Submit(batch) => batch.commands.as_slice(),
        VkStep::Pass { .. } => &[],
        VkStep::Command { .. } => &[],
        VkStep::Bump { .. } => &[],
        VkStep::HostWrite { .. } => &[],
        VkStep::HostRead { .. } => &[],
        VkStep::Update { .. } => &[],
    }
}

/// Appends the lines of a step.
#[tactic(auto, unfolding(crate::specs::Printing::step_text))]
fn put_step(out: &mut Vec<u8>, step: &VkStep) -> Result<(), Memory>
    ensures { OnOk result (out.new.items ≡ out.old.items ++ step_text step.now) }
{
    put_step_line(out, step)?;
    put_commands(out, commands_of(step))
}

/// Appends the lines of steps.
fn put_steps(out: &mut Vec<u8>, steps: &[VkStep]) -> Result<(), Memory>
    ensures { OnOk result (out.new.items ≡ out.old.items ++ flat_map step_text steps.now) }
{
    for step in steps {
        put_step(out, step)?;
    }
    Ok(())
}

/// Appends the line of a buffer.
#[tactic(auto, unfolding(crate::specs::Printing::buffer_text, line_forms::specs::Lines::line_text, line_forms::specs::Lines::rest_of_line))]
fn put_buffer(out: &mut Vec<u8>, buffer: PlanBuffer) -> Result<(), Memory>
    ensures { OnOk result (out.new.items ≡ out.old.items ++ buffer_text buffer) }
{
    put(out, b"buffer")?;
    put_number(out, buffer.words as u64)?;
    put_next(out, home_word(buffer.home).as_bytes())?;
    end_line(out)
}

/// Appends the line of an image.
#[tactic(auto, unfolding(crate::specs::Printing::image_text, line_forms::specs::Lines::line_text, line_forms::specs::Lines::rest_of_line))]
fn put_image(out: &mut Vec<u8>, image: PlanImage) -> Result<(), Memory>
    ensures { OnOk result (out.new.items ≡ out.old.items ++ image_text image) }
{
    put(out, b"image")?;
    put_number(out, image.width as u64)?;
    put_number(out, image.height as u64)?;
    put_number(out, image.mips as u64)?;
    put_number(out, image.layers as u64)?;
    end_line(out)
}

/// Appends the line of a heap.
#[tactic(auto, unfolding(crate::specs::Printing::heap_text, line_forms::specs::Lines::line_text, line_forms::specs::Lines::rest_of_line))]
fn put_heap(out: &mut Vec<u8>, slots: u32) -> Result<(), Memory>
    ensures { OnOk result (out.new.items ≡ out.old.items ++ heap_text slots) }
{
    put(out, b"heap")?;
    put_number(out, slots as u64)?;
    end_line(out)
}

/// Appends the line of a view.
#[tactic(auto, unfolding(crate::specs::Printing::view_text, line_forms::specs::Lines::line_text, line_forms::specs::Lines::rest_of_line))]
fn put_view(out: &mut Vec<u8>, view: PlanView) -> Result<(), Memory>
    ensures { OnOk result (out.new.items ≡ out.old.items ++ view_text view) }
{
    match view {
        PlanView::Buffer {
            class,
            buffer,
            first,
            words,
        } => {
            put(out, b"view")?;
            put_next(out, class_word(class).as_bytes())?;
            put(out, b" buffer")?;
            put_number(out, buffer as u64)?;
            put_number(out, first as u64)?;
            put_number(out, words as u64)?;
            end_line(out)
        }
        PlanView::Image { class, image, sub } => {
            put(out, b"view")?;
            put_next(out, class_word(class).as_bytes())?;
            put(out, b" image")?;
            put_number(out, image as u64)?;
            put_number(out, sub as u64)?;
            end_line(out)
        }
    }
}

/// Appends the lines of buffers.
fn put_buffers(out: &mut Vec<u8>, buffers: &[PlanBuffer]) -> Result<(), Memory>
    ensures { OnOk result (out.new.items ≡ out.old.items ++ flat_map buffer_text buffers.now) }
{
    for buffer in buffers {
        put_buffer(out, *buffer)?;
    }
    Ok(())
}

/// Appends the lines of images.
fn put_images(out: &mut Vec<u8>, images: &[PlanImage]) -> Result<(), Memory>
    ensures { OnOk result (out.new.items ≡ out.old.items ++ flat_map image_text images.now) }
{
    for image in images {
        put_image(out, *image)?;
    }
    Ok(())
}

/// Appends the lines of heaps.
fn put_heaps(out: &mut Vec<u8>, heaps: &[u32]) -> Result<(), Memory>
    ensures { OnOk result (out.new.items ≡ out.old.items ++ flat_map heap_text heaps.now) }
{
    for slots in heaps {
        put_heap(out, *slots)?;
    }
    Ok(())
}

/// Appends the lines of views.
fn put_views(out: &mut Vec<u8>, views: &[PlanView]) -> Result<(), Memory>
    ensures { OnOk result (out.new.items ≡ out.old.items ++ flat_map view_text views.now) }
{
    for view in views {
        put_view(out, *view)?;
    }
    Ok(())
}

/// Appends the line of queues and timelines.
#[tactic(auto, unfolding(line_forms::specs::Lines::line_text, line_forms::specs::Lines::rest_of_line))]
fn put_queues(out: &mut Vec<u8>, plan: &DevicePlan) -> Result<(), Memory>
    ensures { OnOk result (out.new.items ≡ out.old.items ++ line_text (queues_words plan.now)) }
{
    put(out, b"queues")?;
    put_number(out, plan.queues as u64)?;
    put(out, b" timelines")?;
    put_number(out, plan.timelines as u64)?;
    end_line(out)
}

/// Appends the lines of a plan.
#[tactic(auto, unfolding(crate::specs::Printing::plan_text))]
fn put_plan(out: &mut Vec<u8>, plan: &DevicePlan) -> Result<(), Memory>
    ensures { OnOk result (out.new.items ≡ out.old.items ++ plan_text plan.now) }
{
    put_buffers(out, plan.buffers.as_slice())?;
    put_images(out, plan.images.as_slice())?;
    put_heaps(out, plan.heaps.as_slice())?;
    put_views(out, plan.views.as_slice())?;
    put_queues(out, plan)
}

/// The text of a journal: the objects of the device, and the steps that it took. It has no comments and no empty lines, data words
/// have eight digits, and sets are in the order of their tables.
#[tactic(auto, unfolding(crate::specs::Printing::journal_text, line_forms::specs::Lines::line_text, line_forms::specs::Lines::rest_of_line))]
pub fn print_steps(alloc: Global, plan: &DevicePlan, steps: &[VkStep]) -> Result<Vec<u8>, Memory>
    ensures { IfOk result (λ text. text.items ≡ journal_text plan.now steps.now) }
{
    let mut out = Vec::new(alloc);
    put(&mut out, b"vkjournal 1\n")?;
    put_plan(&mut out, plan)?;
    put_steps(&mut out, steps)?;
    put(&mut out, b"end\n")?;
    Ok(out)
}
