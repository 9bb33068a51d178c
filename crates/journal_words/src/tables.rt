//! The tables of words.

ghost use Rattle.std.specs.Prelude.{◌≡◌, map};
ghost use Rattle.line_forms.specs.Reading.{or_form};
ghost use Rattle.trace_words.specs.Rows.{row_of};
ghost use Rattle.journal_words.specs.Tables.{class_word as word_of_class, classes, home_word as word_of_home, homes, layout_word as word_of_layout, layouts, routine_rows as rows_of_routines, routine_word as word_of_routine, viewed};

use dx_base::{Class, Home, Routine};
use line_forms::Cause;
use trace_words::first_row;
use vk_types::VkLayout;

const LAYOUTS: [(&str, VkLayout); 5] = [
    ("UNDEFINED", VkLayout::Undefined),
    ("GENERAL", VkLayout::General),
    ("SHADER_READ_ONLY_OPTIMAL", VkLayout::ShaderReadOnlyOptimal),
    ("TRANSFER_SRC_OPTIMAL", VkLayout::TransferSrcOptimal),
    ("TRANSFER_DST_OPTIMAL", VkLayout::TransferDstOptimal),
];

const HOMES: [(&str, Home); 4] = [
    ("upload", Home::Upload),
    ("readback", Home::Readback),
    ("legacy", Home::Legacy),
    ("enhanced", Home::Enhanced),
];

const CLASSES: [(&str, Class); 3] = [
    ("cbv", Class::Cbv),
    ("srv", Class::Srv),
    ("uav", Class::Uav),
];

const VIEWED: [(&str, bool); 2] = [("buffer", false), ("image", true)];

const ROUTINES: [(&str, Routine); 8] = [
    ("fill", Routine::Fill),
    ("move", Routine::Move),
    ("add", Routine::Add),
    ("mul", Routine::Mul),
    ("gather", Routine::Gather),
    ("scatter", Routine::Scatter),
    ("sums", Routine::Sums),
    ("histogram", Routine::Histogram),
];

/// What stands where it is there, and a word of no form else.
fn or_form<T: Copy>(found: Option<T>) -> Result<T, Cause>
    ensures { result ≡ or_form found }
{
    match found {
        Some(value) => Ok(value),
        None => Err(Cause::Form),
    }
}

/// The layouts by their words.
fn layout_rows() -> &'static [(&'static str, VkLayout)]
    ensures { map (λ row. (row.0.now, row.1)) result.now ≡ layouts }
{
    &LAYOUTS
}

/// The layout that a word names.
pub(crate) fn layout(word: &[u8]) -> Result<VkLayout, Cause>
    ensures { result ≡ or_form (row_of layouts word.now) }
{
    or_form(first_row(layout_rows(), word))
}

/// Where buffers lie, by their words.
fn home_rows() -> &'static [(&'static str, Home)]
    ensures { map (λ row. (row.0.now, row.1)) result.now ≡ homes }
{
    &HOMES
}

/// Where a buffer lies, by its word.
pub(crate) fn home(word: &[u8]) -> Result<Home, Cause>
    ensures { result ≡ or_form (row_of homes word.now) }
{
    or_form(first_row(home_rows(), word))
}

/// The classes of views by their words.
fn class_rows() -> &'static [(&'static str, Class)]
    ensures { map (λ row. (row.0.now, row.1)) result.now ≡ classes }
{
    &CLASSES
}

/// The class of a view that a word names.
pub(crate) fn class(word: &[u8]) -> Result<Class, Cause>
    ensures { result ≡ or_form (row_of classes word.now) }
{
    or_form(first_row(class_rows(), word))
}

/// Whether a view is one of an image, by the word `image` or `buffer`.
pub(crate) fn is_of_image(word: &[u8]) -> Result<bool, Cause>
    ensures { result ≡ or_form (row_of viewed word.now) }
{
    or_form(first_row(&VIEWED, word))
}

/// The routines by their names.
fn routine_rows() -> &'static [(&'static str, Routine)]
    ensures { map (λ row. (row.0.now, row.1)) result.now ≡ rows_of_routines }
{
    &ROUTINES
}

/// The routine that a word names.
pub(crate) fn routine(word: &[u8]) -> Result<Routine, Cause>
    ensures { result ≡ or_form (row_of rows_of_routines word.now) }
{
    or_form(first_row(routine_rows(), word))
}

/// The word of a layout.
pub fn layout_word(layout: VkLayout) -> &'static str
    ensures { result.now ≡ word_of_layout layout }
{
    match layout {
        VkLayout::Undefined => "UNDEFINED",
        VkLayout::General => "GENERAL",
        VkLayout::ShaderReadOnlyOptimal => "SHADER_READ_ONLY_OPTIMAL",
        VkLayout::TransferSrcOptimal => "TRANSFER_SRC_OPTIMAL",
        VkLayout::TransferDstOptimal => "TRANSFER_DST_OPTIMAL",
    }
}

/// The word of where a buffer lies.
pub fn home_word(home: Home) -> &'static str
    ensures { result.now ≡ word_of_home home }
{
    match home {
        Home::Upload => "upload",
        Home::Readback => "readback",
        Home::Legacy => "legacy",
        Home::Enhanced => "enhanced",
    }
}

/// The word of the class of a view.
pub fn class_word(class: Class) -> &'static str
    ensures { result.now ≡ word_of_class class }
{
    match class {
        Class::Cbv => "cbv",
        Class::Srv => "srv",
        Class::Uav => "uav",
    }
}

/// The word of a routine.
pub fn routine_word(routine: Routine) -> &'static str
    ensures { result.now ≡ word_of_routine routine }
{
    match routine {
        Routine::Fill => "fill",
        Routine::Move => "move",
        Routine::Add => "add",
        Routine::Mul => "mul",
        Routine::Gather => "gather",
        Routine::Scatter => "scatter",
        Routine::Sums => "sums",
        Routine::Histogram => "histogram",
    }
}
