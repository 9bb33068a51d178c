//! The lines of the header and of threads, and the last line, printed.

ghost use Rattle.std.specs.Prelude.{◌≡◌, ◌++◌, OnOk};
ghost use Rattle.trace_lines.specs.declared.item.Item.TheVariants.{Header, Starts, Ends};
ghost use Rattle.trace_lines.specs.Formed.{item_text};

use crate::form::Form;
use crate::known::Known;
use dx_base::Memory;
use line_forms::{PartValue, put_line};
use trace_words::Name;

/// Appends the first line.
#[tactic(auto, unfolding(crate::specs::Formed::item_text))]
pub fn put_header(out: &mut Vec<u8>, known: &Known<'_>) -> Result<(), Memory>
    ensures { OnOk result (out.new.items ≡ out.old.items ++ item_text known.now Header) }
{
    put_line(
        out,
        known,
        Form::Header,
        &[PartValue::AsItStands, PartValue::AsItStands],
        &[],
    )
}

/// Appends the last line.
#[tactic(auto, unfolding(crate::specs::Formed::item_text))]
pub fn put_end(out: &mut Vec<u8>, known: &Known<'_>) -> Result<(), Memory>
    ensures { OnOk result (out.new.items ≡ out.old.items ++ item_text known.now Ends) }
{
    put_line(out, known, Form::End, &[PartValue::AsItStands], &[])
}

/// Appends the line of a thread.
#[tactic(auto, unfolding(crate::specs::Formed::item_text))]
pub fn put_start(out: &mut Vec<u8>, known: &Known<'_>, name: &Name) -> Result<(), Memory>
    ensures { OnOk result (out.new.items ≡ out.old.items ++ item_text known.now (Starts name.now)) }
{
    put_line(
        out,
        known,
        Form::Thread,
        &[PartValue::AsItStands, PartValue::NewName(name.copied())],
        &[],
    )
}
