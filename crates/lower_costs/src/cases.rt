//! The three cases: lists that grow, a list beside more and more textures, and these textures alone.

ghost use Rattle.std.specs.Prelude.{◌≡◌, ◌≤◌, length, true};
ghost use Rattle.barrier_lowering.specs.Lowering.{are_recorded as can_be_recorded};
ghost use Rattle.barrier_lowering.specs.Numbers.{AreNumbersOf};

use crate::lists::{list, resources};
use barrier_lowering::{Layouts, Lowered, Numbers, Record, are_recorded, lower};
use d3d_resources::Resource;
use dx_base::{Memory, ResourceId};
use std::alloc::Global;

/// How many textures there are, and how many commands a list has on the last of them.
#[derive(Clone, Copy, Debug)]
pub(crate) struct Case {
    textures: u32,
    commands: u32,
}

/// The case of that name: a list of so many commands on one texture; a list of 1,000 commands on the last of so many
/// textures; or a list of no commands beside as many.
pub(crate) fn named(name: &str, count: u32) -> Option<Case> {
    let (textures, commands) = if name == "list" {
        (1, count)
    } else if name == "among" {
        (count, 1_000)
    } else if name == "only" {
        (count, 0)
    } else {
        return None;
    };
    Some(Case { textures, commands })
}

/// How many commands the list gives where it begins in the layouts behind the start-up.
fn filled(
    alloc: Global,
    resources: &[Option<Resource>],
    lowered: &Lowered,
) -> Result<usize, Memory> {
    let layouts = Layouts::new(alloc, resources)?;
    let commands = lowered.fill(alloc, &layouts);
    drop(layouts);
    let commands = commands?;
    let count = commands.len();
    drop(commands);
    Ok(count)
}

/// The same of a recorded list.
fn lowered_and_filled(
    alloc: Global,
    resources: &[Option<Resource>],
    numbers: &Numbers,
    list: &[Record],
) -> Result<usize, Memory>
    requires numbers { AreNumbersOf resources.now numbers.now }
    requires recorded { can_be_recorded resources.now list.now ≡ true }
{
    let lowered = lower(alloc, resources, numbers, list)?;
    let count = filled(alloc, resources, &lowered);
    drop(lowered);
    count
}

/// The same, with the numbers of the resources. A list that cannot have been recorded gives none.
fn numbered(
    alloc: Global,
    resources: &[Option<Resource>],
    list: &[Record],
) -> Result<usize, Memory> {
    if resources.len() > 4096 || !are_recorded(resources, list) {
        return Ok(0);
    }
    let numbers = Numbers::new(alloc, resources)?;
    let count = lowered_and_filled(alloc, resources, &numbers, list);
    drop(numbers);
    count
}

/// The same of a case's list.
fn listed(alloc: Global, resources: &[Option<Resource>], case: Case) -> Result<usize, Memory> {
    let list = list(alloc, ResourceId(case.textures), case.commands)?;
    let count = numbered(alloc, resources, list.as_slice());
    drop(list);
    count
}

/// How many commands the list of a case gives.
pub(crate) fn filled_commands(alloc: Global, case: Case) -> Result<usize, Memory> {
    let resources = resources(alloc, case.textures)?;
    let count = listed(alloc, resources.as_slice(), case);
    drop(resources);
    count
}
