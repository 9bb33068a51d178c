//! The commands of start-up batches, worked out by hand.

use barrier_lowering::startup_commands;
use d3d_resources::{Start, buffer, texture};
use dx_base::Home;
use dx_flags::{Layout, State};
use std::test::Fail;
use vk_types::{Accesses, Change, Stages, VkCommand, VkLayout};

/// A barrier of all commands that changes the layout of a subresource from UNDEFINED.
fn begins(image: u32, sub: u32, layout: VkLayout) -> VkCommand {
    VkCommand::Barrier {
        from: Stages::ALL_COMMANDS,
        made: Accesses(0),
        to: Stages::ALL_COMMANDS,
        seen: Accesses(1 + 2),
        change: Some(Change {
            image,
            sub: Some(sub),
            old: VkLayout::Undefined,
            new: layout,
        }),
    }
}

#[test]
fn each_subresource_begins_in_its_first_layout(rt: HostRuntime) -> Result<(), Fail> {
    let dest = VkLayout::TransferDstOptimal;
    let read = VkLayout::ShaderReadOnlyOptimal;
    let expected = [
        begins(0, 0, dest),
        begins(0, 1, dest),
        begins(0, 2, dest),
        begins(0, 3, dest),
        begins(1, 0, VkLayout::General),
        begins(2, 0, read),
        begins(2, 1, read),
    ];
    let world = [
        Some(texture(Start::Enhanced(Layout::CopyDest), 2, 1, 2, 2, false)?),
        Some(buffer(Home::Upload, 64)?),
        None,
        Some(texture(Start::Legacy(State::COPY_SOURCE), 1, 1, 1, 1, false)?),
        Some(texture(Start::Enhanced(Layout::ShaderResource), 1, 2, 1, 2, true)?),
    ];
    let commands = startup_commands(rt.alloc(), &world)?;
    assert!(rt; commands.as_slice() == expected.as_slice());
    Ok(())
}

#[test]
fn buffers_have_no_start_up(rt: HostRuntime) -> Result<(), Fail> {
    let upload = Some(buffer(Home::Upload, 64)?);
    let commands = startup_commands(rt.alloc(), &[upload, None, upload])?;
    assert!(rt; commands.is_empty());
    Ok(())
}
