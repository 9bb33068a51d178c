//! The names of syncs, accesses, layouts and states.

ghost use Rattle.std.specs.Prelude.{◌≡◌};
ghost use Rattle.std.specs.Option.{option_map};
ghost use Rattle.lower_tables.specs.Names.{sync_named, sync_name, access_named, access_name, layout_named, layout_name, state_named, state_name};

use crate::rows::first_row;
use dx_flags::{Access, Layout, State, Sync};
use trace_words::first_row as first_named;

/// Rows of a key and a value.
macro_rules! rows {
    ($($key:expr => $value:expr;)*) => {
        [$(($key, $value)),*]
    };
}

/// The sync that has that text. None exactly where no single name has it.
#[tactic(auto, unfolding(crate::specs::Names::sync_named, trace_words::specs::Rows::row_of))]
pub fn sync_named(text: &str) -> Option<Sync>
    ensures { result ≡ sync_named text.now }
{
    let rows: [(&str, Sync); 7] = rows![
        "NONE" => Sync::NONE;
        "ALL" => Sync::ALL;
        "COMPUTE_SHADING" => Sync::COMPUTE_SHADING;
        "ALL_SHADING" => Sync::ALL_SHADING;
        "NON_PIXEL_SHADING" => Sync::NON_PIXEL_SHADING;
        "COPY" => Sync::COPY;
        "CLEAR_UNORDERED_ACCESS_VIEW" => Sync::CLEAR_UNORDERED_ACCESS_VIEW;
    ];
    first_named(&rows, text.as_bytes())
}

/// The text of a single sync. None exactly where the set is no single one.
#[tactic(auto, unfolding(crate::specs::Names::sync_name))]
pub fn sync_name(one: Sync) -> Option<&'static str>
    ensures { option_map (λ text. text.now) result ≡ sync_name one }
{
    let rows: [(u32, &'static str); 7] = rows![
        Sync::NONE.0 => "NONE";
        Sync::ALL.0 => "ALL";
        Sync::COMPUTE_SHADING.0 => "COMPUTE_SHADING";
        Sync::ALL_SHADING.0 => "ALL_SHADING";
        Sync::NON_PIXEL_SHADING.0 => "NON_PIXEL_SHADING";
        Sync::COPY.0 => "COPY";
        Sync::CLEAR_UNORDERED_ACCESS_VIEW.0 => "CLEAR_UNORDERED_ACCESS_VIEW";
    ];
    first_row(&rows, one.0)
}

/// The access that has that text. None exactly where no single name has it.
#[tactic(auto, unfolding(crate::specs::Names::access_named, trace_words::specs::Rows::row_of))]
pub fn access_named(text: &str) -> Option<Access>
    ensures { result ≡ access_named text.now }
{
    let rows: [(&str, Access); 7] = rows![
        "UNORDERED_ACCESS" => Access::UNORDERED_ACCESS;
        "SHADER_RESOURCE" => Access::SHADER_RESOURCE;
        "CONSTANT_BUFFER" => Access::CONSTANT_BUFFER;
        "COPY_SOURCE" => Access::COPY_SOURCE;
        "COPY_DEST" => Access::COPY_DEST;
        "COMMON" => Access::COMMON;
        "NO_ACCESS" => Access::NO_ACCESS;
    ];
    first_named(&rows, text.as_bytes())
}

/// The text of a single access. None exactly where the set is no single one.
#[tactic(auto, unfolding(crate::specs::Names::access_name))]
pub fn access_name(one: Access) -> Option<&'static str>
    ensures { option_map (λ text. text.now) result ≡ access_name one }
{
    let rows: [(u32, &'static str); 7] = rows![
        Access::UNORDERED_ACCESS.0 => "UNORDERED_ACCESS";
        Access::SHADER_RESOURCE.0 => "SHADER_RESOURCE";
        Access::CONSTANT_BUFFER.0 => "CONSTANT_BUFFER";
        Access::COPY_SOURCE.0 => "COPY_SOURCE";
        Access::COPY_DEST.0 => "COPY_DEST";
        Access::COMMON.0 => "COMMON";
        Access::NO_ACCESS.0 => "NO_ACCESS";
    ];
    first_row(&rows, one.0)
}

/// The layout that has that text. None exactly where no layout has it.
#[tactic(auto, unfolding(crate::specs::Names::layout_named, trace_words::specs::Rows::row_of))]
pub fn layout_named(text: &str) -> Option<Layout>
    ensures { result ≡ layout_named text.now }
{
    let rows: [(&str, Layout); 7] = rows![
        "UNDEFINED" => Layout::Undefined;
        "COMMON" => Layout::Common;
        "GENERIC_READ" => Layout::GenericRead;
        "UNORDERED_ACCESS" => Layout::UnorderedAccess;
        "SHADER_RESOURCE" => Layout::ShaderResource;
        "COPY_SOURCE" => Layout::CopySource;
        "COPY_DEST" => Layout::CopyDest;
    ];
    first_named(&rows, text.as_bytes())
}

/// The text of a layout. Each has one.
pub fn layout_name(one: Layout) -> Option<&'static str>
    ensures { option_map (λ text. text.now) result ≡ layout_name one }
{
    Some(match one {
        Layout::Undefined => "UNDEFINED",
        Layout::Common => "COMMON",
        Layout::GenericRead => "GENERIC_READ",
        Layout::UnorderedAccess => "UNORDERED_ACCESS",
        Layout::ShaderResource => "SHADER_RESOURCE",
        Layout::CopySource => "COPY_SOURCE",
        Layout::CopyDest => "COPY_DEST",
    })
}

/// The state that has that text. None exactly where no single name has it.
#[tactic(auto, unfolding(crate::specs::Names::state_named, trace_words::specs::Rows::row_of))]
pub fn state_named(text: &str) -> Option<State>
    ensures { result ≡ state_named text.now }
{
    let rows: [(&str, State); 7] = rows![
        "COMMON" => State::COMMON;
        "VERTEX_AND_CONSTANT_BUFFER" => State::VERTEX_AND_CONSTANT_BUFFER;
        "NON_PIXEL_SHADER_RESOURCE" => State::NON_PIXEL_SHADER_RESOURCE;
        "PIXEL_SHADER_RESOURCE" => State::PIXEL_SHADER_RESOURCE;
        "COPY_SOURCE" => State::COPY_SOURCE;
        "COPY_DEST" => State::COPY_DEST;
        "UNORDERED_ACCESS" => State::UNORDERED_ACCESS;
    ];
    first_named(&rows, text.as_bytes())
}

/// The text of a single state. None exactly where the union is no single one.
#[tactic(auto, unfolding(crate::specs::Names::state_name))]
pub fn state_name(one: State) -> Option<&'static str>
    ensures { option_map (λ text. text.now) result ≡ state_name one }
{
    let rows: [(u32, &'static str); 7] = rows![
        State::COMMON.0 => "COMMON";
        State::VERTEX_AND_CONSTANT_BUFFER.0 => "VERTEX_AND_CONSTANT_BUFFER";
        State::NON_PIXEL_SHADER_RESOURCE.0 => "NON_PIXEL_SHADER_RESOURCE";
        State::PIXEL_SHADER_RESOURCE.0 => "PIXEL_SHADER_RESOURCE";
        State::COPY_SOURCE.0 => "COPY_SOURCE";
        State::COPY_DEST.0 => "COPY_DEST";
        State::UNORDERED_ACCESS.0 => "UNORDERED_ACCESS";
    ];
    first_row(&rows, one.0)
}
