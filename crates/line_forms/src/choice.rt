//! Choices: the parts of lines that are one of some fixed words.

ghost use Rattle.std.specs.Prelude.{◌≡◌};
ghost use Rattle.line_forms.specs.declared.choice.Choice.TheVariants as choice;
ghost use Rattle.line_forms.specs.Choices.{choice_text, choices_of, chosen, type_in, home_in, layout_in, class_in, shared_in, visible_in, version_in, routine_in};

use dx_base::{Class, Home, ListType, Routine};
use dx_flags::Layout;
use trace_words::is_word;

/// A version of root signatures (D3D_ROOT_SIGNATURE_VERSION).
#[derive(Clone, Copy, Debug, PartialEq, Eq)]
pub enum Version {
    /// 1.0.
    One,
    /// 1.1.
    OneOne,
}

/// What is chosen between.
#[derive(Clone, Copy, Debug, PartialEq, Eq)]
pub enum Choices {
    /// The type of a queue, an allocator or a list.
    Type,
    /// Where a buffer lies.
    Home,
    /// A layout of a texture.
    Layout,
    /// The class of a view.
    Class,
    /// Whether a texture is one of simultaneous access: `shared`, or else `plain`.
    Shared,
    /// Whether a heap is visible to shaders: `visible`, or else `plain`.
    Visible,
    /// The version of a root signature.
    Version,
    /// A routine.
    Routine,
}

/// What is chosen.
#[derive(Clone, Copy, Debug, PartialEq, Eq)]
pub enum Choice {
    Type(ListType),
    Home(Home),
    Layout(Layout),
    Class(Class),
    Shared(bool),
    Visible(bool),
    Version(Version),
    Routine(Routine),
}

const TYPE: [Choice; 3] = [
    Choice::Type(ListType::Direct),
    Choice::Type(ListType::Compute),
    Choice::Type(ListType::Copy),
];

const HOME: [Choice; 4] = [
    Choice::Home(Home::Upload),
    Choice::Home(Home::Readback),
    Choice::Home(Home::Legacy),
    Choice::Home(Home::Enhanced),
];

const LAYOUT: [Choice; 7] = [
    Choice::Layout(Layout::Undefined),
    Choice::Layout(Layout::Common),
    Choice::Layout(Layout::GenericRead),
    Choice::Layout(Layout::UnorderedAccess),
    Choice::Layout(Layout::ShaderResource),
    Choice::Layout(Layout::CopySource),
    Choice::Layout(Layout::CopyDest),
];

const CLASS: [Choice; 3] = [
    Choice::Class(Class::Cbv),
    Choice::Class(Class::Srv),
    Choice::Class(Class::Uav),
];

const SHARED: [Choice; 2] = [Choice::Shared(false), Choice::Shared(true)];

const VISIBLE: [Choice; 2] = [Choice::Visible(true), Choice::Visible(false)];

const VERSION: [Choice; 2] = [
    Choice::Version(Version::One),
    Choice::Version(Version::OneOne),
];

const ROUTINE: [Choice; 8] = [
    Choice::Routine(Routine::Fill),
    Choice::Routine(Routine::Move),
    Choice::Routine(Routine::Add),
    Choice::Routine(Routine::Mul),
    Choice::Routine(Routine::Gather),
    Choice::Routine(Routine::Scatter),
    Choice::Routine(Routine::Sums),
    Choice::Routine(Routine::Histogram),
];

impl Choices {
    /// What may be chosen.
    pub fn all(self) -> &'static [Choice]
        ensures { result.now ≡ choices_of self }
    {
        match self {
            Choices::Type => &TYPE,
            Choices::Home => &HOME,
            Choices::Layout => &LAYOUT,
            Choices::Class => &CLASS,
            Choices::Shared => &SHARED,
            Choices::Visible => &VISIBLE,
            Choices::Version => &VERSION,
            Choices::Routine => &ROUTINE,
        }
    }
}

/// The word of a layout.
fn layout_text(layout: Layout) -> &'static str
    ensures { result.now ≡ choice_text (choice.Layout layout) }
{
    match layout {
        Layout::Undefined => "UNDEFINED",
        Layout::Common => "COMMON",
        Layout::GenericRead => "GENERIC_READ",
        Layout::UnorderedAccess => "UNORDERED_ACCESS",
        Layout::ShaderResource => "SHADER_RESOURCE",
        Layout::CopySource => "COPY_SOURCE",
        Layout::CopyDest => "COPY_DEST",
    }
}

/// The name of a routine.
fn routine_text(routine: Routine) -> &'static str
    ensures { result.now ≡ choice_text (choice.Routine routine) }
{
    match routine {
        Routine::Fill => "fill",
        Routine::Move => "move",
        Routine::Add => "add",
        Routine::Mul => "mul",
        Routine::Gather => "gather",
        Routine::Scatter => "scatter",
        Routine::Sums => "sums",
        Routine::Histogram => "histogram",
    }
}

impl Choice {
    /// The word of what is chosen.
    pub fn text(self) -> &'static str
        ensures { result.now ≡ choice_text self }
    {
        match self {
            Choice::Type(one) => match one {
                ListType::Direct => "direct",
                ListType::Compute => "compute",
                ListType::Copy => "copy",
            },
            Choice::Home(one) => match one {
                Home::Upload => "upload",
                Home::Readback => "readback",
                Home::Legacy => "legacy",
                Home::Enhanced => "enhanced",
            },
            Choice::Layout(one) => layout_text(one),
            Choice::Class(one) => match one {
                Class::Cbv => "cbv",
                Class::Srv => "srv",
                Class::Uav => "uav",
            },
            Choice::Shared(one) => match one {
                false => "plain",
                true => "shared",
            },
            Choice::Visible(one) => match one {
                true => "visible",
                false => "plain",
            },
            Choice::Version(one) => match one {
                Version::One => "1.0",
                Version::OneOne => "1.1",
            },
            Choice::Routine(one) => routine_text(one),
        }
    }

    /// The type of a queue, an allocator or a list. A default where another thing is chosen.
    pub fn list_type(self) -> ListType
        ensures { result ≡ type_in self }
    {
        if let Choice::Type(one) = self {
            one
        } else {
            ListType::Direct
        }
    }

    /// Where a buffer lies. A default where another thing is chosen.
    pub fn home(self) -> Home
        ensures { result ≡ home_in self }
    {
        if let Choice::Home(one) = self {
            one
        } else {
            Home::Upload
        }
    }

    /// A layout of a texture. A default where another thing is chosen.
    pub fn layout(self) -> Layout
        ensures { result ≡ layout_in self }
    {
        if let Choice::Layout(one) = self {
            one
        } else {
            Layout::Undefined
        }
    }

    /// The class of a view. A default where another thing is chosen.
    pub fn class(self) -> Class
        ensures { result ≡ class_in self }
    {
        if let Choice::Class(one) = self {
            one
        } else {
            Class::Cbv
        }
    }

    /// Whether a texture is one of simultaneous access: `shared`, or else `plain`. A default where another thing is chosen.
    pub fn shared(self) -> bool
        ensures { result ≡ shared_in self }
    {
        if let Choice::Shared(one) = self {
            one
        } else {
            false
        }
    }

    /// Whether a heap is visible to shaders: `visible`, or else `plain`. A default where another thing is chosen.
    pub fn visible(self) -> bool
        ensures { result ≡ visible_in self }
    {
        if let Choice::Visible(one) = self {
            one
        } else {
            false
        }
    }

    /// The version of a root signature. A default where another thing is chosen.
    pub fn version(self) -> Version
        ensures { result ≡ version_in self }
    {
        if let Choice::Version(one) = self {
            one
        } else {
            Version::One
        }
    }

    /// A routine. A default where another thing is chosen.
    pub fn routine(self) -> Routine
        ensures { result ≡ routine_in self }
    {
        if let Choice::Routine(one) = self {
            one
        } else {
            Routine::Fill
        }
    }
}

/// The first choice with that word.
#[tactic(auto, unfolding(crate::specs::Choices::chosen))]
pub fn chosen(choices: &[Choice], word: &[u8]) -> Option<Choice>
    ensures { result ≡ chosen choices.now word.now }
{
    for choice in choices {
        if is_word(word, choice.text()) {
            return Some(*choice);
        }
    }
    None
}
