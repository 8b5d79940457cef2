//! The words of a line that stand for a kind.

ghost use Rattle.std.specs.Prelude.{◌≡◌};
ghost use Rattle.ec_report.specs.Names.{why_name, type_name, limit_name, image_name, load_name};

use crate::kinds::{ImageRefusal, LimitKind, LoadRefusal, StuckWhy, TypeKind};

/// The word for a reason of the machine.
pub(crate) fn why_name(why: StuckWhy) -> &'static str
    ensures { result.now ≡ why_name why }
{
    match why {
        StuckWhy::NoRange => "NoRange",
        StuckWhy::Misaligned => "Misaligned",
        StuckWhy::BadInstruction => "BadInstruction",
        StuckWhy::Blocked => "Blocked",
        StuckWhy::Unmapped => "Unmapped",
        StuckWhy::Protected => "Protected",
        StuckWhy::Divide => "Divide",
        StuckWhy::Halt => "Halt",
        StuckWhy::BadSwitch => "BadSwitch",
        StuckWhy::NoThunk => "NoThunk",
        StuckWhy::BadTarget => "BadTarget",
    }
}

/// The word for a rule of the types.
pub(crate) fn type_name(kind: TypeKind) -> &'static str
    ensures { result.now ≡ type_name kind }
{
    match kind {
        TypeKind::Redeclared => "Redeclared",
        TypeKind::Unknown => "Unknown",
        TypeKind::Incomplete => "Incomplete",
        TypeKind::BadType => "BadType",
        TypeKind::NotValue => "NotValue",
        TypeKind::NotPlace => "NotPlace",
        TypeKind::NoAddress => "NoAddress",
        TypeKind::NotPointer => "NotPointer",
        TypeKind::NoField => "NoField",
        TypeKind::NotArray => "NotArray",
        TypeKind::NotInteger => "NotInteger",
        TypeKind::NotScalar => "NotScalar",
        TypeKind::Mismatch => "Mismatch",
        TypeKind::NotFunction => "NotFunction",
        TypeKind::ArgumentCount => "ArgumentCount",
        TypeKind::VariadicCount => "VariadicCount",
        TypeKind::Variadic => "Variadic",
        TypeKind::BadInitial => "BadInitial",
        TypeKind::Flow => "Flow",
        TypeKind::BadAdjustor => "BadAdjustor",
        TypeKind::Undefined => "Undefined",
        TypeKind::NoMain => "NoMain",
    }
}

/// The word for a limit.
pub(crate) fn limit_name(which: LimitKind) -> &'static str
    ensures { result.now ≡ limit_name which }
{
    match which {
        LimitKind::Units => "units",
        LimitKind::Objects => "objects",
        LimitKind::UnitBytes => "unit-bytes",
        LimitKind::AllBytes => "all-bytes",
        LimitKind::Nodes => "nodes",
        LimitKind::Functions => "functions",
        LimitKind::Parameters => "parameters",
        LimitKind::Extras => "extras",
        LimitKind::StructBytes => "struct-bytes",
        LimitKind::FrameBytes => "frame-bytes",
        LimitKind::GlobalBytes => "global-bytes",
        LimitKind::NameBytes => "name-bytes",
    }
}

/// The word for a reason why a file isn't an image.
pub(crate) fn image_name(why: ImageRefusal) -> &'static str
    ensures { result.now ≡ image_name why }
{
    match why {
        ImageRefusal::TooLarge => "TooLarge",
        ImageRefusal::Short => "Short",
        ImageRefusal::DosMagic => "DosMagic",
        ImageRefusal::PeOffset => "PeOffset",
        ImageRefusal::PeMagic => "PeMagic",
        ImageRefusal::Machine => "Machine",
        ImageRefusal::OptionalSize => "OptionalSize",
        ImageRefusal::OptionalMagic => "OptionalMagic",
        ImageRefusal::Alignment => "Alignment",
        ImageRefusal::ImageSize => "ImageSize",
        ImageRefusal::StackSize => "StackSize",
        ImageRefusal::SectionTable => "SectionTable",
        ImageRefusal::SectionRange => "SectionRange",
        ImageRefusal::Directory => "Directory",
        ImageRefusal::Import => "Import",
        ImageRefusal::BaseRelocation => "BaseRelocation",
        ImageRefusal::LoadConfig => "LoadConfig",
        ImageRefusal::Metadata => "Metadata",
        ImageRefusal::Entry => "Entry",
    }
}

/// The word for a reason of the loader.
pub(crate) fn load_name(why: &LoadRefusal) -> &'static str
    ensures { result.now ≡ load_name why.now }
{
    match why {
        LoadRefusal::BadBase => "BadBase",
        LoadRefusal::UnknownImport(_) => "UnknownImport",
        LoadRefusal::BadRelocation(_) => "BadRelocation",
    }
}
