//! Why an image isn't run.

ghost use Rattle.std.specs.Prelude.{◌≡◌, ◌≢◌};
ghost use Rattle.image_run.specs.Courses.{TellsFile, TellsLoad};
ghost use Rattle.image_run.specs.declared.refusal.RunRefusal.TheVariants.{NoMemory};

use ec_report::{ImageRefusal, LoadRefusal};
use pe_loader::LoadRefusal as Unloaded;
use pe_read::ImageRefusal as Unread;
use std::alloc::AllocError;

/// Why an image isn't run: the first of this list, but for `StoreFault` and `NoMemory`, which may come in the place
/// of each.
#[derive(Debug, Drop)]
pub enum RunRefusal {
    /// There is no file of the name.
    Missing,
    /// The store failed.
    StoreFault,
    /// The file is no image.
    Image(ImageRefusal),
    /// The image isn't loaded.
    Load(LoadRefusal),
    /// Memory ran out.
    NoMemory,
}

impl From<AllocError> for RunRefusal {
    ghost from_gives = { λ _ e. e ≡ NoMemory };

    fn from(_e: AllocError) -> RunRefusal {
        RunRefusal::NoMemory
    }
}

/// Why a file is none that is run, by why it is no image.
pub fn of_file(why: Unread) -> RunRefusal
    ensures tells { TellsFile why result }
    ensures inside { result ≢ RunRefusal.StoreFault }
{
    RunRefusal::Image(match why {
        Unread::TooLarge => ImageRefusal::TooLarge,
        Unread::Short => ImageRefusal::Short,
        Unread::DosMagic => ImageRefusal::DosMagic,
        Unread::PeOffset => ImageRefusal::PeOffset,
        Unread::PeMagic => ImageRefusal::PeMagic,
        Unread::Machine => ImageRefusal::Machine,
        Unread::OptionalSize => ImageRefusal::OptionalSize,
        Unread::OptionalMagic => ImageRefusal::OptionalMagic,
        Unread::Alignment => ImageRefusal::Alignment,
        Unread::ImageSize => ImageRefusal::ImageSize,
        Unread::StackSize => ImageRefusal::StackSize,
        Unread::SectionTable => ImageRefusal::SectionTable,
        Unread::SectionRange => ImageRefusal::SectionRange,
        Unread::Directory => ImageRefusal::Directory,
        Unread::Import => ImageRefusal::Import,
        Unread::BaseRelocation => ImageRefusal::BaseRelocation,
        Unread::LoadConfig => ImageRefusal::LoadConfig,
        Unread::Metadata => ImageRefusal::Metadata,
        Unread::Entry => ImageRefusal::Entry,
        Unread::NoMemory => return RunRefusal::NoMemory,
    })
}

/// Why an image is none that is run, by why it isn't loaded.
pub fn of_load(why: Unloaded) -> RunRefusal
    ensures tells { TellsLoad why result }
    ensures inside { result ≢ RunRefusal.StoreFault }
{
    match why {
        Unloaded::BadBase => RunRefusal::Load(LoadRefusal::BadBase),
        Unloaded::UnknownImport(name) => RunRefusal::Load(LoadRefusal::UnknownImport(name)),
        Unloaded::BadRelocation(rva) => RunRefusal::Load(LoadRefusal::BadRelocation(rva)),
        Unloaded::NoMemory => RunRefusal::NoMemory,
    }
}
