//! From a file to a machine at its start.

ghost use Rattle.std.specs.Prelude.{◌≡◌, ◌≤◌, IsTrue, IsErrOf};
ghost use Rattle.hx_words.specs.Counts.{Rose};
ghost use Rattle.hx_io.specs.Files.{SameFiles};
ghost use Rattle.pe_read.specs.Images.{image_of};
ghost use Rattle.pe_loader.specs.Loading.{CanLoad};
ghost use Rattle.image_run.specs.Courses.{FindsFile, ReadsImage, Starts, Opens, OpensFile, image_course};

use crate::refusal::{RunRefusal, of_file, of_load};
use chpe_types::Image;
use ec_report::ImageRefusal;
use hx_io::{Found, Store, StoreFail};
use mixed_machine::Machine;
use pe_loader::load;
use pe_read::read;
use std::alloc::Global;

/// The most bytes of an image's file.
const MOST_BYTES: u64 = 134_217_728;

/// The bytes of the file.
#[tactic(auto, using(crate::proofs::OpenLaws::missing, crate::proofs::OpenLaws::longer))]
fn read_file<S: Store>(alloc: Global, name: &str, store: &mut S) -> Result<Vec<u8>, RunRefusal>
    ensures finds { IsTrue (S.tells store.old) → FindsFile (S.file store.old name.now) result }
    ensures same { IsTrue (S.tells store.old) → SameFiles (S.file store.old) (S.file store.new) }
    ensures failed { IsErrOf result RunRefusal.StoreFault → Rose (S.faults store.old) (S.faults store.new) }
{
    match store.load(alloc, name, MOST_BYTES) {
        Ok(Found::Whole(bytes)) => Ok(bytes),
        Ok(Found::Missing) => Err(RunRefusal::Missing),
        Ok(Found::Longer) => Err(RunRefusal::Image(ImageRefusal::TooLarge)),
        Err(StoreFail::Failed) => Err(RunRefusal::StoreFault),
        Err(StoreFail::NoMemory) => Err(RunRefusal::NoMemory),
    }
}

/// The image that the bytes of a file are.
#[tactic(auto, using(crate::proofs::OpenLaws::unread))]
fn read_image(alloc: Global, bytes: &[u8]) -> Result<Image, RunRefusal>
    ensures reads { ReadsImage (image_of bytes.now) result }
    ensures inside { IsErrOf result RunRefusal.StoreFault → ⊥ }
{
    match read(alloc, bytes) {
        Ok(image) => Ok(image),
        Err(why) => Err(of_file(why)),
    }
}

/// A machine at the start of an image at a base.
fn start(alloc: Global, image: &Image, base: u64) -> Result<Machine, RunRefusal>
    requires { CanLoad image.now }
    ensures starts { Starts image.now base result }
    ensures inside { IsErrOf result RunRefusal.StoreFault → ⊥ }
{
    match load(alloc, image, base) {
        Ok(loaded) => Ok(Machine::new(alloc, loaded)?),
        Err(why) => Err(of_load(why)),
    }
}

/// A machine at the start of the image that the bytes of a file are.
fn open(alloc: Global, bytes: &[u8], base: u64) -> Result<Machine, RunRefusal>
    ensures opens { Opens (image_of bytes.now) base result }
    ensures inside { IsErrOf result RunRefusal.StoreFault → ⊥ }
{
    let image = read_image(alloc, bytes)?;
    start(alloc, &image, base)
}

/// A machine at the start of the image in a file.
pub fn open_file<S: Store>(
    alloc: Global,
    name: &str,
    base: u64,
    store: &mut S,
) -> Result<Machine, RunRefusal>
    ensures opens { OpensFile (S.tells store.old) (image_course (S.file store.old) name.now base) base result }
    ensures same { IsTrue (S.tells store.old) → SameFiles (S.file store.old) (S.file store.new) }
    ensures failed { IsErrOf result RunRefusal.StoreFault → Rose (S.faults store.old) (S.faults store.new) }
{
    let bytes = read_file(alloc, name, store)?;
    open(alloc, &bytes, base)
}
