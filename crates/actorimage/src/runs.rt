//! The image with which a run begins, and where it is saved.
ghost use Rattle.std.specs.Prelude.{◌≡◌};
ghost use Rattle.actorimage.specs.Runs as spec;
ghost use Rattle.actorimage.specs.Runs.{BeginsWith};

use st_classes::refusals::Refusal;
use st_image::settings::Settings;
use st_script::images::Image;
use std::alloc::Global;

/// The image with which a run begins: the one that was found in a file, or else a new one. If the file was refused, the run does
/// not begin.
pub fn begin_with(alloc: Global, found: Result<Option<Image>, Refusal>) -> Result<Image, Refusal>
    ensures { BeginsWith found result }
{
    match found {
        Ok(Some(image)) => Ok(image),
        Ok(None) => Image::new(alloc, Settings::DEFAULT),
        Err(refusal) => Err(refusal),
    }
}

/// Where the image is saved after a run: at the given path, if any, and nowhere if the run was refused.
pub fn saved_at<P: Copy, T, E>(path: Option<P>, ended: &Result<T, E>) -> Option<P>
    ensures { result ≡ spec.saved_at path ended.now }
{
    match ended {
        Ok(_) => path,
        Err(_) => None,
    }
}
