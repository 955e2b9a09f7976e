//! The image of an artifact.

ghost use Rattle.std.specs.Prelude.{◌≡◌, ◌<◌, ◌≤◌, IfOk, IfErr};
ghost use Rattle.io_model.specs.Source.{IsLength, When, count_of};
ghost use Rattle.ab_image.specs.Finding.{IsImageOf, NoImage, Stops};

use crate::artifact::{find_files, listed_sum};
use crate::report::AbAct;
use io_model::Source;
use manifest_sums::Sum;
use std::alloc::Global;

/// The one image of the artifact, its length, and the sum that is listed for it.
#[derive(Drop)]
pub(crate) struct Image {
    pub file: u32,
    pub size: u64,
    pub listed: Sum,
}

/// Finds the image, and that it fits.
pub(crate) fn find_image<S: Source>(
    alloc: Global,
    source: &mut S,
    most: u64,
) -> Result<Image, AbAct>
    ensures same { S.content source.new ≡ S.content source.old }
    ensures plan { S.plan source.new ≡ S.plan source.old }
    ensures stops { Stops (S.faults source.old) result (S.faults source.new) }
    ensures file { IfOk result (λ image. image.file < count_of (S.content source.old)) }
    ensures size { IfOk result (λ image. IsLength (S.content source.old) image.file image.size) }
    ensures fits { IfOk result (λ image. image.size ≤ most) }
    ensures image { IfOk result (λ image. When (S.content source.old) (λ tree. IsImageOf tree image)) }
    ensures none { IfErr result (λ stop. NoImage (S.content source.old) most stop) }
{
    let found = match find_files(source) {
        Ok(found) => found,
        Err(_) => return Err(AbAct::SourceFault),
    };
    if found.images != 1 {
        return Err(AbAct::BadPayload(found.images));
    }
    let listed = listed_sum(alloc, source, found.type_info)?;
    match source.length(found.image) {
        Ok(size) => {
            if size > most {
                return Err(AbAct::TooLong(size));
            }
            Ok(Image {
                file: found.image,
                size,
                listed,
            })
        }
        Err(_) => Err(AbAct::SourceFault),
    }
}
