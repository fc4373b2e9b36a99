//! What the definition of a new image means. The functions only call the laws that their own stand on: their contracts are
//! the laws.
ghost use Rattle.mkgfs2_tool.specs.Standing.{NewImagesStand};
ghost use Rattle.mkgfs2_tool.specs.Insertions.{JournalsAreInserted};

use crc_words::checksums_have_32_bits;
use gfs2_layout::{areas_join, structures_read_back};
use image_model::{holdings_are_owned, journals_read_alike, owners_claim_their_blocks};
use log_layout::headers_read_back;

/// A law: every image that is made of a plan that fits its device stands for the empty directory.
pub fn new_images_stand()
    ensures { NewImagesStand }
{
    structures_read_back();
    headers_read_back();
    areas_join();
    holdings_are_owned();
    owners_claim_their_blocks();
    journals_read_alike();
    checksums_have_32_bits();
}

/// A law: the records of the directory of journals are those that come of putting its names in one by one.
pub fn journals_are_inserted()
    ensures { JournalsAreInserted }
{
    structures_read_back();
    headers_read_back();
    areas_join();
    holdings_are_owned();
    owners_claim_their_blocks();
    journals_read_alike();
    checksums_have_32_bits();
}
