//! A saved image loads again.
ghost use Rattle.st_file.specs.RoundTrips.{DocumentsLoad, FilesLoad, TextsLoad};

use crate::images::describes_one;

/// Loading the value that [`crate::saving::image_value`] answers gives the image again: its names and its counts are the same, it
/// begins with the image's present world, and nothing has happened in it yet. The same holds of a text that [`crate::saving::save`] has
/// written, and of an input that gives such a text. Such a load can only run out of memory, or fail to read the input to its end.
pub fn saved_loads()
    ensures documents { DocumentsLoad }
    ensures texts { TextsLoad }
    ensures files { FilesLoad }
{
    describes_one();
}
