//! The law that an image for tools is read as what it tells: a reader of the standard's tables finds the headers of its sections
//! with their names, its symbols with theirs, the LOCAL ones first, and each section of debug data where the header of its name
//! says. It has no code; `debug_image` is proved to make the file of the definitions.
#![tactic(auto)]

ghost use Rattle.debug_law.specs.ReadImages.{ImagesAreReadBack};

/// The image for tools of each link is read back.
pub fn images_are_read_back()
    ensures { ImagesAreReadBack }
{}
