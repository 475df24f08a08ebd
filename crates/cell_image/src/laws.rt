//! The laws of images. Each function does nothing; its clause is the law.
ghost use Rattle.cell_image.specs.Laws.{ImagesAreUnique, ImagesReadBack};

/// Bytes tell a listing exactly where they are its image.
pub fn images_read_back()
    ensures { ImagesReadBack }
{}

/// Bytes are the image of one listing at most.
pub fn images_are_unique()
    ensures { ImagesAreUnique }
{}
