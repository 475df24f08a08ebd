//! Why bytes are no image, and why a listing has none.
ghost use Rattle.std.specs.Prelude.{◌≡◌};
ghost use Rattle.cell_image.specs.declared.image_fault.ImageFault.TheVariants as fault;
ghost use Rattle.cell_image.specs.declared.image_fault.WriteImageFault.TheVariants as write_fault;

use std::alloc::AllocError;

/// The first fault of bytes that are no image. Places are counted from 0, in bytes.
#[derive(Clone, Copy, Debug, PartialEq, Eq)]
pub enum ImageFault {
    /// The bytes end within the field that begins at this place.
    CutShort { at: u64 },
    /// They don't begin with the mark.
    BadMark,
    /// An id of some kind has a number of bytes that isn't 2 to 4.
    BadWidths,
    /// The byte at this place is no table.
    BadTable { at: u64 },
    /// The length that begins at this place is 0.
    EmptyPart { at: u64 },
    /// The cell that begins at this place isn't above the one before it.
    NotRising { at: u64 },
    /// The last cell ends before this place, and the bytes don't.
    Trailing { at: u64 },
    /// There was no memory.
    OutOfMemory,
}

impl From<AllocError> for ImageFault {
    ghost from_gives = { λ _ e. e ≡ fault.OutOfMemory };

    fn from(_e: AllocError) -> ImageFault {
        ImageFault::OutOfMemory
    }
}

/// Why a listing has no image.
#[derive(Clone, Copy, Debug, PartialEq, Eq)]
pub enum WriteImageFault {
    /// A part of the cell with this number, from 1, is too long for its length.
    TooLarge { cell: u64 },
    /// There was no memory.
    OutOfMemory,
}

impl From<AllocError> for WriteImageFault {
    ghost from_gives = { λ _ e. e ≡ write_fault.OutOfMemory };

    fn from(_e: AllocError) -> WriteImageFault {
        WriteImageFault::OutOfMemory
    }
}
