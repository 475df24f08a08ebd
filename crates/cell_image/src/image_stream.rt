//! Reading an image from a source, in whatever pieces its bytes come.
ghost use Rattle.std.specs.Prelude.{◌≡◌, ◌+◌, ◌^◌, ◌<◌, ◌≤◌, ◌-◌, length, Err, OnErr, IfOk};
ghost use Rattle.tsd_io.specs.Causes.{Rose};
ghost use Rattle.line_stream.specs.Reads.{Feeds};
ghost use Rattle.cell_image.specs.Images.{width_bytes};
ghost use Rattle.cell_image.specs.ImageReads.{AddsCell, Reads, head_read, moved};
ghost use Rattle.cell_image.specs.ImageTakes.{Ends, TakesBy, TakesCell, TakesImage, TakesMore, TakesPiece, is_cut, nothing};
ghost use Rattle.cell_image.specs.declared.image_stream.TakeImageFault.TheVariants as taking;
ghost use Rattle.line_stream.specs.declared.reader.InputFault.TheVariants as input;

use crate::image_fault::ImageFault;
use crate::image_fields::{ImageFields, ImageHead};
use crate::image_reader::add_cell;
use cell_model::Listing;
use line_stream::buffer::LineBuffer;
use line_stream::reader::{InputFault, LONGEST_INPUT};
use std::alloc::{AllocError, Global};
use std::marker::Model;
use tsd_io::ports::{Failed, Source};

/// How many bytes are taken at once at most.
const PIECE: usize = 65_536;

/// Why no listing was taken of a source.
#[derive(Clone, Copy, Debug, PartialEq, Eq)]
pub enum TakeImageFault {
    /// The bytes are no image.
    Image { fault: ImageFault },
    /// They weren't taken to their end.
    Input { fault: InputFault },
}

impl From<ImageFault> for TakeImageFault {
    ghost from_gives = { λ f e. e ≡ taking.Image f };

    fn from(fault: ImageFault) -> TakeImageFault {
        TakeImageFault::Image { fault }
    }
}

impl From<InputFault> for TakeImageFault {
    ghost from_gives = { λ f e. e ≡ taking.Input f };

    fn from(fault: InputFault) -> TakeImageFault {
        TakeImageFault::Input { fault }
    }
}

impl From<AllocError> for TakeImageFault {
    ghost from_gives = { λ _ e. e ≡ taking.Input input.OutOfMemory };

    fn from(_e: AllocError) -> TakeImageFault {
        TakeImageFault::Input {
            fault: InputFault::OutOfMemory,
        }
    }
}

/// The listing of which the bytes of a source are the image, or their first fault. The source is taken to its end, or to where a fault is
/// certain, whatever more comes. The bytes aren't kept whole: no more than a cell of them and a piece.
pub fn take_image<S: Source>(alloc: Global, source: &mut S) -> Result<Listing, TakeImageFault>
    ensures takes { TakesImage (S.taken source.old) (S.taken source.new) (S.left source.old) (S.left source.new) result }
    ensures later { S.faults source.old ≤ S.faults source.new }
    ensures failed { result ≡ Err (taking.Input input.Failed) → Rose (S.faults source.old) (S.faults source.new) }
{
    let mut stream = ImageStream::make(alloc)?;
    let head = stream.take_head(source)?;
    let mut listing = Listing::none(alloc, head.widths);
    for done in 0..head.number {
        stream.take_cell(alloc, source, &mut listing)?;
    }
    stream.take_end(source)?;
    Ok(listing)
}

/// The bytes of an image that came and aren't used up. Contracts see them with the place of the first.
#[derive(Drop)]
struct ImageStream {
    buffer: LineBuffer,
    piece: Vec<u8>,
    used: u64,
}

impl Model for ImageStream {
    ghost use Rattle.std.specs.Prelude.{◌≡◌, ◌+◌, ◌^◌, ◌≤◌, length};
    ghost use Rattle.cell_image.specs.ImageReads.{Spot};

    ghost Value = { Spot };

    ghost view = { λ s. record { at = s.used; bytes = s.buffer } };

    ghost invariant = { λ s. record {
      piece : length s.piece.items ≡ 65536;
      most : s.used + length s.buffer ≤ 2 ^ 40;
    } };
}

impl ImageStream {
    /// Nothing was taken.
    fn make(alloc: Global) -> Result<ImageStream, AllocError>
        ensures { IfOk result (λ stream. stream ≡ nothing) }
    {
        Ok(ImageStream {
            buffer: LineBuffer::make(alloc),
            piece: vec![in alloc; 0u8; PIECE]?,
            used: 0,
        })
    }

    /// The head of the image, for which bytes of the source are taken where they are needed.
    fn take_head<S: Source>(&mut self, source: &mut S) -> Result<ImageHead, TakeImageFault>
        ensures takes { TakesBy (λ head. (width_bytes head.widths, head.number)) head_read (S.taken source.old) (S.taken source.new) (S.left source.old) (S.left source.new) self.old result self.new }
        ensures later { S.faults source.old ≤ S.faults source.new }
        ensures failed { result ≡ Err (taking.Input input.Failed) → Rose (S.faults source.old) (S.faults source.new) }
    {
        loop {
            match self.head() {
                Ok(head) => return Ok(head),
                Err(fault) => self.take_more(source, fault)?,
            }
        }
    }

    /// Adds the next cell of the image to a listing, for which bytes of the source are taken where they are needed.
    fn take_cell<S: Source>(
        &mut self,
        alloc: Global,
        source: &mut S,
        listing: &mut Listing,
    ) -> Result<(), TakeImageFault>
        ensures takes { TakesCell listing.old.lines (S.taken source.old) (S.taken source.new) (S.left source.old) (S.left source.new) self.old result listing.new.lines self.new }
        ensures widths { listing.new.widths ≡ listing.old.widths }
        ensures later { S.faults source.old ≤ S.faults source.new }
        ensures failed { result ≡ Err (taking.Input input.Failed) → Rose (S.faults source.old) (S.faults source.new) }
    {
        loop {
            match self.cell(alloc, listing) {
                Ok(()) => return Ok(()),
                Err(fault) => self.take_more(source, fault)?,
            }
        }
    }

    /// The end of the image, behind which the source is to have no byte.
    fn take_end<S: Source>(&mut self, source: &mut S) -> Result<(), TakeImageFault>
        ensures ends { Ends (S.taken source.old) (S.taken source.new) (S.left source.old) (S.left source.new) self.old result }
        ensures later { S.faults source.old ≤ S.faults source.new }
        ensures failed { result ≡ Err (taking.Input input.Failed) → Rose (S.faults source.old) (S.faults source.new) }
    {
        if self.buffer.bytes().is_empty() && self.take_piece(source)? == 0 {
            return Ok(());
        }
        Err(TakeImageFault::Image {
            fault: ImageFault::Trailing { at: self.used },
        })
    }

    /// Takes a piece of the source where this fault is that the bytes are cut short. Any other fault stands, and so does this one where
    /// the source has ended.
    fn take_more<S: Source>(
        &mut self,
        source: &mut S,
        fault: ImageFault,
    ) -> Result<(), TakeImageFault>
        ensures takes { TakesMore fault (S.taken source.old) (S.taken source.new) (S.left source.old) (S.left source.new) self.old result self.new }
        ensures later { S.faults source.old ≤ S.faults source.new }
        ensures failed { result ≡ Err (taking.Input input.Failed) → Rose (S.faults source.old) (S.faults source.new) }
    {
        if !is_cut(fault) {
            return Err(TakeImageFault::Image { fault });
        }
        if self.take_piece(source)? == 0 {
            return Err(TakeImageFault::Image { fault });
        }
        Ok(())
    }

    /// Takes a piece of the source, and answers how many bytes. None is the source's end.
    fn take_piece<S: Source>(&mut self, source: &mut S) -> Result<usize, InputFault>
        ensures takes { TakesPiece (S.taken source.old) (S.taken source.new) (S.left source.old) (S.left source.new) self.old result self.new }
        ensures later { S.faults source.old ≤ S.faults source.new }
        ensures failed { result ≡ Err InputFault.Failed → Rose (S.faults source.old) (S.faults source.new) }
    {
        let taken = self.used + self.buffer.bytes().len() as u64;
        if taken == LONGEST_INPUT {
            return Err(InputFault::Full);
        }
        let room = (LONGEST_INPUT - taken).min(PIECE as u64) as usize;
        let count = take_within(source, &mut self.piece, room, &mut self.buffer)?;
        Ok(count)
    }

    /// The head of the image, if its bytes have come. It is used up.
    fn head(&mut self) -> Result<ImageHead, ImageFault>
        ensures reads { Reads (λ head. (width_bytes head.widths, head.number)) result self.new (head_read self.old) }
        ensures same { OnErr result (self.new ≡ self.old) }
    {
        let mut fields = ImageFields::of(self.used, self.buffer.bytes());
        let head = fields.head()?;
        let end = fields.at();
        self.use_up(end);
        Ok(head)
    }

    /// Adds the next cell of the image to a listing, if its bytes have come. They are used up.
    fn cell(&mut self, alloc: Global, listing: &mut Listing) -> Result<(), ImageFault>
        ensures adds { AddsCell listing.old.lines self.old result listing.new.lines self.new }
        ensures widths { listing.new.widths ≡ listing.old.widths }
        ensures same { OnErr result ((self.new ≡ self.old) × (listing.new ≡ listing.old)) }
    {
        let mut fields = ImageFields::of(self.used, self.buffer.bytes());
        add_cell(alloc, listing, &mut fields)?;
        let end = fields.at();
        self.use_up(end);
        Ok(())
    }

    /// Uses up the bytes before this place.
    fn use_up(&mut self, end: u64)
        requires from { self.old.at ≤ end }
        requires to { end ≤ self.old.at + length self.old.bytes }
        ensures { self.new ≡ moved (end - self.old.at) self.old }
    {
        self.buffer.skip((end - self.used) as usize);
        self.used = end;
    }
}

/// Whether the fault is that the bytes are cut short.
fn is_cut(fault: ImageFault) -> bool
    ensures { result ≡ is_cut fault }
{
    match fault {
        ImageFault::CutShort { .. } => true,
        ImageFault::BadMark => false,
        ImageFault::BadWidths => false,
        ImageFault::BadTable { .. } => false,
        ImageFault::EmptyPart { .. } => false,
        ImageFault::NotRising { .. } => false,
        ImageFault::Trailing { .. } => false,
        ImageFault::OutOfMemory => false,
    }
}

/// Takes at most `room` bytes of a source into a block, and feeds them to a buffer, as `take_into` does.
fn take_within<S: Source>(
    source: &mut S,
    block: &mut Vec<u8>,
    room: usize,
    buffer: &mut LineBuffer,
) -> Result<usize, InputFault>
    requires some { 0 < room }
    requires within { room ≤ length block.old.items }
    ensures size { length block.new.items ≡ length block.old.items }
    ensures feeds { Feeds (S.taken source.old) (S.taken source.new) (S.left source.old) (S.left source.new) buffer.old room result buffer.new }
    ensures later { S.faults source.old ≤ S.faults source.new }
    ensures failed { result ≡ Err InputFault.Failed → Rose (S.faults source.old) (S.faults source.new) }
{
    take_into(source, &mut block[..room], buffer)
}

/// Takes bytes of a source into a block, and feeds them to a buffer. The answer is how many; none is the source's end.
fn take_into<S: Source>(
    source: &mut S,
    block: &mut [u8],
    buffer: &mut LineBuffer,
) -> Result<usize, InputFault>
    requires { 0 < length block.old }
    ensures feeds { Feeds (S.taken source.old) (S.taken source.new) (S.left source.old) (S.left source.new) buffer.old (length block.old) result buffer.new }
    ensures later { S.faults source.old ≤ S.faults source.new }
    ensures failed { result ≡ Err InputFault.Failed → Rose (S.faults source.old) (S.faults source.new) }
{
    let count = source.take(block)?;
    buffer.feed(&block[..count])?;
    Ok(count)
}
