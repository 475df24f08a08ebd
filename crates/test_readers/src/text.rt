//! The words, numbers and byte strings of a line.

use row_key::Widths;
use std::alloc::{AllocError, AllocFailed, Global};
use tsd_base::kinds::Kind;
use tsd_base::names::Name;

/// Why a line isn't done.
#[derive(Clone, Copy, Debug, PartialEq, Eq)]
pub enum Bad {
    /// It can't be read: this is missing, or wrong.
    Line(&'static str),
    /// There was no memory.
    OutOfMemory,
}

impl From<AllocError> for Bad {
    fn from(_error: AllocError) -> Bad {
        Bad::OutOfMemory
    }
}

impl<T: Drop> From<AllocFailed<T>> for Bad {
    fn from(_failed: AllocFailed<T>) -> Bad {
        Bad::OutOfMemory
    }
}

/// The first word of a text, and what stands behind it.
pub fn first_word(text: &str) -> (&str, &str) {
    let text = text.trim();
    match text.split_once(' ') {
        Some((word, rest)) => (word, rest.trim()),
        None => (text, ""),
    }
}

/// A number of a word.
pub fn number(word: &str) -> Result<u64, Bad> {
    match word.parse::<u64>() {
        Ok(number) => Ok(number),
        Err(_) => Err(Bad::Line("no number")),
    }
}

/// A number with a sign.
pub fn signed(word: &str) -> Result<i64, Bad> {
    match word.parse::<i64>() {
        Ok(number) => Ok(number),
        Err(_) => Err(Bad::Line("no number")),
    }
}

/// A number of 32 bits.
pub fn small(word: &str) -> Result<u32, Bad> {
    let number = number(word)?;
    if number <= u64::from(u32::MAX) {
        Ok(number as u32)
    } else {
        Err(Bad::Line("no number"))
    }
}

/// A kind of names, by its word.
pub fn kind(word: &str) -> Result<Kind, Bad> {
    match word {
        "metric" => Ok(Kind::Metric),
        "tagk" => Ok(Kind::TagKey),
        "tagv" => Ok(Kind::TagValue),
        _ => Err(Bad::Line("no kind")),
    }
}

/// How many bytes the ids of each kind have, of three digits with commas between them.
pub fn widths(word: &str) -> Result<Widths, Bad> {
    let [metric, b',', key, b',', value] = word.as_bytes() else {
        return Err(Bad::Line("no widths"));
    };
    match Widths::make(digit(*metric)?, digit(*key)?, digit(*value)?) {
        Some(widths) => Ok(widths),
        None => Err(Bad::Line("no widths")),
    }
}

/// A name.
pub fn name(alloc: Global, word: &str) -> Result<Name, Bad> {
    match Name::read(alloc, word.as_bytes()) {
        Ok(name) => Ok(name),
        Err(_) => Err(Bad::Line("no name")),
    }
}

/// The bytes of hexadecimal digits, between which spaces may stand. `-` stands for none.
pub fn hex(alloc: Global, text: &str) -> Result<Vec<u8>, Bad> {
    let mut digits = Vec::new(alloc);
    for byte in text.bytes() {
        if byte != b' ' && byte != b'-' {
            digits.push(byte)?;
        }
    }
    match hex::decode(alloc, digits.as_slice()) {
        Ok(bytes) => Ok(bytes),
        Err(_) => Err(Bad::Line("no hexadecimal digits")),
    }
}

/// Where a reading of quoted pieces is.
#[derive(Clone, Copy)]
enum Place {
    /// Between pieces.
    Between,
    /// Within a piece.
    Within,
    /// Behind a backslash.
    Escape,
    /// Behind `\x`.
    High,
    /// Behind `\x` and this digit.
    Low(u8),
    /// Behind `*` and digits of this number.
    Times(usize),
}

/// Quoted pieces that were read so far: those that are whole, and the last one.
#[derive(Drop)]
struct Pieces {
    whole: Vec<u8>,
    last: Vec<u8>,
    place: Place,
}

/// The value of a hexadecimal digit.
fn digit(byte: u8) -> Result<u8, Bad> {
    match byte {
        b'0'..=b'9' => Ok(byte - b'0'),
        b'a'..=b'f' => Ok(byte - b'a' + 10),
        _ => Err(Bad::Line("no hexadecimal digit")),
    }
}

/// Where the reading is behind the first digit of a byte.
fn first_digit(byte: u8) -> Result<Place, Bad> {
    Ok(Place::Low(digit(byte)?))
}

/// Adds a piece so many times.
fn add_times(whole: &mut Vec<u8>, piece: &[u8], count: usize) -> Result<(), AllocError> {
    for _ in 0..count {
        whole.extend_from_slice(piece)?;
    }
    Ok(())
}

impl Pieces {
    /// Reads one more byte.
    fn read(&mut self, byte: u8) -> Result<(), Bad> {
        self.place = self.next(byte)?;
        Ok(())
    }

    /// Where the reading is behind a byte.
    fn next(&mut self, byte: u8) -> Result<Place, Bad> {
        match self.place {
            Place::Between => self.between(byte),
            Place::Within => self.within(byte),
            Place::Escape => self.escape(byte),
            Place::High => first_digit(byte),
            Place::Low(high) => self.low(high, byte),
            Place::Times(count) => self.times(count, byte),
        }
    }

    fn low(&mut self, high: u8, byte: u8) -> Result<Place, Bad> {
        self.last.push(high % 16 * 16 + digit(byte)? % 16)?;
        Ok(Place::Within)
    }

    fn between(&mut self, byte: u8) -> Result<Place, Bad> {
        match byte {
            b' ' => Ok(Place::Between),
            b'"' => {
                self.end_piece(1)?;
                Ok(Place::Within)
            }
            b'*' => Ok(Place::Times(0)),
            _ => Err(Bad::Line("no quote")),
        }
    }

    fn within(&mut self, byte: u8) -> Result<Place, Bad> {
        match byte {
            b'\\' => Ok(Place::Escape),
            b'"' => Ok(Place::Between),
            _ => {
                self.last.push(byte)?;
                Ok(Place::Within)
            }
        }
    }

    fn escape(&mut self, byte: u8) -> Result<Place, Bad> {
        let meant = match byte {
            b'n' => b'\n',
            b'r' => b'\r',
            b't' => b'\t',
            b'\\' | b'"' => byte,
            b'x' => return Ok(Place::High),
            _ => return Err(Bad::Line("no escape")),
        };
        self.last.push(meant)?;
        Ok(Place::Within)
    }

    fn times(&mut self, count: usize, byte: u8) -> Result<Place, Bad> {
        match byte {
            b'0'..=b'9' if count < 1_000_000 => Ok(Place::Times(
                count * 10 + (byte - b'0') as usize,
            )),
            b' ' => {
                self.end_piece(count)?;
                Ok(Place::Between)
            }
            _ => Err(Bad::Line("no number behind *")),
        }
    }

    /// Adds the last piece so many times to those that are whole.
    fn end_piece(&mut self, count: usize) -> Result<(), Bad> {
        add_times(&mut self.whole, self.last.as_slice(), count)?;
        self.last.clear();
        Ok(())
    }

    /// All bytes.
    fn end(mut self) -> Result<Vec<u8>, Bad> {
        match self.place {
            Place::Between => self.end_piece(1)?,
            Place::Times(count) => self.end_piece(count)?,
            _ => return Err(Bad::Line("no quote at the end")),
        }
        Ok(self.whole)
    }
}

/// The bytes of a text. One that begins with a quote is pieces in quotes, with escapes as in Rust, each of which may be repeated by
/// `*` and a number; any other stands for itself.
pub fn bytes(alloc: Global, text: &str) -> Result<Vec<u8>, Bad> {
    if !text.starts_with('"') {
        return Ok(Vec::from_slice(alloc, text.as_bytes())?);
    }
    let mut pieces = Pieces {
        whole: Vec::new(alloc),
        last: Vec::new(alloc),
        place: Place::Between,
    };
    for byte in text.bytes() {
        pieces.read(byte)?;
    }
    pieces.end()
}
