//! What a request of an HTTP connection asks.
use short_bytes::short::Bytes;

/// The most bytes of a head, with the empty line that ends it.
pub const LONGEST_HEAD: usize = 16_384;

/// The most fields of a head.
pub const MOST_FIELDS: usize = 64;

/// The most bytes of a body.
pub const LONGEST_BODY: u64 = 16_777_216;

/// A method. Methods are told apart with their case.
#[derive(Clone, Copy, Debug, PartialEq, Eq)]
pub enum Verb {
    /// `GET`
    Get,
    /// `POST`
    Post,
    /// Any other.
    Other,
}

/// Why a request is refused, whatever its path is. Where several causes hold, the first of them in this order is told.
#[derive(Clone, Copy, Debug, PartialEq, Eq)]
pub enum Refusal {
    /// The bytes up to the head's end, at most 16,384, are as a whole no head by the grammar of `httparse` with at most
    /// 64 fields.
    BadHead,
    /// 16,384 bytes came, and no head ends among them.
    HeadTooLarge,
    /// There is a field Transfer-Encoding or Content-Encoding, whatever its value is.
    Codings,
    /// A Content-Length isn't 1 to 20 digits, or two of them differ.
    BadLength,
    /// A `POST` without a Content-Length.
    NoLength,
    /// A Content-Length above 16,777,216.
    BodyTooLarge,
}

/// A request with its body, or one that is refused. One that is refused has the verb `Other`, an empty path, form and
/// body, and closes.
#[derive(Drop)]
pub struct Call {
    /// The method.
    pub verb: Verb,
    /// The target before its first `?`, byte for byte.
    pub path: Bytes,
    /// The target behind its first `?`, byte for byte; empty where there is none.
    pub form: Bytes,
    /// As many bytes behind the head as its Content-Length says; empty where there is none.
    pub body: Bytes,
    /// Why it is refused, if it is.
    pub refused: Option<Refusal>,
    /// Whether no request is read behind it: it is refused, its version is HTTP/1.0, or a Connection field has the word
    /// `close`.
    pub closing: bool,
}
