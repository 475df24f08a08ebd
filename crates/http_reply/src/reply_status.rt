//! The statuses of replies.
ghost use Rattle.std.specs.Prelude.{◌≡◌};
ghost use Rattle.http_reply.specs.ReplyStatuses.{code_of, phrase_of, has_content};

use http::StatusCode;

/// The status of a reply.
#[derive(Clone, Copy, Debug, PartialEq, Eq)]
pub enum Status {
    Ok,
    NoContent,
    BadRequest,
    NotFound,
    MethodNotAllowed,
    LengthRequired,
    PayloadTooLarge,
    RequestHeaderFieldsTooLarge,
    NotImplemented,
}

impl Status {
    /// The number of the status.
    pub fn code(self) -> u16
        ensures { result ≡ code_of self }
    {
        self.standard().as_u16()
    }

    /// The words of the status, as the standard has them.
    pub fn phrase(self) -> &'static str
        ensures { result.now ≡ phrase_of self }
    {
        self.standard().canonical_reason().unwrap()
    }

    /// Whether a reply of this status has a body.
    pub fn has_content(self) -> bool
        ensures { result ≡ has_content self }
    {
        !matches!(self, Status::NoContent)
    }

    fn standard(self) -> StatusCode
        ensures { result ≡ code_of self }
    {
        match self {
            Status::Ok => StatusCode::OK,
            Status::NoContent => StatusCode::NO_CONTENT,
            Status::BadRequest => StatusCode::BAD_REQUEST,
            Status::NotFound => StatusCode::NOT_FOUND,
            Status::MethodNotAllowed => StatusCode::METHOD_NOT_ALLOWED,
            Status::LengthRequired => StatusCode::LENGTH_REQUIRED,
            Status::PayloadTooLarge => StatusCode::PAYLOAD_TOO_LARGE,
            Status::RequestHeaderFieldsTooLarge => StatusCode::REQUEST_HEADER_FIELDS_TOO_LARGE,
            Status::NotImplemented => StatusCode::NOT_IMPLEMENTED,
        }
    }
}
