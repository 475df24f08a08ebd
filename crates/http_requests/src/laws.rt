//! What the definitions of heads and requests say.
ghost use Rattle.std.specs.Prelude.{◌≡◌, ℕ, List};
ghost use Rattle.http_requests.specs.HttpHeads.{IsHead};
ghost use Rattle.http_requests.specs.HeadReader.{head_of};
ghost use Rattle.http_requests.specs.HttpRequests.{and_then, first_of, requests_of};

/// The head that bytes are is the one of `httparse`'s grammar that they are as a whole, with at most 64 fields; where there
/// is none, they are none.
pub fn heads_are_of_the_grammar()
    ensures { (bytes : List ℕ) → IsHead bytes (head_of bytes) }
{}

/// The requests of bytes are the first, if one has come whole, and then those of the bytes behind it, where it doesn't close.
pub fn requests_are_first_and_rest()
    ensures { (bytes : List ℕ) → requests_of bytes ≡ and_then (first_of bytes) requests_of }
{}
