//! Lines of a byte stream, in whatever pieces its bytes come.
//!
//! A line ends with LF. One of a point or of a request has at most 8,192 bytes. `LineBuffer` keeps the bytes that came, finds the end of a line and
//! reads each byte once for it. `LineReader` stands on it, and reads the lines of a source to its end, counting them; its maker says how long one may be.
#![tactic(auto)]

pub mod buffer;
pub mod line;
pub mod reader;
