//! The body of an error's reply.
ghost use Rattle.std.specs.Prelude.{◌≡◌, ◌++◌, codes, decimal, IfOk, OnOk};
ghost use Rattle.json_reply.specs.ErrorBodies.{error_body};

use itoa::Buffer;
use std::alloc::{AllocError, Global};

/// The body of an error's reply: `{"error":{"code":CODE,"message":"TEXT"}}`.
///
/// The message is written as it is: all messages are texts of this program over the bytes of names, digits, blanks and
/// a few signs, of which none needs an escape. It fails only for want of memory.
pub fn error_text(alloc: Global, code: u16, message: &[u8]) -> Result<Vec<u8>, AllocError>
    ensures { IfOk result (λ text. text.items ≡ error_body code message.now) }
{
    let mut text = Vec::with_capacity(alloc, FRAME + message.len())?;
    write_code(&mut text, code)?;
    text.extend_from_slice(b",\"message\":\"")?;
    text.extend_from_slice(message)?;
    text.extend_from_slice(b"\"}}")?;
    Ok(text)
}

// Room for all but the message.
const FRAME: usize = 40;

fn write_code(text: &mut Vec<u8>, code: u16) -> Result<(), AllocError>
    ensures { OnOk result (text.new.items ≡ text.old.items ++ codes "{\"error\":{\"code\":" ++ decimal code) }
{
    text.extend_from_slice(b"{\"error\":{\"code\":")?;
    text.extend_from_slice(Buffer::new().format(code).as_bytes())
}
