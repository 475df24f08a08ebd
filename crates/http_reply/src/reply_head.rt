//! The head of a reply.
ghost use Rattle.std.specs.Prelude.{◌≡◌, ◌++◌, [], OnOk, OnErr, if◌then◌else◌};
ghost use Rattle.tsd_base.specs.Faults.{Keeps};
ghost use Rattle.http_reply.specs.ReplyBytes.{status_line, content_fields, closing_field, head_bytes};
ghost use Rattle.http_reply.specs.ReplyStatuses.{has_content};

use crate::reply_status::Status;
use itoa::Buffer;
use std::alloc::AllocError;

/// Room for any head.
pub const LONGEST_HEAD: usize = 160;

/// Appends the head of a reply whose body has so many bytes, with its empty line. Where there is no memory nothing is appended.
pub fn write_head(
    out: &mut Vec<u8>,
    status: Status,
    closing: bool,
    count: usize,
) -> Result<(), AllocError>
    ensures ok { OnOk result (out.new.items ≡ out.old.items ++ head_bytes status closing count) }
    ensures err { OnErr result (out.new.items ≡ out.old.items) }
{
    let start = out.len();
    let written = write_lines(out, status, closing, count);
    if written.is_err() {
        out.truncate(start);
    }
    written
}

fn write_lines(
    out: &mut Vec<u8>,
    status: Status,
    closing: bool,
    count: usize,
) -> Result<(), AllocError>
    ensures ok { OnOk result (out.new.items ≡ out.old.items ++ head_bytes status closing count) }
    ensures err { OnErr result (Keeps out.old.items out.new.items) }
{
    write_status_line(out, status)?;
    write_content_fields(out, status, count)?;
    write_closing_field(out, closing)?;
    out.extend_from_slice(b"\r\n")
}

fn write_status_line(out: &mut Vec<u8>, status: Status) -> Result<(), AllocError>
    ensures ok { OnOk result (out.new.items ≡ out.old.items ++ status_line status) }
    ensures err { OnErr result (Keeps out.old.items out.new.items) }
{
    out.extend_from_slice(b"HTTP/1.1 ")?;
    out.extend_from_slice(Buffer::new().format(status.code()).as_bytes())?;
    out.extend_from_slice(b" ")?;
    out.extend_from_slice(status.phrase().as_bytes())?;
    out.extend_from_slice(b"\r\n")
}

fn write_content_fields(out: &mut Vec<u8>, status: Status, count: usize) -> Result<(), AllocError>
    ensures ok { OnOk result (out.new.items ≡ out.old.items ++ (if has_content status then content_fields count else [])) }
    ensures err { OnErr result (Keeps out.old.items out.new.items) }
{
    if status.has_content() {
        write_fields(out, count)?;
    }
    Ok(())
}

fn write_fields(out: &mut Vec<u8>, count: usize) -> Result<(), AllocError>
    ensures ok { OnOk result (out.new.items ≡ out.old.items ++ content_fields count) }
    ensures err { OnErr result (Keeps out.old.items out.new.items) }
{
    out.extend_from_slice(b"Content-Type: application/json; charset=UTF-8\r\nContent-Length: ")?;
    out.extend_from_slice(Buffer::new().format(count).as_bytes())?;
    out.extend_from_slice(b"\r\n")
}

fn write_closing_field(out: &mut Vec<u8>, closing: bool) -> Result<(), AllocError>
    ensures ok { OnOk result (out.new.items ≡ out.old.items ++ closing_field closing) }
    ensures err { OnErr result (Keeps out.old.items out.new.items) }
{
    if closing {
        out.extend_from_slice(b"Connection: close\r\n")?;
    }
    Ok(())
}
