//! Replies to the requests of a telnet session.
ghost use Rattle.std.specs.Prelude.{◌≡◌, ◌++◌, codes, decimal, false, IfOk, OnOk};
ghost use Rattle.tsd_base.specs.Faults.{point_fault_text};
ghost use Rattle.point_put.specs.PutFaults.{put_fault_text};
ghost use Rattle.telnet_put.specs.TelnetCommands.{request_of};
ghost use Rattle.tsd_daemon.specs.ConnRequests.ConnRequest.{Telnet};
ghost use Rattle.tsd_daemon.specs.ConnReplies.{fixed_reply, line, put_line, stats_text};
ghost use Rattle.tsd_daemon.specs.Exchanges.{is_put};

use crate::counts::Counts;
use point_put::PutFault;
use std::alloc::{AllocError, Global};
use telnet_put::telnet_command::Command;
use tsd_base::decimals::write_number;
use tsd_base::points::PointFault;

/// The reply to a request that asks for no step, where the counts are those of the requests before it.
#[tactic(auto, unfolding(crate::specs::ConnReplies::fixed_reply))]
pub fn fixed_reply(
    alloc: Global,
    counts: &Counts,
    command: &Command<'_>,
) -> Result<Vec<u8>, AllocError>
    requires { is_put (Telnet (request_of command.now)) ≡ false }
    ensures { IfOk result (λ reply. reply.items ≡ fixed_reply counts.now (request_of command.now)) }
{
    match command {
        Command::Put { .. } => unreachable!(),
        Command::Version => line(alloc, b"tsd integer profile 1"),
        Command::Help => help_line(alloc),
        Command::Stats => stats(alloc, counts),
        Command::DropCaches => line(alloc, b"Caches dropped."),
        Command::Exit => Ok(Vec::new(alloc)),
        Command::Die => line(alloc, b"Cleaning up and exiting now."),
        Command::TooLong => line(alloc, b"line too long"),
        Command::Other => line(alloc, b"unknown command"),
    }
}

/// The reply to a put that was refused.
pub fn refused_line(alloc: Global, fault: &PutFault) -> Result<Vec<u8>, AllocError>
    ensures { IfOk result (λ reply. reply.items ≡ put_line (put_fault_text fault.now)) }
{
    let mut text = Vec::from_slice(alloc, b"put: ")?;
    fault.write_text(&mut text)?;
    end_line(&mut text)?;
    Ok(text)
}

/// The reply to a put whose text has no point.
pub fn unread_line(alloc: Global, fault: &PointFault) -> Result<Vec<u8>, AllocError>
    ensures { IfOk result (λ reply. reply.items ≡ put_line (point_fault_text fault.now)) }
{
    let mut text = Vec::from_slice(alloc, b"put: ")?;
    fault.write_text(&mut text)?;
    end_line(&mut text)?;
    Ok(text)
}

/// The commands.
fn help_line(alloc: Global) -> Result<Vec<u8>, AllocError>
    ensures { IfOk result (λ reply. reply.items ≡ line (codes "available commands: diediedie dropcaches exit help put stats version")) }
{
    line(
        alloc,
        b"available commands: diediedie dropcaches exit help put stats version",
    )
}

/// The counts, a line each.
#[tactic(auto, using(std::proofs::lemmas::List::append_assoc))]
fn stats(alloc: Global, counts: &Counts) -> Result<Vec<u8>, AllocError>
    ensures { IfOk result (λ reply. reply.items ≡ stats_text counts.now) }
{
    let mut text = Vec::new(alloc);
    push_count(&mut text, b"requests ", counts.requests)?;
    push_count(&mut text, b"puts ", counts.puts)?;
    push_count(&mut text, b"refused ", counts.refused)?;
    Ok(text)
}

/// Adds a line with a word and a number.
#[tactic(auto, using(std::proofs::lemmas::List::append_assoc))]
fn push_count(text: &mut Vec<u8>, word: &[u8], number: u64) -> Result<(), AllocError>
    ensures { OnOk result (text.new.items ≡ text.old.items ++ line (word.now ++ decimal number)) }
{
    text.extend_from_slice(word)?;
    write_number(number, text)?;
    end_line(text)
}

/// A text as a line.
fn line(alloc: Global, text: &[u8]) -> Result<Vec<u8>, AllocError>
    ensures { IfOk result (λ reply. reply.items ≡ line text.now) }
{
    let mut bytes = Vec::from_slice(alloc, text)?;
    end_line(&mut bytes)?;
    Ok(bytes)
}

/// Ends a line.
fn end_line(text: &mut Vec<u8>) -> Result<(), AllocError>
    ensures { OnOk result (text.new.items ≡ line text.old.items) }
{
    text.extend_from_slice(b"\n")
}
