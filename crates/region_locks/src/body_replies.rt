//! Steps on a body, with their replies.
ghost use Rattle.std.specs.Prelude.{◌≡◌, ◌≢◌, IfOk, OnOk, OnErr, IsTrue};
ghost use Rattle.cell_model.specs.declared.row.Row.{Row};
ghost use Rattle.cell_model.specs.declared.events.Step.TheVariants.{Claim, PutMerged};
ghost use Rattle.cell_model.specs.declared.events.Reply.TheVariants.{Shown, Next, ClaimReply, Written};
ghost use Rattle.cell_model.specs.Machine.{after, claim_reply, counter_row};
ghost use Rattle.cell_model.specs.Ranges.{InOneRange};
ghost use Rattle.cell_model.specs.Store.{appended, cells_of, is_between, next_row_of, value_at};

use cell_model::body::Body;
use cell_model::events::Reply;
use cell_model::row::Row;
use qual_codec::Bytes;
use row_key::Table;
use std::alloc::{AllocError, Global};

/// The cells of a row, as a reply.
pub(crate) fn read<B: Body>(body: &B, alloc: Global, row: &Row) -> Result<Reply, AllocError>
    requires { IsTrue (B.covers body.now row.now) }
    ensures { IfOk result (λ r. r ≡ Shown (cells_of (B.content body.now) row.now)) }
{
    let cells = body.read(alloc, row)?;
    Ok(Reply::Shown { cells })
}

/// The next row of a range, as a reply.
pub(crate) fn next_row<B: Body>(
    body: &B,
    alloc: Global,
    table: Table,
    from: &Bytes,
    to: &Bytes,
) -> Result<Reply, AllocError>
    requires range { InOneRange (B.content body.now).widths table from.now to.now }
    requires covered { (row : Row) → IsTrue (is_between table from.now to.now row) → IsTrue (B.covers body.now row) }
    ensures { IfOk result (λ r. r ≡ Next (next_row_of (B.content body.now) table from.now to.now)) }
{
    let found = body.next_row(alloc, table, from, to)?;
    Ok(Reply::Next { found })
}

/// Claims a cell, and answers the reply.
pub(crate) fn claim<B: Body>(
    body: &mut B,
    alloc: Global,
    row: &Row,
    qual: &Bytes,
    value: &Bytes,
) -> Result<Reply, AllocError>
    requires covered { IsTrue (B.covers body.old row.now) }
    requires no_counter { row.now ≢ counter_row }
    ensures reply { IfOk result (λ r. r ≡ ClaimReply (claim_reply (value_at (B.content body.old) row.now qual.now))) }
    ensures ok { OnOk result (B.content body.new ≡ after (B.content body.old) 0 (Claim row.now qual.now value.now)) }
    ensures err { OnErr result (B.content body.new ≡ B.content body.old) }
    ensures covers { B.covers body.new ≡ B.covers body.old }
{
    let claimed = body.claim(alloc, row, qual, value)?;
    Ok(Reply::ClaimReply { claimed })
}

/// Writes a cell, and answers the reply.
pub(crate) fn put<B: Body>(
    body: &mut B,
    alloc: Global,
    row: &Row,
    qual: &Bytes,
    value: &Bytes,
) -> Result<Reply, AllocError>
    requires covered { IsTrue (B.covers body.old row.now) }
    requires no_counter { row.now ≢ counter_row }
    ensures reply { IfOk result (λ r. r ≡ Written) }
    ensures ok { OnOk result (B.content body.new ≡ after (B.content body.old) 0 (PutMerged row.now qual.now value.now)) }
    ensures err { OnErr result (B.content body.new ≡ B.content body.old) }
    ensures covers { B.covers body.new ≡ B.covers body.old }
{
    body.put(alloc, row, qual, value)?;
    Ok(Reply::Written)
}

/// Adds a piece to the column of a row, and answers the reply.
pub(crate) fn append<B: Body>(
    body: &mut B,
    alloc: Global,
    row: &Row,
    piece: &Bytes,
) -> Result<Reply, AllocError>
    requires covered { IsTrue (B.covers body.old row.now) }
    requires no_counter { row.now ≢ counter_row }
    ensures reply { IfOk result (λ r. r ≡ Written) }
    ensures ok { OnOk result (B.content body.new ≡ appended (B.content body.old) row.now piece.now 0) }
    ensures err { OnErr result (B.content body.new ≡ B.content body.old) }
    ensures covers { B.covers body.new ≡ B.covers body.old }
{
    body.append(alloc, row, piece)?;
    Ok(Reply::Written)
}
