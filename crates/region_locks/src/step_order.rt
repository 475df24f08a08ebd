//! A step as it is asked of a region, and what it makes of a body.
ghost use Rattle.std.specs.Prelude.{◌≡◌, ℕ, ◌<◌, IfOk, OnOk, OnErr};
ghost use Rattle.cell_model.specs.Machine.{after, reply_of};
ghost use Rattle.cell_model.specs.Store.{Store};
ghost use Rattle.region_locks.specs.StepOrders.{step_of, Covered, TakesMemory, Applied, gave, did};

use crate::body_replies::{append, claim, next_row, put, read};
use cell_model::answers::{Bumped, Claimed};
use cell_model::body::Body;
use cell_model::events::Reply;
use cell_model::row::{Drops, Row};
use cell_model::stamp::stamp_column;
use qual_codec::Bytes;
use row_key::Table;
use std::alloc::{AllocError, Global};
use tsd_base::kinds::Kind;
use tsd_base::points::Point;

/// A step that a caller asks for.
#[derive(Clone, Copy)]
pub enum Order<'a> {
    Read {
        row: &'a Row,
    },
    NextRow {
        table: Table,
        from: &'a Bytes,
        to: &'a Bytes,
    },
    Bump {
        kind: Kind,
    },
    Claim {
        row: &'a Row,
        qual: &'a Bytes,
        value: &'a Bytes,
    },
    PutPoint {
        point: &'a Point,
        row: &'a Row,
        qual: &'a Bytes,
        value: &'a Bytes,
    },
    AppendPoint {
        point: &'a Point,
        row: &'a Row,
        piece: &'a Bytes,
    },
    PutMerged {
        row: &'a Row,
        qual: &'a Bytes,
        value: &'a Bytes,
    },
    DropCells {
        row: &'a Row,
        which: &'a Drops,
    },
}

/// Makes the step on a body, without a stamp, and answers its reply. Where memory is wanted, the body is as before.
pub(crate) fn apply<B: Body>(
    body: &mut B,
    alloc: Global,
    order: &Order,
) -> Result<Reply, AllocError>
    requires covered { Covered (B.content body.old).widths (B.covers body.old) (step_of order.now) }
    ensures reply { IfOk result (λ r. (place : ℕ) → r ≡ reply_of (B.content body.old) place (step_of order.now)) }
    ensures ok { OnOk result (B.content body.new ≡ after (B.content body.old) 0 (step_of order.now)) }
    ensures err { OnErr result (B.content body.new ≡ B.content body.old) }
    ensures covers { B.covers body.new ≡ B.covers body.old }
    ensures memory { OnErr result (TakesMemory (step_of order.now)) }
{
    match order {
        Order::Read { row } => read(body, alloc, row),
        Order::NextRow { table, from, to } => next_row(body, alloc, *table, from, to),
        Order::Bump { kind } => Ok(Reply::BumpReply {
            bumped: body.bump(*kind),
        }),
        Order::Claim { row, qual, value } => claim(body, alloc, row, qual, value),
        Order::PutPoint {
            point: _,
            row,
            qual,
            value,
        } => put(body, alloc, row, qual, value),
        Order::AppendPoint {
            point: _,
            row,
            piece,
        } => append(body, alloc, row, piece),
        Order::PutMerged { row, qual, value } => put(body, alloc, row, qual, value),
        Order::DropCells { row, which } => Ok(Reply::Removed {
            count: body.drop_cells(row, which),
        }),
    }
}

/// Whether an id was given.
fn gave(reply: &Reply) -> bool
    ensures { result ≡ gave reply.now }
{
    match reply {
        Reply::BumpReply { bumped } => match bumped {
            Bumped::Given { id: _ } => true,
            Bumped::Full => false,
        },
        _ => false,
    }
}

/// Whether a claim was done.
fn did(reply: &Reply) -> bool
    ensures { result ≡ did reply.now }
{
    match reply {
        Reply::ClaimReply { claimed } => match claimed {
            Claimed::Done => true,
            Claimed::Held { value: _ } => false,
        },
        _ => false,
    }
}

/// Stamps what a step wrote with its place. It takes no memory.
pub(crate) fn stamp<B: Body>(body: &mut B, order: &Order, reply: &Reply, place: u64)
    requires covered { Covered (B.content body.old).widths (B.covers body.old) (step_of order.now) }
    requires applied { (s : Store) × Applied s (step_of order.now) reply.now (B.content body.old) }
    ensures content { (s : Store) → Applied s (step_of order.now) reply.now (B.content body.old) → B.content body.new ≡ after s place (step_of order.now) }
    ensures covers { B.covers body.new ≡ B.covers body.old }
{
    match order {
        Order::Bump { kind } => {
            if gave(reply) {
                body.stamp_counter(*kind, place);
            }
        }
        Order::Claim {
            row,
            qual,
            value: _,
        } => {
            if did(reply) {
                body.stamp(row, qual, place);
            }
        }
        Order::PutPoint {
            point: _,
            row,
            qual,
            value: _,
        } => body.stamp(row, qual, place),
        Order::AppendPoint {
            point: _,
            row,
            piece: _,
        } => stamp_column(body, row, place),
        Order::PutMerged {
            row,
            qual,
            value: _,
        } => body.stamp(row, qual, place),
        Order::Read { row: _ } => (),
        Order::NextRow {
            table: _,
            from: _,
            to: _,
        } => (),
        Order::DropCells { row: _, which: _ } => (),
    }
}
