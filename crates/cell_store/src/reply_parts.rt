//! What a reply holds.
ghost use Rattle.std.specs.Prelude.{◌≡◌, true};
ghost use Rattle.cell_model.specs.declared.events.Reply.TheVariants.{Shown, Next, BumpReply, ClaimReply, Removed};
ghost use Rattle.region_locks.specs.StepOrders.{is_shown, is_next, is_bump, is_claim, is_removed};

use cell_model::answers::{Bumped, Claimed};
use cell_model::events::Reply;
use cell_model::row::{Cells, Found};

pub fn shown(reply: Reply) -> Cells
    requires { is_shown reply ≡ true }
    ensures { reply ≡ Shown result }
{
    match reply {
        Reply::Shown { cells } => cells,
        _ => unreachable!(),
    }
}

pub fn next(reply: Reply) -> Option<Found>
    requires { is_next reply ≡ true }
    ensures { reply ≡ Next result }
{
    match reply {
        Reply::Next { found } => found,
        _ => unreachable!(),
    }
}

pub fn bumped(reply: Reply) -> Bumped
    requires { is_bump reply ≡ true }
    ensures { reply ≡ BumpReply result }
{
    match reply {
        Reply::BumpReply { bumped } => bumped,
        _ => unreachable!(),
    }
}

pub fn claimed(reply: Reply) -> Claimed
    requires { is_claim reply ≡ true }
    ensures { reply ≡ ClaimReply result }
{
    match reply {
        Reply::ClaimReply { claimed } => claimed,
        _ => unreachable!(),
    }
}

pub fn removed(reply: Reply) -> u64
    requires { is_removed reply ≡ true }
    ensures { reply ≡ Removed result }
{
    match reply {
        Reply::Removed { count } => count,
        _ => unreachable!(),
    }
}

/// Lets go of a reply. It is dropped here, so that who asked for the step has no case for each thing that it may hold.
pub fn let_go(_reply: Reply) {}
