//! The connections of doors, served by workers over any rows.
ghost use Rattle.std.specs.Prelude.{◌≡◌, ◌<◌, ◌≤◌, ◌+◌, [], All, length, map, vec_len};
ghost use Rattle.std.specs.List.{sum_by};
ghost use Rattle.link_acceptor.specs.Accepting.{AsksHalt, HasReason, links_between};
ghost use Rattle.link_workers.specs.Returns.{AccountsFor};
ghost use Rattle.point_put.specs.Admissions.{admission};
ghost use Rattle.conn_workers.specs.ServedLinks.{AllTell, WorkerServed};

use crate::conn_terms::ConnTerms;
use crate::conn_worker::ConnWorker;
use crate::unstopped_rows::UnstoppedRows;
use link_acceptor::accept_loop::Accepted;
use link_workers::link_ends::LinkEnds;
use link_workers::link_service::serve_links;
use row_compactors::row_compactor::RowsTo;
use std::alloc::Global;
use std::sync::Wait;
use std::thread::Threads;
use tsd_daemon::Served;
use tsd_doors::doors::Doors;
use tsd_io::clock::Clock;
use tsd_io::halt::Halt;

/// Accepts connections, and has each served by one of the workers, on threads of their own, or by the caller. Their rows are any that may go
/// to another thread.
pub fn serve_rows<
    'a,
    J: ConnTerms + Send,
    R: UnstoppedRows + Drop + Send,
    S: RowsTo + Drop + Send,
    T: Threads + Wait + Sync,
    C: Clock + Send + Drop,
    H: Halt,
    D: Doors,
>(
    rt: &T,
    alloc: Global,
    queue_count: usize,
    doors: &mut D,
    halt: &mut H,
    workers: &mut Vec<LinkEnds<ConnWorker<'a, J, R, C, D::Bell, S>, D::Kept, Served>>,
    own: &mut LinkEnds<ConnWorker<'a, J, R, C, D::Bell, S>, D::Kept, Served>,
) -> Accepted
    requires some { 0 < queue_count }
    requires idle { All (λ worker. worker.ends.items ≡ []) workers.old.items }
    requires own_idle { own.old.ends.items ≡ [] }
    requires begun { All (λ worker. WorkerServed (record { admission = J.admission; moments = J.moments; inlets_tell = AllTell D.Inlet.taken; outlets_tell = AllTell D.Outlet.held })
        (admission worker.work.config worker.work.rule.now.patterns) (R.seen worker.work.names.rows) (record { moments = C.moments worker.work.clock; faults = C.faults worker.work.clock }) []) workers.old.items }
    requires own_begun { WorkerServed (record { admission = J.admission; moments = J.moments; inlets_tell = AllTell D.Inlet.taken; outlets_tell = AllTell D.Outlet.held })
        (admission own.old.work.config own.old.work.rule.now.patterns) (R.seen own.old.work.names.rows) (record { moments = C.moments own.old.work.clock; faults = C.faults own.old.work.clock }) [] }
    ensures len { vec_len workers.new ≡ vec_len workers.old }
    ensures served { All (λ worker. WorkerServed (record { admission = J.admission; moments = J.moments; inlets_tell = AllTell D.Inlet.taken; outlets_tell = AllTell D.Outlet.held })
        (admission worker.work.config worker.work.rule.now.patterns) (R.seen worker.work.names.rows) (record { moments = C.moments worker.work.clock; faults = C.faults worker.work.clock })
        (map (λ one. (D.shown one.0, one.1)) worker.ends.items)) workers.new.items }
    ensures own_served { WorkerServed (record { admission = J.admission; moments = J.moments; inlets_tell = AllTell D.Inlet.taken; outlets_tell = AllTell D.Outlet.held })
        (admission own.new.work.config own.new.work.rule.now.patterns) (R.seen own.new.work.names.rows) (record { moments = C.moments own.new.work.clock; faults = C.faults own.new.work.clock })
        (map (λ one. (D.shown one.0, one.1)) own.new.ends.items) }
    ensures counted { AccountsFor result.end (D.counts doors.old) (D.counts doors.new)
        (sum_by (λ worker. length worker.ends.items) workers.new.items + length own.new.ends.items) }
    ensures links { result.links ≡ links_between (D.counts doors.old) (D.counts doors.new) }
    ensures back { D.back doors.new ≡ D.back doors.old }
    ensures reason { HasReason result.end (D.waiting doors.old) (D.waiting doors.new) (H.stops halt.old) (H.stops halt.new) (D.faults doors.old) (D.faults doors.new) }
    ensures asked { AsksHalt H.answers result.end (D.counts doors.old) (D.counts doors.new) halt.old halt.new }
    ensures stops { H.stops halt.old ≤ H.stops halt.new }
    ensures faults { D.faults doors.old ≤ D.faults doors.new }
{
    serve_links(rt, alloc, queue_count, doors, halt, workers, own)
}
