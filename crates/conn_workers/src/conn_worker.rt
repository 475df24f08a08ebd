//! A worker, which serves connections over the rows of one caller of a site.
ghost use Rattle.std.specs.Prelude.{◌≡◌, List, [], ◌∷◌, ◌++◌};
ghost use Rattle.std.specs.Io.KnownBytes.{IsAtEnd};
ghost use Rattle.tsd_doors.specs.Links.{AreFresh, Shut};
ghost use Rattle.point_put.specs.Admissions.{admission};
ghost use Rattle.tsd_daemon.specs.ServedConns.{ConnCauses, Passes, ServesBytes};
ghost use Rattle.conn_workers.specs.ServedLinks.{AllTell, WorkerServed};

use crate::conn_terms::ConnTerms;
use crate::unstopped_rows::UnstoppedRows;
use cell_model::rows::Rows;
use compactor::queue::Queue;
use link_workers::link_work::LinkWork;
use point_put::Config;
use row_compactors::row_compactor::RowsTo;
use std::alloc::Global;
use std::marker::PhantomData;
use tsd_daemon::{Served, serve_conn};
use tsd_doors::doors::Bell;
use tsd_hooks::UidRule;
use tsd_io::clock::Clock;
use tsd_io::ports::{Sink, Source};
use uid_table::uids::Uids;

/// A worker: rows of one caller, with the ids of names, and what else connections are served with.
#[derive(Drop)]
pub struct ConnWorker<
    'a,
    J: ConnTerms,
    R: Rows + Drop,
    C: Clock + Drop,
    B: Bell + Drop,
    S: RowsTo + Drop,
> {
    /// The rows.
    pub names: Uids<R>,

    /// Rows of points that were accepted on the connection in hand and are to be compacted.
    pub queue: Queue,

    /// Where they go after the connection.
    pub rows_to: S,

    /// A twin of the fleet's clock.
    pub clock: C,

    /// What ends the wait for more connections.
    pub bell: B,

    /// Which names are given ids.
    pub config: Config,

    /// Which new names are allowed.
    pub rule: &'a UidRule,

    /// Where memory comes from.
    pub alloc: Global,

    /// What the fleet's connections are served by.
    pub terms: PhantomData<J>,
}

impl<
    'a,
    J: ConnTerms,
    R: UnstoppedRows + Drop,
    C: Clock + Drop,
    B: Bell + Drop,
    S: RowsTo + Drop,
    I: Source,
    O: Sink,
> LinkWork<I, O> for ConnWorker<'a, J, R, C, B, S> {
    type End = Served;

    ghost served = { λ work links. WorkerServed (record { admission = J.admission; moments = J.moments; inlets_tell = AllTell I.taken; outlets_tell = AllTell O.held })
        (admission work.config work.rule.now.patterns) (R.seen work.names.rows) (record { moments = C.moments work.clock; faults = C.faults work.clock }) links };

    fn serve(&mut self, inlet: &mut I, outlet: &mut O) -> Served {
        R::never_stopped();
        let end = serve_conn(
            self.alloc,
            &mut self.names,
            self.rule,
            &self.config,
            inlet,
            outlet,
            &mut self.clock,
            &mut self.queue,
        );
        self.rows_to.send(self.alloc, &mut self.queue);
        if end == Served::Die {
            self.bell.ring();
        }
        end
    }
}
