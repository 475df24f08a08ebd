//! Laws of connections.
ghost use Rattle.tsd_daemon.specs.ConnCompletes.{ConnCompletes};
ghost use Rattle.tsd_daemon.specs.HeadlineLaws.{HasOneIdEach, QueriesArePlain, ServedHasHeadline, StaysAccepted};
ghost use Rattle.tsd_daemon.specs.ServedConns.{ServesStands};

/// A connection was served so in each lawful history that fits what is seen later, also by a caller that has seen what this one has.
pub fn served_stands()
    ensures { ServesStands }
{}

/// Over every lawful history what was accepted stays accepted. A name once resolved keeps one id, and no other resolved name of its kind
/// has it. A query is answered from accepted points alone, with each that was accepted before, and isn't refused for two values. That is
/// where no series that it wants was given two values at one time. So the headline holds of each connection that was served.
pub fn headline_holds()
    ensures accepted { StaysAccepted }
    ensures ids { HasOneIdEach }
    ensures queries { QueriesArePlain }
    ensures served { ServedHasHeadline }
{}

/// Where no device fails, no step is stopped, fewer than 2^40 bytes come and memory suffices, each request of a connection has its reply.
/// The connection ends where its input does, or with a request that ends it.
pub fn connection_completes()
    ensures { ConnCompletes }
{}
