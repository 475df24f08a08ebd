//! Serving one connection over a store of its own, and publishing the points that it accepted.
ghost use Rattle.std.specs.Prelude.{◌≡◌, Some, IfOk};
ghost use Rattle.std.specs.Io.KnownBytes.{IsAtEnd};
ghost use Rattle.tsd_base.specs.Points.{data_point};
ghost use Rattle.tsd_hooks.specs.FedPoints.{is_under};
ghost use Rattle.tsd_hooks.specs.PointText.{point_text};
ghost use Rattle.point_put.specs.Admissions.{admission};
ghost use Rattle.tsd_daemon.specs.ServedConns.{ConnCauses, Passes};
ghost use Rattle.stdio_job.specs.LoneConnections.{ServesAlone};

use crate::feeding::serve_feeding;
use crate::lone_connection::Finished;
use cell_region::Regions;
use cell_solo::Solo;
use listing_dump::point_line::point_line;
use lone_store::{Fused, empty};
use point_put::Config;
use row_key::Widths;
use short_bytes::short::Bytes;
use std::alloc::{AllocError, Global};
use std::marker::Brand;
use tsd_base::points::Point;
use tsd_daemon::Served;
use tsd_hooks::{PointRule, Printer, UidRule};
use tsd_io::clock::Clock;
use tsd_io::halt::Halt;
use tsd_io::ports::{Sink, Source};

/// Serves one connection, and publishes the points that it accepted and whose metric begins with the prefix.
pub fn serve_published<S: Source, K: Sink, C: Clock, H: Halt + Drop>(
    alloc: Global,
    widths: Widths,
    rule: &UidRule,
    config: &Config,
    prefix: &[u8],
    source: &mut S,
    sink: &mut K,
    clock: &mut C,
    halt: H,
) -> Finished<H>
    ensures served { Passes (record { taken = S.taken source.old; left = S.left source.old; held = K.held sink.old; moments = C.moments clock.old })
        (record { taken = S.taken source.new; left = S.left source.new; held = K.held sink.new; moments = C.moments clock.new })
        (ServesAlone widths (admission config.now rule.now.patterns) (Some prefix.now) result.served) }
    ensures end { result.served ≡ Served.End → IsAtEnd (S.left source.new) }
    ensures causes { ConnCauses (record { reads = S.faults source.old; writes = K.faults sink.old; stops = H.stops halt; ticks = C.faults clock.old })
        (record { reads = S.faults source.new; writes = K.faults sink.new; stops = H.stops result.halt; ticks = C.faults clock.new }) result.served }
{
    let Ok((own, kept)) = both(alloc, prefix) else {
        return no_memory(halt);
    };
    let Ok(test) = Box::new(
        alloc,
        move |point: &Point|
            ensures { result ≡ is_under own (data_point point.now) }
        { point.metric.bytes().starts_with(own.list()) },
    ) else {
        return no_memory(halt);
    };
    let Ok(text) = Box::new(
        alloc,
        move |point: &Point|
            ensures { IfOk result (λ line. line.items ≡ point_text (data_point point.now)) }
        { point_line(alloc, point) },
    ) else {
        return no_memory(halt);
    };
    let selects = PointRule::keep(kept, test);
    let prints = Printer::keep(text);
    serve_selected(
        alloc, widths, rule, config, selects, prints, source, sink, clock, halt,
    )
}

/// Serves one connection over an empty store, and publishes the points that are selected.
fn serve_selected<S: Source, K: Sink, C: Clock, H: Halt + Drop>(
    alloc: Global,
    widths: Widths,
    rule: &UidRule,
    config: &Config,
    selects: PointRule,
    prints: Printer,
    source: &mut S,
    sink: &mut K,
    clock: &mut C,
    halt: H,
) -> Finished<H>
    ensures served { Passes (record { taken = S.taken source.old; left = S.left source.old; held = K.held sink.old; moments = C.moments clock.old })
        (record { taken = S.taken source.new; left = S.left source.new; held = K.held sink.new; moments = C.moments clock.new })
        (ServesAlone widths (admission config.now rule.now.patterns) (Some selects.prefix) result.served) }
    ensures end { result.served ≡ Served.End → IsAtEnd (S.left source.new) }
    ensures causes { ConnCauses (record { reads = S.faults source.old; writes = K.faults sink.old; stops = H.stops halt; ticks = C.faults clock.old })
        (record { reads = S.faults source.new; writes = K.faults sink.new; stops = H.stops result.halt; ticks = C.faults clock.new }) result.served }
{
    match empty(alloc, widths, halt) {
        Ok(store) => {
            let (served, rows) = serve_feeding::<
                Fused<Solo<Regions>, H>,
                PointRule,
                Printer,
                Brand,
                S,
                K,
                C,
            >(
                alloc,
                store.part(),
                rule,
                config,
                selects,
                prints,
                source,
                sink,
                clock,
            );
            let (_rows, halt) = rows.part();
            Finished { served, halt }
        }
        Err((_error, halt)) => no_memory(halt),
    }
}

/// The bytes, twice. It fails only for want of memory.
fn both(alloc: Global, bytes: &[u8]) -> Result<(Bytes, Bytes), AllocError>
    ensures { IfOk result (λ made. (made.0 ≡ bytes.now) × (made.1 ≡ bytes.now)) }
{
    let first = Bytes::of(alloc, bytes)?;
    let second = first.again(alloc)?;
    Ok((first, second))
}

/// There was no memory to serve a connection.
fn no_memory<H: Halt + Drop>(halt: H) -> Finished<H>
    ensures served { result.served ≡ Served.OutOfMemory }
    ensures halt { result.halt ≡ halt }
{
    Finished {
        served: Served::OutOfMemory,
        halt,
    }
}
