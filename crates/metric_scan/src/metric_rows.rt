//! Going through the rows of a metric that pass filters, with the names of their ids.
ghost use Rattle.std.specs.Prelude.{◌≡◌, ◌≤◌, ◌++◌, ◌∷◌, [], ℕ, IfOk};
ghost use Rattle.row_key.specs.declared.keys.RowKey.{RowKey};
ghost use Rattle.row_key.specs.Key.{IsKey, key_bytes};
ghost use Rattle.tsd_base.specs.declared.times.TheConstants.{LAST_TIME};
ghost use Rattle.cell_model.specs.Calls.{Leaves};
ghost use Rattle.cell_model.specs.Readings.{Named};
ghost use Rattle.cell_model.specs.Seen.{IsPossible};
ghost use Rattle.cell_model.specs.Stops as rows;
ghost use Rattle.metric_scan.specs.AskFaults.{is_stop};
ghost use Rattle.metric_scan.specs.SubNames.{names_in};
ghost use Rattle.metric_scan.specs.IdFilters.{passes};
ghost use Rattle.metric_scan.specs.ResolvedIds.{Resolves};
ghost use Rattle.metric_scan.specs.RowNames.{known};
ghost use Rattle.metric_scan.specs.RowTurns.{TurnSays};
ghost use Rattle.metric_scan.specs.RowTags.{ArePairs, OneToOne};
ghost use Rattle.metric_scan.specs.Walks.{AreRowsOf, GoesOn, IsUnderWay, names_of};

use crate::fault::AskFault;
use crate::id_filter::{IdFilter, passes};
use crate::key_jump::jump;
use crate::resolve::{resolve_filters, resolve_name};
use crate::row_names::{IdNames, name_pairs};
use crate::row_tags::tags_of;
use crate::row_turn::RowTurn;
use cell_model::answers::RowsFault;
use cell_model::rows::Rows;
use query_text::queries::Sub;
use row_hours::base_of;
use row_key::{RowKey, read_key};
use row_scan::Scan;
use std::alloc::{AllocError, Global};
use tsd_base::kinds::Kind;
use tsd_base::tags::Tags;
use uid_table::uids::Uids;

/// What is left of the rows of a sub query's metric in a range of hours, of which those are picked whose ids pass its filters.
#[derive(Drop)]
pub struct MetricRows {
    scan: Scan,
    filters: Vec<IdFilter>,
    names: IdNames,
}

/// The key of a row that a scan found.
fn key_of(row: &[u8], scan: &Scan) -> RowKey
    requires { (key : RowKey) × IsKey scan.now.widths key × (row.now ≡ key_bytes scan.now.widths key) }
    ensures is_key { IsKey scan.now.widths result }
    ensures row { row.now ≡ key_bytes scan.now.widths result }
{
    match read_key(row, scan.widths()) {
        Ok(key) => key,
        Err(_) => unreachable!(),
    }
}

/// Lets a scan go on behind the rows that fail the filters as one with this key does, which it found last.
fn pass_over(scan: &mut Scan, filters: &[IdFilter], key: &RowKey)
    requires key { IsKey scan.old.widths key.now }
    requires behind { scan.old.from ≡ key_bytes scan.old.widths key.now ++ 0 ∷ [] }
    ensures { GoesOn (passes filters.now) scan.old scan.new }
{
    if let Some(target) = jump(filters, key, scan.widths()) {
        scan.skip_to(&target);
    }
}

impl MetricRows {
    /// The rows of the metric in the hours of the times from `start` to `end`, both included, in milliseconds.
    ///
    /// The names are resolved first: the metric, and then each filter's key before its names. `Unknown` tells the first that no id was found of.
    pub fn begin<R: Rows + Drop>(
        alloc: Global,
        names: &mut Uids<R>,
        sub: &Sub,
        start: u64,
        end: u64,
    ) -> Result<MetricRows, AskFault>
        requires order { start ≤ end }
        requires most { end ≤ LAST_TIME }
        ensures says { Resolves (R.seen names.old.rows) (names_in sub.now) (λ s rows. AreRowsOf sub.now start end s rows) result (R.seen names.new.rows) }
        ensures leaves { Leaves is_stop result (R.seen names.new.rows) (R.stops names.old.rows) (R.stops names.new.rows) }
    {
        let metric = resolve_name(alloc, names, Kind::Metric, &sub.metric)?;
        let filters = resolve_filters(alloc, names, sub.filters.list())?;
        Ok(MetricRows {
            scan: Scan::start(metric, base_of(start), base_of(end), names.widths()),
            filters,
            names: IdNames::none(alloc),
        })
    }

    /// Goes on to the next row, by one `next_row`. Where it passes the filters, the names are asked for of those of its ids that have none yet:
    /// pair by pair, key before value.
    ///
    /// Of a row that fails the filters the key alone is read, and what is left begins behind those that fail as it does.
    pub fn turn<R: Rows + Drop>(
        &mut self,
        alloc: Global,
        names: &mut Uids<R>,
    ) -> Result<RowTurn, RowsFault>
        requires under_way { IsUnderWay self.old (R.seen names.old.rows) }
        requires possible { IsPossible (R.seen names.old.rows) }
        ensures says { TurnSays self.old (R.seen names.old.rows) result self.new (R.seen names.new.rows) }
        ensures leaves { Leaves rows.is_stop result (R.seen names.new.rows) (R.stops names.old.rows) (R.stops names.new.rows) }
    {
        let Some(found) = self.scan.turn(alloc, names)? else {
            return Ok(RowTurn::End);
        };
        let key = key_of(found.row.bytes.list(), &self.scan);
        if !passes(&self.filters, key.pairs.as_slice()) {
            pass_over(&mut self.scan, &self.filters, &key);
            return Ok(RowTurn::Passed);
        }
        name_pairs(alloc, names, key.pairs.as_slice(), &mut self.names)?;
        Ok(RowTurn::Picked { key, found })
    }

    /// The tags whose ids these pairs are, which have names.
    pub fn tags(&self, alloc: Global, pairs: &[(u32, u32)]) -> Result<Tags, AllocError>
        requires one { OneToOne (names_of self.now) }
        requires pairs { ArePairs (names_of self.now) pairs.now }
        ensures { IfOk result (Named (names_of self.now) pairs.now) }
    {
        tags_of(alloc, &self.names, pairs)
    }

    /// The filters that the rows which are picked pass.
    pub fn filters(&self) -> &[IdFilter]
        ensures { result.now ≡ self.now.filters.items }
    {
        &self.filters
    }

    /// The names that were asked for so far.
    pub fn names(&self) -> &IdNames
        ensures { result.now ≡ self.now.names }
    {
        &self.names
    }

    /// The names that were asked for.
    pub fn into_names(self) -> IdNames
        ensures { known result ≡ names_of self }
    {
        self.names
    }
}
