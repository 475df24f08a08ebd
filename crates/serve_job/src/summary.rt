//! The last lines of a fleet.
ghost use Rattle.std.specs.Prelude.{◌≡◌, ◌++◌, codes, decimal, flat_map, OnOk, IfOk};
ghost use Rattle.serve_job.specs.FleetRuns.{summary_lines};

use cell_model::Tally;
use std::alloc::{AllocError, Global};
use tsd_base::decimals::write_number;

/// The last lines: how many connections were accepted, how many ids of each kind were given, and how many rows and cells of points
/// there are.
#[tactic(auto, using(std::proofs::lemmas::List::append_assoc))]
pub(crate) fn summary_lines(alloc: Global, links: u64, tally: &Tally) -> Result<Vec<u8>, AllocError>
    ensures { IfOk result (λ text. text.items ≡ summary_lines links tally.now) }
{
    let mut text = Vec::new(alloc);
    write_count(b"links ", links, &mut text)?;
    write_ids(tally, &mut text)?;
    write_points(tally, &mut text)?;
    Ok(text)
}

/// Writes how many ids of each kind were given.
#[tactic(auto, using(std::proofs::lemmas::List::append_assoc))]
fn write_ids(tally: &Tally, text: &mut Vec<u8>) -> Result<(), AllocError>
    ensures { OnOk result (text.new.items ≡ text.old.items ++ codes "\nids" ++ flat_map (λ n. codes " " ++ decimal n) tally.now.ids) }
{
    let [metrics, tag_keys, tag_values] = tally.ids;
    write_count(b"\nids ", metrics, text)?;
    write_count(b" ", tag_keys, text)?;
    write_count(b" ", tag_values, text)
}

/// Writes how many rows and cells of points there are.
#[tactic(auto, using(std::proofs::lemmas::List::append_assoc))]
fn write_points(tally: &Tally, text: &mut Vec<u8>) -> Result<(), AllocError>
    ensures { OnOk result (text.new.items ≡ text.old.items ++ codes "\nrows " ++ decimal tally.now.point_rows ++ codes "\ncells " ++ decimal tally.now.point_cells ++ codes "\n") }
{
    write_count(b"\nrows ", tally.point_rows, text)?;
    write_count(b"\ncells ", tally.point_cells, text)?;
    text.extend_from_slice(b"\n")
}

/// Writes a number behind its label.
#[tactic(auto, using(std::proofs::lemmas::List::append_assoc))]
pub(crate) fn write_count(label: &[u8], count: u64, text: &mut Vec<u8>) -> Result<(), AllocError>
    ensures { OnOk result (text.new.items ≡ text.old.items ++ label.now ++ decimal count) }
{
    text.extend_from_slice(label)?;
    write_number(count, text)
}
