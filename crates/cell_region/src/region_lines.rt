//! The lines of several regions in one order.
ghost use Rattle.std.specs.Prelude.{◌≡◌, ◌++◌, IfOk, OnOk};
ghost use Rattle.cell_model.specs.PlaceOrder.{place_cmp};
ghost use Rattle.cell_model.specs.Rising.{LinesRise, place_of_line};

use cell_model::{LineList, ListLine, Listing};
use map_body::store_maps::number;
use row_key::Widths;
use std::alloc::{AllocError, Global};
use std::cmp::Ordering;

/// Adds the lines of a listing once more, behind the others.
pub fn add_lines(
    lines: &mut Vec<ListLine>,
    alloc: Global,
    listing: &Listing,
) -> Result<(), AllocError>
    ensures { OnOk result (lines.new.items ≡ lines.old.items ++ listing.now.lines) }
{
    for line in listing.lines() {
        lines.push(ListLine {
            table: line.table,
            row: line.row.again(alloc)?,
            qual: line.qual.again(alloc)?,
            value: line.value.again(alloc)?,
        })?;
    }
    Ok(())
}

/// The order of the places of two lines.
pub fn place_order(one: &ListLine, other: &ListLine) -> Ordering
    ensures { result ≡ place_cmp (place_of_line one.now) (place_of_line other.now) }
{
    let tables = number(one.table).cmp(&number(other.table));
    let rows = one.row.list().cmp(other.row.list());
    let quals = one.qual.list().cmp(other.qual.list());
    tables.then(rows).then(quals)
}

/// The listing of lines that rise, with these widths.
pub fn listing_of(
    alloc: Global,
    widths: Widths,
    lines: Vec<ListLine>,
) -> Result<Listing, AllocError>
    requires { LinesRise lines.items }
    ensures { IfOk result (λ listing. listing ≡ record { widths = widths; lines = lines.items }) }
{
    let mut rising = LineList::none(alloc);
    for line in lines {
        rising.push(line)?;
    }
    Ok(Listing {
        widths,
        lines: rising,
    })
}
