//! The text of what was woven.
ghost use Rattle.std.specs.Prelude.{◌≡◌, ◌++◌, codes, decimal, flat_map, OnOk, IfOk};
ghost use Rattle.weave_script.specs.WovenCounts.{woven_text};

use crate::script_counts::Woven;
use std::alloc::{AllocError, Global};
use tsd_base::decimals::write_number;

/// The five lines of what was woven: `operations N`, `accepted A`, `ids A B C`, `wasted W` and `cells C`.
#[tactic(auto, using(std::proofs::lemmas::List::append_assoc))]
pub fn woven_text(alloc: Global, woven: &Woven) -> Result<Vec<u8>, AllocError>
    ensures { IfOk result (λ text. text.items ≡ woven_text woven.now) }
{
    let mut text = Vec::new(alloc);
    write_count(b"operations ", woven.operations, &mut text)?;
    write_count(b"\naccepted ", woven.accepted, &mut text)?;
    write_ids(woven, &mut text)?;
    write_rest(woven, &mut text)?;
    Ok(text)
}

/// Writes the line of the ids, behind the end of the last one.
#[tactic(auto, using(std::proofs::lemmas::List::append_assoc))]
fn write_ids(woven: &Woven, text: &mut Vec<u8>) -> Result<(), AllocError>
    ensures { OnOk result (text.new.items ≡ text.old.items ++ codes "\nids" ++ flat_map (λ n. codes " " ++ decimal n) woven.now.ids) }
{
    let [metrics, tag_keys, tag_values] = woven.ids;
    write_count(b"\nids ", metrics, text)?;
    write_count(b" ", tag_keys, text)?;
    write_count(b" ", tag_values, text)
}

/// Writes the last two lines.
#[tactic(auto, using(std::proofs::lemmas::List::append_assoc))]
fn write_rest(woven: &Woven, text: &mut Vec<u8>) -> Result<(), AllocError>
    ensures { OnOk result (text.new.items ≡ text.old.items ++ codes "\nwasted " ++ decimal woven.now.wasted ++ codes "\ncells " ++ decimal woven.now.cells ++ codes "\n") }
{
    write_count(b"\nwasted ", woven.wasted, text)?;
    write_count(b"\ncells ", woven.cells, text)?;
    text.extend_from_slice(b"\n")
}

/// Writes a number behind its label.
#[tactic(auto, using(std::proofs::lemmas::List::append_assoc))]
fn write_count(label: &[u8], count: u64, text: &mut Vec<u8>) -> Result<(), AllocError>
    ensures { OnOk result (text.new.items ≡ text.old.items ++ label.now ++ decimal count) }
{
    text.extend_from_slice(label)?;
    write_number(count, text)
}
