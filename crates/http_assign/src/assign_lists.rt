//! Ids for lists of names.
ghost use Rattle.std.specs.Prelude.{◌≡◌, Err, IfOk, OnErr, IfErr, length};
ghost use Rattle.tsd_base.specs.Names.{name_of};
ghost use Rattle.cell_model.specs.Deeds.{Since};
ghost use Rattle.cell_model.specs.Seen.{InEach};
ghost use Rattle.cell_model.specs.Stops.{CountsStops, is_stop};
ghost use Rattle.cell_model.specs.declared.answers.RowsFault.TheVariants as rows_fault;
ghost use Rattle.uid_table.specs.declared.id_answers.AssignFault.TheVariants as assign_fault;
ghost use Rattle.http_assign.specs.AssignLists.{AssignRan, AssignBegun, already_text, elements_in, exhausted_text, filtered_text, of_kind, outcome_of, outcomes_in, outcomes_of, texts_in};
ghost use Rattle.http_assign.specs.AssignTexts.{EndsEarly, GoesOn, IsAsLong, IsBadName, MadeSome, NameBegun, NameSays, TextBegun, TextSays, Tells};

use cell_model::answers::RowsFault;
use cell_model::kind_widths::width_of;
use cell_model::rows::Rows;
use point_put::PutFault;
use row_key::{Widths, id_bytes};
use short_bytes::short::Bytes;
use std::alloc::{AllocError, Global};
use tsd_base::kinds::Kind;
use tsd_base::names::{Name, NameFault};
use tsd_hooks::UidRule;
use uid_table::{AssignFault, Assigned, Uids};

/// The id that a text was given, or the text of its error.
pub type IdOutcome = Result<u32, Vec<u8>>;

/// What the texts of each list were answered, in their order; of a kind that isn't asked for there are none.
#[derive(Drop)]
pub struct IdLists {
    pub metric: Vec<IdOutcome>,
    pub tagk: Vec<IdOutcome>,
    pub tagv: Vec<IdOutcome>,
}

/// Gives ids to the names that texts are: first the metrics, then the tag keys, then the tag values, each list from its start. A kind
/// that isn't asked for has None.
///
/// A name that has no id is given one where the rule allows it, whatever is configured for puts. Where another caller was faster, the
/// name's id is told. It is an error where the text is no name, where the name had an id already, where the rule doesn't allow it,
/// and where all ids of its kind were given. A name that has an id is never asked of the rule.
///
/// A fault ends the assignment. Names before it keep their ids; of the next one some steps may be done.
pub fn assign_lists<R: Rows + Drop>(
    alloc: Global,
    names: &mut Uids<R>,
    rule: &UidRule,
    metric: &Option<Vec<Bytes>>,
    tagk: &Option<Vec<Bytes>>,
    tagv: &Option<Vec<Bytes>>,
) -> Result<IdLists, RowsFault>
    ensures since { Since (R.seen names.old.rows) (R.seen names.new.rows) }
    ensures ok { IfOk result (λ ids. InEach (R.seen names.new.rows) (λ h. AssignRan rule.now.patterns h (R.seen names.old.rows).caller (R.seen names.old.rows).length (elements_in metric.now tagk.now tagv.now) (outcomes_in ids) (R.seen names.new.rows).length)) }
    ensures lengths { IfOk result (IsAsLong metric.now tagk.now tagv.now) }
    ensures err { OnErr result (InEach (R.seen names.new.rows) (λ h. AssignBegun rule.now.patterns h (R.seen names.old.rows).caller (R.seen names.old.rows).length (elements_in metric.now tagk.now tagv.now) (R.seen names.new.rows).length)) }
    ensures stops { CountsStops is_stop result (R.stops names.old.rows) (R.stops names.new.rows) }
{
    let metrics = assign_list(alloc, names, rule, Kind::Metric, metric)?;
    let tag_keys = assign_list(alloc, names, rule, Kind::TagKey, tagk)?;
    let tag_values = assign_list(alloc, names, rule, Kind::TagValue, tagv)?;
    Ok(IdLists {
        metric: metrics,
        tagk: tag_keys,
        tagv: tag_values,
    })
}

/// Gives ids to the names of one list, where it is asked for.
fn assign_list<R: Rows + Drop>(
    alloc: Global,
    names: &mut Uids<R>,
    rule: &UidRule,
    kind: Kind,
    texts: &Option<Vec<Bytes>>,
) -> Result<Vec<IdOutcome>, RowsFault>
    ensures made { MadeSome (R.seen names.old.rows) (R.seen names.new.rows) }
    ensures ok { IfOk result (λ outs. GoesOn rule.now.patterns (of_kind kind (texts_in texts.now)) (R.seen names.old.rows) (outcomes_of outs.items) (R.seen names.new.rows)) }
    ensures lengths { IfOk result (λ outs. length outs.items ≡ length (texts_in texts.now)) }
    ensures err { OnErr result (EndsEarly rule.now.patterns (of_kind kind (texts_in texts.now)) (R.seen names.old.rows) (R.seen names.new.rows)) }
    ensures stops { CountsStops is_stop result (R.stops names.old.rows) (R.stops names.new.rows) }
{
    match texts {
        Some(texts) => assign_texts(alloc, names, rule, kind, texts.as_slice()),
        None => Ok(Vec::new(alloc)),
    }
}

/// Gives ids to the names of a kind.
fn assign_texts<R: Rows + Drop>(
    alloc: Global,
    names: &mut Uids<R>,
    rule: &UidRule,
    kind: Kind,
    texts: &[Bytes],
) -> Result<Vec<IdOutcome>, RowsFault>
    ensures made { MadeSome (R.seen names.old.rows) (R.seen names.new.rows) }
    ensures ok { IfOk result (λ outs. GoesOn rule.now.patterns (of_kind kind texts.now) (R.seen names.old.rows) (outcomes_of outs.items) (R.seen names.new.rows)) }
    ensures lengths { IfOk result (λ outs. length outs.items ≡ length texts.now) }
    ensures err { OnErr result (EndsEarly rule.now.patterns (of_kind kind texts.now) (R.seen names.old.rows) (R.seen names.new.rows)) }
    ensures stops { CountsStops is_stop result (R.stops names.old.rows) (R.stops names.new.rows) }
{
    let mut outs = Vec::new(alloc);
    for text in texts {
        let out = assign_text(alloc, names, rule, kind, text.list())?;
        outs.push(out)?;
    }
    Ok(outs)
}

/// Gives an id to the name that a text is.
fn assign_text<R: Rows + Drop>(
    alloc: Global,
    names: &mut Uids<R>,
    rule: &UidRule,
    kind: Kind,
    text: &[u8],
) -> Result<IdOutcome, RowsFault>
    ensures ok { IfOk result (λ out. TextSays rule.now.patterns kind (name_of text.now) (R.seen names.old.rows) (outcome_of out) (R.seen names.new.rows)) }
    ensures err { OnErr result (TextBegun rule.now.patterns kind (name_of text.now) (R.seen names.old.rows) (R.seen names.new.rows)) }
    ensures stops { CountsStops is_stop result (R.stops names.old.rows) (R.stops names.new.rows) }
{
    match Name::read(alloc, text) {
        Ok(name) => assign_name(alloc, names, rule, kind, &name),
        Err(fault) => bad_name(alloc, kind, fault),
    }
}

/// Gives an id to a name.
fn assign_name<R: Rows + Drop>(
    alloc: Global,
    names: &mut Uids<R>,
    rule: &UidRule,
    kind: Kind,
    name: &Name,
) -> Result<IdOutcome, RowsFault>
    ensures ok { IfOk result (λ out. NameSays rule.now.patterns kind name.now (R.seen names.old.rows) (outcome_of out) (R.seen names.new.rows)) }
    ensures err { OnErr result (NameBegun rule.now.patterns kind name.now (R.seen names.old.rows) (R.seen names.new.rows)) }
    ensures stops { CountsStops is_stop result (R.stops names.old.rows) (R.stops names.new.rows) }
{
    let answer = names.assign(alloc, rule, kind, name);
    told(alloc, kind, name, answer, names.widths())
}

/// What is told of a text that is no name. It fails only for want of memory.
fn bad_name(alloc: Global, kind: Kind, fault: NameFault) -> Result<IdOutcome, RowsFault>
    ensures ok { IfOk result (λ out. IsBadName kind fault (outcome_of out)) }
    ensures err { IfErr result (λ e. e ≡ rows_fault.OutOfMemory) }
{
    let mut text = Vec::new(alloc);
    match fault {
        NameFault::OutOfMemory => Err(RowsFault::OutOfMemory),
        fault => {
            fault.write_text(kind, &mut text)?;
            Ok(Err(text))
        }
    }
}

/// What is told of the answer to the assignment of a name, unless memory ran out or the caller was stopped.
fn told(
    alloc: Global,
    kind: Kind,
    name: &Name,
    answer: Result<Assigned, AssignFault>,
    widths: Widths,
) -> Result<IdOutcome, RowsFault>
    ensures ok { IfOk result (λ out. Tells widths kind name.now answer (outcome_of out)) }
    ensures stopped { result ≡ Err rows_fault.Stopped → answer ≡ Err assign_fault.Stopped }
{
    let text = match answer {
        Ok(Assigned::Fresh { id }) => return Ok(Ok(id)),
        Ok(Assigned::Lost { wasted: _, id }) => return Ok(Ok(id)),
        Ok(Assigned::Existing { id }) => already_text(alloc, kind, id, widths),
        Err(AssignFault::Filtered { kind }) => filtered_text(alloc, kind, name),
        Err(AssignFault::Exhausted { kind }) => exhausted_text(alloc, kind),
        Err(AssignFault::OutOfMemory) => return Err(RowsFault::OutOfMemory),
        Err(AssignFault::Stopped) => return Err(RowsFault::Stopped),
    };
    Ok(Err(text?))
}

fn already_text(alloc: Global, kind: Kind, id: u32, widths: Widths) -> Result<Vec<u8>, AllocError>
    ensures { IfOk result (λ text. text.items ≡ already_text widths kind id) }
{
    let bytes = id_bytes(id, width_of(kind, widths));
    let digits = hex::encode(alloc, bytes.as_slice())?;
    let mut text = Vec::from_slice(alloc, b"already has id ")?;
    text.extend_from_slice(digits.as_bytes())?;
    Ok(text)
}

fn exhausted_text(alloc: Global, kind: Kind) -> Result<Vec<u8>, AllocError>
    ensures { IfOk result (λ text. text.items ≡ exhausted_text kind) }
{
    let mut text = Vec::new(alloc);
    PutFault::Exhausted { kind }.write_text(&mut text)?;
    Ok(text)
}

fn filtered_text(alloc: Global, kind: Kind, name: &Name) -> Result<Vec<u8>, AllocError>
    ensures { IfOk result (λ text. text.items ≡ filtered_text kind name.now) }
{
    let name = name.again(alloc)?;
    let mut text = Vec::new(alloc);
    PutFault::Filtered { kind, name }.write_text(&mut text)?;
    Ok(text)
}
