//! Queries over a store.
ghost use Rattle.std.specs.Prelude.{All, IfOk};
ghost use Rattle.query_text.specs.Subs.{CanDown};
ghost use Rattle.test_verbs.specs.CaseQueries.{IsAsked};

use cell_model::Rows;
use json_reply::reply::reply_text;
use query_run::{AskFault, ask};
use query_text::queries::{Query, SubList};
use query_text::subs::read_m;
use std::alloc::Global;
use test_readers::query_cases::option_ms;
use test_readers::text::{Bad, first_word, number};
use test_readers::told::Told;
use tsd_base::times::LAST_TIME;
use uid_table::Uids;

/// The sub queries of words.
fn asked_subs(alloc: Global, text: &str, ms: bool) -> Result<SubList, Bad>
    ensures { IfOk result (All (CanDown ms)) }
{
    let mut subs = Vec::new(alloc);
    for word in text.split_ascii_whitespace() {
        let Ok(sub) = read_m(alloc, word.as_bytes(), ms) else {
            return Err(Bad::Line("no sub query"));
        };
        subs.push(sub)?;
    }
    Ok(SubList::of(subs))
}

/// The query of words `START END [--ms] M ..`, both times in milliseconds.
fn query_of(alloc: Global, text: &str) -> Result<Query, Bad>
    ensures { IfOk result IsAsked }
{
    let (start, text) = first_word(text);
    let (end, text) = first_word(text);
    let (ms, text) = option_ms(text);
    let (start, end) = (number(start)?, number(end)?);
    if start > end || end > LAST_TIME {
        return Err(Bad::Line("no range of times"));
    }
    let subs = asked_subs(alloc, text, ms)?;
    Ok(Query {
        start,
        end,
        ms,
        subs,
    })
}

/// Adds why there is no reply.
fn tell_ask_fault(alloc: Global, out: &mut Told, fault: &AskFault) -> Result<(), Bad> {
    if let AskFault::Stopped = fault {
        out.add("stopped");
        return Ok(());
    }
    let mut told = Vec::new(alloc);
    fault.write_text(&mut told)?;
    out.bytes(told.as_slice());
    Ok(())
}

/// `ask START END [--ms] M ..`: the text of the reply, or of the fault.
pub fn asked<R: Rows + Drop>(
    alloc: Global,
    names: &mut Uids<R>,
    text: &str,
    out: &mut Told,
) -> Result<(), Bad> {
    let query = query_of(alloc, text)?;
    match ask(alloc, names, &query) {
        Ok(reply) => {
            let text = reply_text(alloc, &reply)?;
            out.bytes(text.as_slice());
            Ok(())
        }
        Err(fault) => tell_ask_fault(alloc, out, &fault),
    }
}
