//! Chains, and their writers.

use crate::codes::Code;
use crate::plain;
use crate::updater::Updater;
use call_text::{Answer, Call, Verb};
use gp_memb::GracePlan;
use rcu_hash::{AnyChain, Chain, Domain, Site, Ticket};
use rcu_model::Refusal;
use std::alloc::{AllocError, Global};
use std::sync::Wait;

/// The writer of a chain, and the updater that took it.
#[derive(Drop)]
pub(crate) struct Writer<'d, P: GracePlan + Drop, B: Site> {
    updater: usize,
    chain: Chain<'d, P, AnyChain, B, Code>,
}

/// The places of this many writers, at which none is.
pub(crate) fn no_writers<'d, P: GracePlan + Drop, B: Site>(
    alloc: Global,
    chains: usize,
) -> Result<Vec<Option<Writer<'d, P, B>>>, AllocError> {
    let mut writers = Vec::new(alloc);
    for _ in 0..chains {
        writers.push(None)?;
    }
    Ok(writers)
}

/// What a retirement is answered.
pub(crate) fn ticket(made: Result<Ticket, Refusal>) -> Answer {
    match made {
        Ok(ticket) => Answer::Ticket(ticket.0),
        Err(refusal) => Answer::Refused(refusal),
    }
}

/// Takes the right to write a chain.
fn take<'d, P: GracePlan + Drop, B: Site>(
    domain: &'d Domain<P, AnyChain, B, Code>,
    updater: &mut Updater<B>,
    number: usize,
    writers: &mut Vec<Option<Writer<'d, P, B>>>,
    chain: usize,
) -> Answer {
    match plain::chain(domain, &mut updater.record, chain) {
        Ok(taken) => {
            if let Some(place) = writers.get_mut(chain) {
                *place = Some(Writer {
                    updater: number,
                    chain: taken,
                });
            }
            Answer::Done
        }
        Err(refusal) => Answer::Refused(refusal),
    }
}

/// Gives the right to write a chain back.
fn free<P: GracePlan + Drop, B: Site>(
    number: usize,
    writers: &mut Vec<Option<Writer<'_, P, B>>>,
    chain: usize,
) -> Answer {
    if !is_written(number, writers, chain) {
        return Answer::Refused(Refusal::NotOpen);
    }
    if let Some(place) = writers.get_mut(chain) {
        *place = None;
    }
    Answer::Done
}

/// Whether this updater writes the chain.
fn is_written<P: GracePlan + Drop, B: Site>(
    number: usize,
    writers: &Vec<Option<Writer<'_, P, B>>>,
    chain: usize,
) -> bool {
    match writers.get(chain) {
        Some(Some(writer)) => writer.updater == number,
        _ => false,
    }
}

/// `Chain::push`.
fn push<P: GracePlan + Drop, B: Site>(
    updater: &mut Updater<B>,
    chain: &mut Chain<'_, P, AnyChain, B, Code>,
) -> Answer {
    match updater.owned.pop() {
        Some(owned) => {
            plain::push(chain, &mut updater.record, owned);
            Answer::Done
        }
        None => Answer::Refused(Refusal::NoPlace),
    }
}

/// `Chain::replace`.
fn replace<P: GracePlan + Drop, B: Site>(
    domain: &Domain<P, AnyChain, B, Code>,
    updater: &mut Updater<B>,
    chain: &mut Chain<'_, P, AnyChain, B, Code>,
    index: usize,
) -> Answer {
    let Some(owned) = updater.owned.pop() else {
        return Answer::Refused(Refusal::NoPlace);
    };
    if updater.unlinked.reserve(1).is_err() {
        let _ = updater.owned.push(owned);
        return Answer::Refused(Refusal::Memory);
    }
    match plain::replace(chain, &mut updater.record, index, owned) {
        Ok(cut) => updater.keep_cut(domain, cut),
        Err((refusal, owned)) => {
            let _ = updater.owned.push(owned);
            Answer::Refused(refusal)
        }
    }
}

/// `Chain::cut`.
fn cut<P: GracePlan + Drop, B: Site>(
    domain: &Domain<P, AnyChain, B, Code>,
    updater: &mut Updater<B>,
    chain: &mut Chain<'_, P, AnyChain, B, Code>,
    index: usize,
) -> Answer {
    if updater.unlinked.reserve(1).is_err() {
        return Answer::Refused(Refusal::Memory);
    }
    match plain::cut(chain, &mut updater.record, index) {
        Ok(cut) => updater.keep_cut(domain, cut),
        Err(refusal) => Answer::Refused(refusal),
    }
}

/// `Domain::cut_retire`.
fn cut_retire<P: GracePlan + Drop, B: Site, R: Wait>(
    rt: &R,
    domain: &Domain<P, AnyChain, B, Code>,
    updater: &mut Updater<B>,
    chain: &mut Chain<'_, P, AnyChain, B, Code>,
    index: usize,
    code: u64,
) -> Answer {
    match plain::cut_retire(rt, domain, &mut updater.record, chain, index, Code(code)) {
        Ok(given) => ticket(Ok(given)),
        Err((refusal, _)) => ticket(Err(refusal)),
    }
}

/// `Domain::replace_retire`.
fn replace_retire<P: GracePlan + Drop, B: Site, R: Wait>(
    rt: &R,
    domain: &Domain<P, AnyChain, B, Code>,
    updater: &mut Updater<B>,
    chain: &mut Chain<'_, P, AnyChain, B, Code>,
    index: usize,
    code: u64,
) -> Answer {
    let Some(owned) = updater.owned.pop() else {
        return Answer::Refused(Refusal::NoPlace);
    };
    match plain::replace_retire(
        rt,
        domain,
        &mut updater.record,
        chain,
        index,
        owned,
        Code(code),
    ) {
        Ok(given) => ticket(Ok(given)),
        Err((refusal, owned, _)) => {
            let _ = updater.owned.push(owned);
            ticket(Err(refusal))
        }
    }
}

/// `Domain::retire`.
fn retire<P: GracePlan + Drop, B: Site, R: Wait>(
    rt: &R,
    domain: &Domain<P, AnyChain, B, Code>,
    updater: &mut Updater<B>,
    code: u64,
) -> Answer {
    let Some(unlinked) = updater.unlinked.pop() else {
        return Answer::Refused(Refusal::NoPlace);
    };
    match plain::retire(rt, domain, &mut updater.record, unlinked, Code(code)) {
        Ok(given) => ticket(Ok(given)),
        Err((refusal, unlinked, _)) => {
            let _ = updater.unlinked.push(unlinked);
            ticket(Err(refusal))
        }
    }
}

/// What a search for a number is answered.
fn number_or_none(number: Option<usize>) -> Answer {
    match number {
        Some(number) => Answer::Number(number as u64),
        None => Answer::Nothing,
    }
}

/// The calls that leave a chain as it is, but for its note.
fn look<P: GracePlan + Drop, B: Site>(
    updater: &mut Updater<B>,
    chain: &mut Chain<'_, P, AnyChain, B, Code>,
    verb: Verb,
    number: u64,
) -> Answer {
    match verb {
        Verb::Len => Answer::Number(chain.len() as u64),
        Verb::Get => match plain::get(chain, number as usize) {
            Some(words) => Answer::Words(words),
            None => Answer::Nothing,
        },
        Verb::Index => number_or_none(plain::index_of(chain, number)),
        Verb::Note => Answer::Number(plain::note(chain)),
        Verb::SetNote => {
            plain::set_note(chain, &mut updater.record, number);
            Answer::Done
        }
        Verb::Hear => {
            plain::hear(chain, &mut updater.record);
            Answer::Done
        }
        _ => Answer::Refused(Refusal::BadText),
    }
}

/// A call on a chain that the updater writes, with these numbers.
fn write<P: GracePlan + Drop, B: Site, R: Wait>(
    rt: &R,
    domain: &Domain<P, AnyChain, B, Code>,
    updater: &mut Updater<B>,
    chain: &mut Chain<'_, P, AnyChain, B, Code>,
    verb: Verb,
    numbers: [u64; 4],
) -> Answer {
    let [_, number, code, _] = numbers;
    let index = number as usize;
    match verb {
        Verb::Push => push(updater, chain),
        Verb::Replace => replace(domain, updater, chain, index),
        Verb::Cut => cut(domain, updater, chain, index),
        Verb::CutRetire => cut_retire(rt, domain, updater, chain, index, code),
        Verb::ReplaceRetire => replace_retire(rt, domain, updater, chain, index, code),
        _ => look(updater, chain, verb, number),
    }
}

/// An updater's call on chains, or on what it cut.
pub(crate) fn chain_line<'d, P: GracePlan + Drop, B: Site, R: Wait>(
    rt: &R,
    domain: &'d Domain<P, AnyChain, B, Code>,
    updater: &mut Updater<B>,
    number: usize,
    writers: &mut Vec<Option<Writer<'d, P, B>>>,
    call: &Call,
) -> Answer {
    let chain = call.numbers[0] as usize;
    match call.verb {
        Verb::Retire => return retire(rt, domain, updater, call.numbers[0]),
        Verb::Chain => return take(domain, updater, number, writers, chain),
        Verb::Free => return free(number, writers, chain),
        _ => {}
    }
    if !is_written(number, writers, chain) {
        return Answer::Refused(Refusal::NotOpen);
    }
    match writers.get_mut(chain) {
        Some(Some(writer)) => {
            write(
                rt,
                domain,
                updater,
                &mut writer.chain,
                call.verb,
                call.numbers,
            )
        }
        _ => Answer::Refused(Refusal::NotOpen),
    }
}
