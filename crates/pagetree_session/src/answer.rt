//! Answering requests from a store.
ghost use Rattle.std.specs.Prelude.{◌≡◌, IfOk, OnErr};
ghost use Rattle.std.specs.Option.{option_copied};
ghost use Rattle.http_wire.specs.Reading.{request_of};
ghost use Rattle.byte_forms.specs.Commands.{KeepsForm};
ghost use Rattle.site_core.specs.Standing.{IsReady};
ghost use Rattle.site_model.specs.Desks.{text_at};
ghost use Rattle.site_model.specs.Laws.{FitsCommand};
ghost use Rattle.site_model.specs.World.{World};
ghost use Rattle.site_types.specs.declared.command.Command.{Command as AnyCommand};
ghost use Rattle.sight_model.specs.Cards.{card_of, answer_of};
ghost use Rattle.sight_model.specs.References.{refs_shown};
ghost use Rattle.wire_model.specs.Exchange.{Past, tally_of, run, called_with, card_told, refs_told, desk_told, public_told};
ghost use Rattle.wire_model.specs.Exchange as wire;
ghost use Rattle.pagetree_session.specs.Standing as sessions;
ghost use Rattle.pagetree_session.specs.Standing.{Answered, Keeps, MayAnswer, RunsTo, Tells, seen_store};

use api_routes::{Answer, Call, Request, RouteFault, Routes};
use http_model::Method;
use site_core::Core;
use site_store::{CallFault, Disk, Store};
use site_types::{Command, Moment, NoMemory, PageId, Refusal, UserId};
use std::alloc::Global;

/// Answers a request at a moment.
///
/// If memory runs out before a request by POST is accepted, nothing changes and the answer says so;
/// at another request nothing changes and there is no answer. It reads the body once, and costs what
/// its call costs.
pub fn answer_request<D: Disk>(
    alloc: Global,
    routes: &Routes,
    store: &mut Store<D>,
    request: &Request<'_>,
    now: Moment,
) -> Result<Answer, NoMemory>
    requires ready { MayAnswer (seen_store D.size D.past D.fault_count store.old) }
    ensures ok { IfOk result (λ answer. Answered (D.is_honest store.old.disk)
        (seen_store D.size D.past D.fault_count store.old) (request_of request.now) now answer
        (D.is_honest store.new.disk) (seen_store D.size D.past D.fault_count store.new)) }
    ensures err { OnErr result (Keeps (D.is_honest store.old.disk)
        (seen_store D.size D.past D.fault_count store.old)
        (D.is_honest store.new.disk) (seen_store D.size D.past D.fault_count store.new)) }
{
    match answer_asked(alloc, routes, store, request, now) {
        Ok(answer) => Ok(answer),
        Err(no_memory) => match request.method {
            Method::Post => Ok(Answer::Memory),
            _ => Err(no_memory),
        },
    }
}

/// Answers a request at a moment, as its history decides or with a fault of the disk. If memory runs
/// out before that, nothing changes.
fn answer_asked<D: Disk>(
    alloc: Global,
    routes: &Routes,
    store: &mut Store<D>,
    request: &Request<'_>,
    now: Moment,
) -> Result<Answer, NoMemory>
    requires ready { MayAnswer (seen_store D.size D.past D.fault_count store.old) }
    ensures ok { IfOk result (λ answer. Answered (D.is_honest store.old.disk)
        (seen_store D.size D.past D.fault_count store.old) (request_of request.now) now answer
        (D.is_honest store.new.disk) (seen_store D.size D.past D.fault_count store.new)) }
    ensures err { OnErr result (Keeps (D.is_honest store.old.disk)
        (seen_store D.size D.past D.fault_count store.old)
        (D.is_honest store.new.disk) (seen_store D.size D.past D.fault_count store.new)) }
{
    match routes.to_call(alloc, request) {
        Ok(call) => answer_call(alloc, store, request.token, call, now),
        Err(fault) => fault_answer(fault),
    }
}

/// The answer to a request that asks nothing of the site.
fn fault_answer(fault: RouteFault) -> Result<Answer, NoMemory>
    ensures { IfOk result (λ answer. (answer ≡ wire.fault_answer fault)
        × (fault ≡ RouteFault.Memory → ⊥)) }
{
    match fault {
        RouteFault::NotFound => Ok(Answer::NotFound),
        RouteFault::NotBuilt => Ok(Answer::NotBuilt),
        RouteFault::Method(allow) => Ok(Answer::Method(allow)),
        RouteFault::Form => Ok(Answer::Form),
        RouteFault::Memory => Err(NoMemory),
    }
}

/// Answers a call with a token at a moment. What is for everybody asks for no token.
fn answer_call<D: Disk>(
    alloc: Global,
    store: &mut Store<D>,
    token: Option<&[u8]>,
    call: Call,
    now: Moment,
) -> Result<Answer, NoMemory>
    requires ready { MayAnswer (seen_store D.size D.past D.fault_count store.old) }
    requires fits { (command : AnyCommand) → call ≡ Call.Run command → FitsCommand command }
    requires form { (command : AnyCommand) → call ≡ Call.Run command → KeepsForm command }
    ensures ok { (past : Past)
        → sessions.IsReady (seen_store D.size D.past D.fault_count store.old) past
        → IfOk result (λ answer. RunsTo (D.is_honest store.old.disk)
        (seen_store D.size D.past D.fault_count store.old) past
        (called_with (tally_of past) now (option_copied token.entry) call) answer
        (D.is_honest store.new.disk) (seen_store D.size D.past D.fault_count store.new)) }
    ensures err { OnErr result (Keeps (D.is_honest store.old.disk)
        (seen_store D.size D.past D.fault_count store.old)
        (D.is_honest store.new.disk) (seen_store D.size D.past D.fault_count store.new)) }
{
    match call {
        Call::Public(url) => answer_public(alloc, store.core(), url.as_slice()),
        Call::Page(id) => match user_of(store.core(), token) {
            Some(_) => answer_card(alloc, store.core(), id),
            None => Ok(Answer::NoUser),
        },
        Call::Refs(id) => match user_of(store.core(), token) {
            Some(_) => answer_refs(alloc, store.core(), id),
            None => Ok(Answer::NoUser),
        },
        Call::Desk(id) => match user_of(store.core(), token) {
            Some(user) => answer_desk(alloc, store.core(), id, user),
            None => Ok(Answer::NoUser),
        },
        Call::Run(command) => match user_of(store.core(), token) {
            Some(user) => answer_command(alloc, store, user, command, now),
            None => Ok(Answer::NoUser),
        },
    }
}

/// The answer to a command by a user at a moment: an accepted one is on the disk before it is
/// answered. If the disk fails, the answer tells its counts of faults.
fn answer_command<D: Disk>(
    alloc: Global,
    store: &mut Store<D>,
    user: UserId,
    command: Command,
    now: Moment,
) -> Result<Answer, NoMemory>
    requires ready { MayAnswer (seen_store D.size D.past D.fault_count store.old) }
    requires fits { FitsCommand command }
    requires form { KeepsForm command }
    ensures ok { (past : Past)
        → sessions.IsReady (seen_store D.size D.past D.fault_count store.old) past
        → IfOk result (λ answer. RunsTo (D.is_honest store.old.disk)
        (seen_store D.size D.past D.fault_count store.old) past
        (run (tally_of past) user now command) answer
        (D.is_honest store.new.disk) (seen_store D.size D.past D.fault_count store.new)) }
    ensures err { OnErr result (Keeps (D.is_honest store.old.disk)
        (seen_store D.size D.past D.fault_count store.old)
        (D.is_honest store.new.disk) (seen_store D.size D.past D.fault_count store.new)) }
{
    match store.run(alloc, user, now, command) {
        Ok(accepted) => Ok(Answer::Accepted(accepted.number, accepted.reply)),
        Err(CallFault::Refused(refusal)) => Ok(Answer::Refused(refusal)),
        Err(CallFault::Disk { before, after }) => Ok(Answer::Disk(before, after)),
        Err(CallFault::Memory) => Err(NoMemory),
    }
}

/// The answer to a call for the card of a page.
fn answer_card(alloc: Global, core: &Core, id: PageId) -> Result<Answer, NoMemory>
    ensures { (world : World) → IsReady core.now world
        → IfOk result (Tells (card_told id (card_of world id))) }
{
    match core.card(alloc, id)? {
        Some(card) => Ok(Answer::Page(card)),
        None => Ok(Answer::Refused(Refusal::NoPage(id))),
    }
}

/// The answer to a call for the pages that link to a page.
fn answer_refs(alloc: Global, core: &Core, id: PageId) -> Result<Answer, NoMemory>
    ensures { (world : World) → IsReady core.now world
        → IfOk result (Tells (refs_told id (refs_shown world id))) }
{
    match core.refs(alloc, id)? {
        Some(refs) => Ok(Answer::Refs(refs)),
        None => Ok(Answer::Refused(Refusal::NoPage(id))),
    }
}

/// The answer to a call for the caller's desk on a page: its text is copied once.
fn answer_desk(alloc: Global, core: &Core, page: PageId, user: UserId) -> Result<Answer, NoMemory>
    ensures { (world : World) → IsReady core.now world
        → IfOk result (Tells (desk_told (text_at world.desks page user))) }
{
    match core.desk(page, user) {
        Some(text) => {
            let text = text.copy(alloc)?;
            Ok(Answer::Desk(text))
        }
        None => Ok(Answer::Refused(Refusal::NoDesk)),
    }
}

/// The answer to everybody at a URL: the card of the live page there, if there is one.
fn answer_public(alloc: Global, core: &Core, url: &[u8]) -> Result<Answer, NoMemory>
    ensures { (world : World) → IsReady core.now world
        → IfOk result (Tells (public_told (answer_of world url.now))) }
{
    match core.public(alloc, url)? {
        Some(card) => Ok(Answer::Public(card)),
        None => Ok(Answer::NotFound),
    }
}

/// The user with the token, if there is a token and a user has it.
fn user_of(core: &Core, token: Option<&[u8]>) -> Option<UserId>
    ensures { (world : World) → IsReady core.now world
        → result ≡ wire.user_of world (option_copied token.entry) }
{
    match token {
        None => None,
        Some(token) => core.user_of(token),
    }
}
