//! Desks: each reason for which a call or a pass is refused.

use crate::fixtures::{ALPHA, NOBODY, load};
use crate::shown::{Shown, is_shown};
use locked_book::books::Book;
use locked_book::desks::Desk;
use locked_book::faults::{DeskFault, PassFault};
use locked_book::naming::Naming;
use locked_book::passes::Pass;
use rig_model::config::TenantId;
use rig_model::lines::commands::Command;
use rig_model::lines::replies::Reply;
use std::alloc::Global;
use std::process::Abort;
use std::sync::Wait;

// What a desk refuses.
#[derive(Clone, Copy)]
pub(crate) enum Refusal {
    Full,
    StrangePass,
    StrangeTenant,
    Seats,
}

pub(crate) fn refuses<N: Naming>(
    rt: &(impl Wait + Abort),
    desk: Desk<N>,
    other: &Desk<N>,
    refusal: Refusal,
) -> bool {
    let is_so = match refusal {
        Refusal::Full => refuses_full_pass(rt, &desk),
        Refusal::StrangePass => refuses_strange_pass(rt, &desk, other),
        Refusal::StrangeTenant => refuses_strange_tenant(rt, &desk),
        Refusal::Seats => ends_its_seats(rt, &desk),
    };
    drop(desk);
    is_so
}

pub(crate) fn new_pass<N: Naming>(rt: &(impl Wait + Abort), desk: &Desk<N>) -> Pass<N> {
    desk.pass(rt).expect(rt, "a pass")
}

// The reply to the tenant's command.
pub(crate) fn call<N: Naming>(
    rt: &(impl Wait + Abort),
    desk: &Desk<N>,
    pass: &mut Pass<N>,
    tenant: TenantId,
    command: Command,
) -> Reply {
    desk.call(rt, pass, tenant, command).expect(rt, "a reply")
}

// Has the tenant load this program and start it.
pub(crate) fn load_and_start<N: Naming>(
    rt: &(impl Wait + Abort),
    alloc: Global,
    desk: &Desk<N>,
    pass: &mut Pass<N>,
    tenant: TenantId,
    program: &str,
) {
    drop(call(rt, desk, pass, tenant, load(rt, alloc, program)));
    drop(call(rt, desk, pass, tenant, Command::Start));
}

// A list of both, in this order.
pub(crate) fn both<N: Naming>(
    rt: &impl Abort,
    alloc: Global,
    first: Pass<N>,
    second: Pass<N>,
) -> Vec<Pass<N>> {
    let mut passes = Vec::new(alloc);
    passes.push(first).expect(rt, "memory");
    passes.push(second).expect(rt, "memory");
    passes
}

// The desk's book, closed with these passes.
pub(crate) fn book_of<N: Naming>(rt: &impl Abort, desk: Desk<N>, passes: Vec<Pass<N>>) -> Book<N> {
    desk.close(passes).ok().expect(rt, "a book")
}

// The number of entries in the log of the desk, closed with these passes.
pub(crate) fn entries<N: Naming>(rt: &impl Abort, desk: Desk<N>, passes: Vec<Pass<N>>) -> usize {
    let book = book_of(rt, desk, passes);
    let entries = book.log().len();
    drop(book);
    entries
}

// Whether a call of this pass for a tenant is refused for this reason.
pub(crate) fn is_refused<N: Naming>(
    rt: &impl Wait,
    desk: &Desk<N>,
    pass: &mut Pass<N>,
    tenant: TenantId,
    why: DeskFault,
) -> bool {
    desk.call(rt, pass, tenant, Command::ShowMode).err() == Some(why)
}

// The 4,097th call of a pass is refused, whichever tenant it is for.
fn refuses_full_pass<N: Naming>(rt: &(impl Wait + Abort), desk: &Desk<N>) -> bool {
    let mut pass = new_pass(rt, desk);
    for _call in 0..4096u32 {
        drop(call(rt, desk, &mut pass, ALPHA, Command::ShowMode));
    }
    let refuses = is_refused(rt, desk, &mut pass, ALPHA, DeskFault::PassFull);
    let refuses_nobody = is_refused(rt, desk, &mut pass, NOBODY, DeskFault::PassFull);
    let calls = pass.calls().len();
    drop(pass);
    refuses && refuses_nobody && calls == 4096
}

// A pass of another desk, with one call.
pub(crate) fn other_pass<N: Naming>(rt: &(impl Wait + Abort), other: &Desk<N>) -> Pass<N> {
    let mut pass = new_pass(rt, other);
    drop(call(rt, other, &mut pass, ALPHA, Command::ShowMode));
    pass
}

// A pass with a call of another desk is refused if its seat was never given, and if that seat has no call.
fn refuses_strange_pass<N: Naming>(
    rt: &(impl Wait + Abort),
    desk: &Desk<N>,
    other: &Desk<N>,
) -> bool {
    let mut pass = other_pass(rt, other);
    let has_no_seat = is_refused(rt, desk, &mut pass, ALPHA, DeskFault::Strange(0));
    let own = new_pass(rt, desk);
    let seat = own.seat();
    drop(own);
    let has_no_call = is_refused(rt, desk, &mut pass, ALPHA, DeskFault::Strange(0));
    let is_its_seat = seat == pass.seat();
    drop(pass);
    has_no_seat && has_no_call && is_its_seat
}

// A new pass's first call is refused for a tenant that isn't in the roster.
fn refuses_strange_tenant<N: Naming>(rt: &(impl Wait + Abort), desk: &Desk<N>) -> bool {
    let mut pass = new_pass(rt, desk);
    let refuses = is_refused(rt, desk, &mut pass, NOBODY, DeskFault::Strange(0));
    let has_none = pass.calls().is_empty();
    drop(pass);
    refuses && has_none
}

// The 65,537th pass is refused.
fn ends_its_seats<N: Naming>(rt: &(impl Wait + Abort), desk: &Desk<N>) -> bool {
    for _seat in 0..65536u32 {
        drop(new_pass(rt, desk));
    }
    desk.pass(rt).err() == Some(PassFault::SeatsEnded)
}

#[test]
fn full_pass_is_refused(rt: HostRuntime) {
    assert!(rt; is_shown(&rt, rt.alloc(), Shown::Refusal(Refusal::Full)));
}

#[test]
fn pass_of_another_desk_is_refused(rt: HostRuntime) {
    assert!(rt; is_shown(&rt, rt.alloc(), Shown::Refusal(Refusal::StrangePass)));
}

#[test]
fn tenant_outside_the_roster_is_refused(rt: HostRuntime) {
    assert!(rt; is_shown(&rt, rt.alloc(), Shown::Refusal(Refusal::StrangeTenant)));
}

#[test]
fn seats_end(rt: HostRuntime) {
    assert!(rt; is_shown(&rt, rt.alloc(), Shown::Refusal(Refusal::Seats)));
}
