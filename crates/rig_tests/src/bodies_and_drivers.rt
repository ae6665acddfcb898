//! When the code of bodies and drivers is refused: no contract says it.

use giotto_tasks::bodies::{Body, Expr, Primary, Stmt};
use giotto_tasks::code::driver::DriverCode;
use giotto_tasks::faults::CodeFault;
use giotto_tasks::index::Index;
use giotto_tasks::lists::List;
use giotto_tasks::names::Name;
use giotto_tasks::operators::BinaryOperator;
use std::alloc::Global;
use std::process::Abort;

// 1 + (1 + .. (1 + 1)), with this number of operators.
fn ones(rt: &impl Abort, alloc: Global, operators: u64) -> Expr {
    let mut e = Expr::Number(1);
    for _operator in 0..operators {
        let rest = Primary::Nested(Box::new(alloc, e).expect(rt, "memory"));
        e = Expr::Binary(BinaryOperator::Add, Primary::Number(1), rest);
    }
    e
}

fn no_names(alloc: Global) -> List<Name> {
    List::from_vec(Vec::new(alloc))
}

// The fault of a body with a block that branches on this number of nested operators.
fn body_fault(rt: &impl Abort, alloc: Global, operators: u64) -> Option<CodeFault> {
    let branch = Stmt::If(ones(rt, alloc, operators), Vec::new(alloc), Vec::new(alloc));
    let mut block = Vec::new(alloc);
    block.push(branch).expect(rt, "memory");
    let none = no_names(alloc);
    Body::new(alloc, none, no_names(alloc), no_names(alloc), block).err()
}

// The fault of a driver with this number of nested operators.
fn driver_fault(rt: &impl Abort, alloc: Global, operators: u64) -> Option<CodeFault> {
    let e = ones(rt, alloc, operators);
    let names = Index::new(alloc, Vec::new(alloc)).expect(rt, "memory");
    DriverCode::new(alloc, &e, &names).err()
}

#[test]
fn refuses_a_body_that_is_too_deep(rt: HostRuntime) {
    assert!(rt; body_fault(&rt, rt.alloc(), 32).is_none());
    assert!(rt; body_fault(&rt, rt.alloc(), 200) == Some(CodeFault::TooDeep));
}

#[test]
fn refuses_a_driver_that_is_too_deep(rt: HostRuntime) {
    assert!(rt; driver_fault(&rt, rt.alloc(), 32).is_none());
    assert!(rt; driver_fault(&rt, rt.alloc(), 33) == Some(CodeFault::TooDeep));
}
