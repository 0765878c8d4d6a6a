//! Codes that are valid, and codes in which one thing is wrong.

use crate::code::{Code, CodeFunction, Constant, Last, Op, Part, Tree};
use crate::validity::validate;
use hy_core::{FunInfo, FunName, SiteInfo, SiteKind};
use hy_terms::Atoms;
use sqlite_items::Items;
use std::alloc::Global;
use std::test::Fail;

fn site(kind: SiteKind) -> SiteInfo {
    SiteInfo {
        function: 0,
        node: 0,
        kind,
    }
}

fn sites(alloc: Global) -> Result<Items<SiteInfo>, Fail> {
    let sites = [site(SiteKind::Cons), site(SiteKind::Tuple)];
    Ok(Items::from_slice(alloc, &sites)?)
}

fn names(alloc: Global, arity: u32) -> Result<Items<FunInfo>, Fail> {
    let name = FunName { name: 0, arity };
    Ok(Items::from_slice(alloc, &[FunInfo { module: 0, name }])?)
}

// Whether a code of this one function is valid. The site 0 is of a cons, the site 1 of a tuple.
fn is_valid(alloc: Global, function: CodeFunction) -> Result<bool, Fail> {
    let names = names(alloc, function.params)?;
    let sites = sites(alloc)?;
    let mut functions = Items::new(alloc);
    functions.push(function)?;
    let code = Code {
        functions,
        sites,
        names,
        atoms: Atoms::new(alloc),
    };
    Ok(validate(&code))
}

// The registers from 0.
fn first(alloc: Global, count: u32) -> Result<Items<u32>, Fail> {
    let mut list = Items::new(alloc);
    for register in 0..count {
        list.push(register)?;
    }
    Ok(list)
}

// A tree that gives so many values.
fn giving(alloc: Global, values: u32) -> Result<Tree, Fail> {
    Ok(Tree {
        parts: Items::new(alloc),
        last: Last::Give(first(alloc, values)?),
    })
}

// A tree of a tail call alone.
fn tail(alloc: Global) -> Tree {
    Tree {
        parts: Items::new(alloc),
        last: Last::Tail {
            function: 0,
            args: Items::new(alloc),
        },
    }
}

// A part, and then one value.
fn with_part(alloc: Global, part: Part) -> Result<Tree, Fail> {
    let mut tree = giving(alloc, 1)?;
    tree.parts.push(part)?;
    Ok(tree)
}

// The values of the inner tree, to so many registers, and then one value.
fn within(alloc: Global, outs: u32, inner: Tree) -> Result<Tree, Fail> {
    let outs = first(alloc, outs)?;
    with_part(alloc, Part::Within { outs, inner })
}

// Whether a function of two registers with this body is valid.
fn body_is_valid(alloc: Global, body: Tree) -> Result<bool, Fail> {
    let function = CodeFunction {
        params: 0,
        registers: 2,
        body,
    };
    is_valid(alloc, function)
}

// Whether a function of 256 registers with this operation is valid.
fn operation_is_valid(alloc: Global, params: u32, operation: Op) -> Result<bool, Fail> {
    let body = with_part(alloc, Part::Do(operation))?;
    let function = CodeFunction {
        params,
        registers: 256,
        body,
    };
    is_valid(alloc, function)
}

fn constant_is_valid(alloc: Global, out: u32) -> Result<bool, Fail> {
    let value = Constant::Nil;
    operation_is_valid(alloc, 0, Op::Const { out, value })
}

fn build_is_valid(alloc: Global, site: u32, parts: u32) -> Result<bool, Fail> {
    let args = first(alloc, parts)?;
    operation_is_valid(alloc, 0, Op::Build { site, out: 0, args })
}

fn spawn_is_valid(alloc: Global, params: u32, arguments: u32) -> Result<bool, Fail> {
    let args = first(alloc, arguments)?;
    let spawn = Op::Spawn {
        node: 0,
        out: 0,
        function: 0,
        args,
    };
    operation_is_valid(alloc, params, spawn)
}

#[test]
fn registers(rt: HostRuntime) -> Result<(), Fail> {
    let alloc = rt.alloc();
    assert_eq!(rt; constant_is_valid(alloc, 255)?, true);
    assert_eq!(rt; constant_is_valid(alloc, 256)?, false);
    Ok(())
}

#[test]
fn builds(rt: HostRuntime) -> Result<(), Fail> {
    let alloc = rt.alloc();
    assert_eq!(rt; build_is_valid(alloc, 0, 2)?, true);
    assert_eq!(rt; build_is_valid(alloc, 0, 3)?, false);
    assert_eq!(rt; build_is_valid(alloc, 1, 3)?, true);
    assert_eq!(rt; build_is_valid(alloc, 2, 3)?, false);
    Ok(())
}

#[test]
fn spawns(rt: HostRuntime) -> Result<(), Fail> {
    let alloc = rt.alloc();
    assert_eq!(rt; spawn_is_valid(alloc, 255, 255)?, true);
    assert_eq!(rt; spawn_is_valid(alloc, 255, 254)?, false);
    assert_eq!(rt; spawn_is_valid(alloc, 256, 256)?, false);
    Ok(())
}

// A tail call stands in no inner tree.
#[test]
fn tail_calls(rt: HostRuntime) -> Result<(), Fail> {
    let alloc = rt.alloc();
    assert_eq!(rt; body_is_valid(alloc, tail(alloc))?, true);
    let body = within(alloc, 1, tail(alloc))?;
    assert_eq!(rt; body_is_valid(alloc, body)?, false);
    Ok(())
}

// The values of an inner tree inside another one are its own.
#[test]
fn values(rt: HostRuntime) -> Result<(), Fail> {
    let alloc = rt.alloc();
    let inner = within(alloc, 2, giving(alloc, 2)?)?;
    let body = within(alloc, 1, inner)?;
    assert_eq!(rt; body_is_valid(alloc, body)?, true);
    let body = within(alloc, 2, giving(alloc, 1)?)?;
    assert_eq!(rt; body_is_valid(alloc, body)?, false);
    let body = giving(alloc, 2)?;
    assert_eq!(rt; body_is_valid(alloc, body)?, false);
    Ok(())
}
