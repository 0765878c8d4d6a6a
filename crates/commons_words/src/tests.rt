//! Passes on one thread, on two and on four.
ghost use Rattle.std.specs.Prelude.{◌≡◌, ◌+◌, ◌≤◌, ◌++◌, ◌∷◌, [], IfOk, OnOk, None};
ghost use Rattle.commons.specs.Changes.{KeepsOthers};
ghost use Rattle.commons_words.specs.Trials.{IsReady};

use super::*;
use commons::{AreaFull, Commons, Link, LogFull, PlainCommons, entry_kind, put_send, put_spawn};
use hy_terms::Memory;
use hy_words::{Entry, nil_word, payload, pid_word};
use std::test::Fail;
use std::thread::{Threads, join};

#[derive(Debug, Drop)]
enum Refused {
    Area(AreaFull),
    Log(LogFull),
    Memory,
    Unread,
}

impl From<AreaFull> for Refused {
    fn from(full: AreaFull) -> Refused {
        Refused::Area(full)
    }
}

impl From<LogFull> for Refused {
    fn from(full: LogFull) -> Refused {
        Refused::Log(full)
    }
}

impl From<Memory> for Refused {
    fn from(_memory: Memory) -> Refused {
        Refused::Memory
    }
}

// What one row of calls answers, on any commons.
#[derive(Clone, Copy, Debug, PartialEq, Eq)]
struct Row {
    pid: u64,
    sent: u64,
    read: (u64, u64, bool, bool),
    known: (u64, u64),
    room: (u64, u64),
    refused: Option<AreaFull>,
    full: u64,
}

// How many claims a process got, and the refusal of its last one.
type Claims = (u64, Option<AreaFull>);

// Sends nil to the process 0, in a block of its own.
fn post<C: Commons>(c: &mut C, pass: &mut C::Pass, actor: u64) -> Result<u64, Refused>
    requires pass { C.is_pass c.old pass.old }
    requires ready { IsReady (C.view c.old pass.old) actor (C.view c.old pass.old).born }
    ensures later { C.later c.old c.new }
    ensures others { KeepsOthers C.is_pass C.apart C.view c.old pass.old c.new pass.new }
    ensures ready { OnOk result (
        IsReady (C.view c.new pass.new) actor (C.view c.old pass.old).born) }
{
    c.claim(pass, 4)?;
    let entry = put_send(c, pass, actor, pid_word(0), nil_word());
    Ok(c.append(pass, entry)?)
}

// Spawns a process, and answers the pass and the pid of the child.
fn spawn<C: Commons>(c: &mut C, pass: &mut C::Pass, actor: u64) -> Result<(C::Pass, u64), Refused>
    requires pass { C.is_pass c.old pass.old }
    requires ready { IsReady (C.view c.old pass.old) actor (C.view c.old pass.old).born }
    ensures later { C.later c.old c.new }
    ensures pass { C.is_pass c.new pass.new }
    ensures child { IfOk result (λ r. C.is_pass c.new r.0 × C.apart pass.new r.0) }
    ensures ready { IfOk result (λ r.
        IsReady (C.view c.new pass.new) actor ((C.view c.old pass.old).born ++ r.1 ∷ [])) }
    ensures child_ready { IfOk result (λ r. IsReady (C.view c.new r.0) r.1 []) }
{
    c.claim(pass, 3)?;
    let entry = put_spawn(c, pass, actor, 7, &[]);
    let place = c.append(pass, entry)?;
    let child = c.birth(pass)?;
    Ok((child, place + 1))
}

// Learns the next entry, and looks once more. Answers its place, its cell, whether it is a send,
// and whether the second look was in vain.
fn learn<C: Commons>(c: &mut C, pass: &mut C::Pass) -> Result<(u64, u64, bool, bool), Refused>
    requires pass { C.is_pass c.old pass.old }
    ensures others { KeepsOthers C.is_pass C.apart C.view c.old pass.old c.new pass.new }
    ensures refused { OnOk result (
        (C.view c.new pass.new).refused ≡ (C.view c.old pass.old).refused) }
    ensures unborn { OnOk result (
        (C.view c.new pass.new).unborn ≡ (C.view c.old pass.old).unborn) }
{
    let place = match c.look(pass) {
        Some(place) => place,
        None => return Err(Refused::Unread),
    };
    let cell = c.entry(pass, place);
    let send = entry_kind(c, pass, place) == Entry::Send;
    let empty = c.look(pass).is_none();
    Ok((place, cell, send, empty))
}

// The first process spawns a second one and sends a message, which the second reads. It is told
// what the first knows. Then the first finds the log full, and the second the area.
fn row_of_calls<C: Commons>(c: &mut C, first: &mut C::Pass) -> Result<Row, Refused>
    requires pass { C.is_pass c.old first.old }
    requires ready { IsReady (C.view c.old first.old) 0 (C.view c.old first.old).born }
{
    let (mut second, pid) = spawn(c, first, 0)?;
    let sent = post(c, first, 0)?;
    let read = learn(c, &mut second)?;
    c.tell(first, &mut second)?;
    let known = (c.known(first), c.known(&second));
    let room = (c.room(first), c.room(&second));
    let full = match post(c, first, 0) {
        Err(Refused::Log(full)) => full.seen,
        _ => 0,
    };
    let refused = c.claim(&mut second, 257).err();
    Ok(Row {
        pid,
        sent,
        read,
        known,
        room,
        refused,
        full,
    })
}

// Sends so many messages one after the other.
fn post_many<C: Link>(link: C, pass: C::Pass, pid: u64, count: u64) -> Result<C::Pass, Refused>
    requires pass { C.is_pass link pass }
    requires ready { IsReady (C.view link pass) pid (C.view link pass).born }
    ensures pass { IfOk result (λ p. C.is_pass link p) }
    ensures ready { IfOk result (λ p. IsReady (C.view link p) pid (C.view link pass).born) }
{
    let mut pass = pass;
    for _ in 0..count {
        let mut own = link;
        post(&mut own, &mut pass, pid)?;
    }
    Ok(pass)
}

// Reads each entry that it learns, until it knows so many places, or looked so often. Answers its
// pass, and how many sends it learnt.
fn read_many<C: Link>(link: C, pass: C::Pass, count: u64, looks: u64) -> (C::Pass, u64)
    requires pass { C.is_pass link pass }
    ensures pass { C.is_pass link result.0 }
    ensures unborn { (C.view link result.0).unborn ≡ (C.view link pass).unborn }
{
    let mut pass = pass;
    let mut sends = 0u64;
    for _ in 0..looks {
        let mut own = link;
        if own.known(&pass) >= count {
            return (pass, sends);
        }
        if let Some(place) = own.look(&mut pass) {
            if entry_kind(&mut own, &mut pass, place) == Entry::Send {
                sends = sends.saturating_add(1);
            }
        }
    }
    (pass, sends)
}

// Two processes send in two threads.
fn post_both<C: Link, R: Threads + Sync>(
    rt: &R,
    link: C,
    first: C::Pass,
    second: C::Pass,
    pid: u64,
) -> (Result<C::Pass, Refused>, Result<C::Pass, Refused>)
    requires first { C.is_pass link first }
    requires second { C.is_pass link second }
    requires ready { IsReady (C.view link first) 0 (C.view link first).born }
    requires second_ready { IsReady (C.view link second) pid (C.view link second).born }
    ensures first { IfOk result.0 (λ p. C.is_pass link p
        × IsReady (C.view link p) 0 (C.view link first).born) }
    ensures second { IfOk result.1 (λ p. C.is_pass link p
        × IsReady (C.view link p) pid (C.view link second).born) }
{
    join(
        rt,
        || -> Result<C::Pass, Refused>
            requires { C.is_pass link first
                × IsReady (C.view link first) 0 (C.view link first).born }
            ensures { IfOk result (λ p. C.is_pass link p
                × IsReady (C.view link p) 0 (C.view link first).born) }
        { post_many(link, first, 0, 99) },
        || -> Result<C::Pass, Refused>
            requires { C.is_pass link second
                × IsReady (C.view link second) pid (C.view link second).born }
            ensures { IfOk result (λ p. C.is_pass link p
                × IsReady (C.view link p) pid (C.view link second).born) }
        { post_many(link, second, pid, 100) },
    )
}

// One process sends, and another reads what it learns, in two threads.
fn post_and_read<C: Link, R: Threads + Sync>(
    rt: &R,
    link: C,
    first: C::Pass,
    second: C::Pass,
) -> (Result<C::Pass, Refused>, (C::Pass, u64))
    requires first { C.is_pass link first }
    requires second { C.is_pass link second }
    requires ready { IsReady (C.view link first) 0 (C.view link first).born }
    ensures first { IfOk result.0 (λ p. C.is_pass link p
        × IsReady (C.view link p) 0 (C.view link first).born) }
    ensures second { C.is_pass link result.1.0 }
    ensures unborn { (C.view link result.1.0).unborn ≡ (C.view link second).unborn }
{
    join(
        rt,
        || -> Result<C::Pass, Refused>
            requires { C.is_pass link first
                × IsReady (C.view link first) 0 (C.view link first).born }
            ensures { IfOk result (λ p. C.is_pass link p
                × IsReady (C.view link p) 0 (C.view link first).born) }
        { post_many(link, first, 0, 100) },
        || -> (C::Pass, u64)
            requires { C.is_pass link second }
            ensures { C.is_pass link result.0
                × ((C.view link result.0).unborn ≡ (C.view link second).unborn) }
        { read_many(link, second, 101, 1000) },
    )
}

// Claims blocks of 13 words until one is refused, at most so often. Answers how many it got, and
// the refusal.
fn claim_many<C: Link>(link: C, pass: C::Pass, most: u64) -> Claims
    requires pass { C.is_pass link pass }
    requires first { (C.view link pass).refused ≡ None }
{
    let mut pass = pass;
    for granted in 0..most {
        let mut own = link;
        if let Err(full) = own.claim(&mut pass, 13) {
            return (granted, Some(full));
        }
    }
    (most, None)
}

// Two processes claim in two threads.
fn claim_both<C: Link, R: Threads + Sync>(
    rt: &R,
    link: C,
    passes: (C::Pass, C::Pass),
) -> (Claims, Claims)
    requires first { C.is_pass link passes.0 × ((C.view link passes.0).refused ≡ None) }
    requires second { C.is_pass link passes.1 × ((C.view link passes.1).refused ≡ None) }
{
    let (first, second) = passes;
    join(
        rt,
        || -> Claims
            requires { C.is_pass link first × ((C.view link first).refused ≡ None) }
        { claim_many(link, first, 20) },
        || -> Claims
            requires { C.is_pass link second × ((C.view link second).refused ≡ None) }
        { claim_many(link, second, 20) },
    )
}

// Four processes claim in four threads.
fn claim_in_four<C: Link, R: Threads + Sync>(
    rt: &R,
    link: C,
    two: (C::Pass, C::Pass),
    more: (C::Pass, C::Pass),
) -> ((Claims, Claims), (Claims, Claims))
    requires first { C.is_pass link two.0 × ((C.view link two.0).refused ≡ None) }
    requires second { C.is_pass link two.1 × ((C.view link two.1).refused ≡ None) }
    requires third { C.is_pass link more.0 × ((C.view link more.0).refused ≡ None) }
    requires fourth { C.is_pass link more.1 × ((C.view link more.1).refused ≡ None) }
{
    join(
        rt,
        || -> (Claims, Claims)
            requires { (C.is_pass link two.0 × ((C.view link two.0).refused ≡ None))
                × (C.is_pass link two.1 × ((C.view link two.1).refused ≡ None)) }
        { claim_both(rt, link, two) },
        || -> (Claims, Claims)
            requires { (C.is_pass link more.0 × ((C.view link more.0).refused ≡ None))
                × (C.is_pass link more.1 × ((C.view link more.1).refused ≡ None)) }
        { claim_both(rt, link, more) },
    )
}

// The actor of the entry that a log word names, and the place of the entry.
fn actor_and_cell(area: &[u64], word: u64) -> Option<(u64, u64)> {
    let cell = payload(word);
    let actor = area.get(cell as usize + 1)?;
    Some((payload(*actor), cell))
}

// Whether each of the two actors made a hundred of the entries, and each has its own in the order
// in which it claimed their blocks.
fn in_order(log: &[u64], area: &[u64]) -> bool {
    let mut counts = (0u64, 0u64);
    let mut last = (0u64, 0u64);
    for word in log.iter() {
        match actor_and_cell(area, *word) {
            Some((0, cell)) if counts.0 == 0 || last.0 < cell => {
                counts.0 = counts.0.saturating_add(1);
                last.0 = cell;
            }
            Some((1, cell)) if counts.1 == 0 || last.1 < cell => {
                counts.1 = counts.1.saturating_add(1);
                last.1 = cell;
            }
            _ => return false,
        }
    }
    counts == (100, 100)
}

#[test]
fn two_threads_append(rt: HostRuntime) -> Result<(), Fail> {
    let (commons, mut first) = WordCommons::new(rt.alloc(), 1024, 256)?;
    let mut link = commons.link();
    let (second, pid) = spawn(&mut link, &mut first, 0)?;
    assert_eq!(rt; pid, 1);
    let (first, second) = post_both(&rt, link, first, second, pid);
    let (first, second) = (first?, second?);
    let mut passes = Vec::new(rt.alloc());
    passes.push(first)?;
    passes.push(second)?;
    let left = commons.close(passes)?;
    assert_eq!(rt; left.log.as_slice().len(), 200);
    assert_eq!(rt; left.claimed, 799);
    assert!(rt; in_order(left.log.as_slice(), left.area.as_slice()));
    Ok(())
}

#[test]
fn a_reader_learns_while_another_appends(rt: HostRuntime) -> Result<(), Fail> {
    let (commons, mut first) = WordCommons::new(rt.alloc(), 1024, 256)?;
    let mut link = commons.link();
    let (second, pid) = spawn(&mut link, &mut first, 0)?;
    let (first, (mut second, sends)) = post_and_read(&rt, link, first, second);
    let mut first = first?;
    // It knew the spawn entry from its birth, and counted each send that it learnt.
    assert_eq!(rt; link.known(&second), sends.saturating_add(1));
    let known = link.known(&first);
    assert_eq!(rt; known, 101);
    link.tell(&mut first, &mut second)?;
    assert_eq!(rt; link.known(&second), 101);
    assert_eq!(rt; link.look(&mut second), None);
    assert_eq!(rt; pid, 1);
    Ok(())
}

#[test]
fn four_threads_fill_an_area(rt: HostRuntime) -> Result<(), Fail> {
    let (commons, mut first) = WordCommons::new(rt.alloc(), 256, 8)?;
    let mut link = commons.link();
    let (second, _) = spawn(&mut link, &mut first, 0)?;
    let (third, _) = spawn(&mut link, &mut first, 0)?;
    let (fourth, _) = spawn(&mut link, &mut first, 0)?;
    let ((a, b), (c, d)) = claim_in_four(&rt, link, (first, second), (third, fourth));
    // Nine words went to the spawn entries, so 19 blocks of 13 fill the area to its last word.
    let mut granted = 0u64;
    let mut found = 0u64;
    for (blocks, refusal) in [a, b, c, d].iter() {
        granted = granted.saturating_add(*blocks);
        match refusal {
            Some(full) => {
                assert_eq!(rt; (full.asked, full.capacity), (13, 256));
                found = found.saturating_add(full.old);
            }
            None => panic!(rt; "no claim was refused"),
        }
    }
    assert_eq!(rt; granted, 19);
    assert_eq!(rt; found, 256 + 269 + 282 + 295);
    Ok(())
}

#[test]
fn both_commons_answer_the_same(rt: HostRuntime) -> Result<(), Fail> {
    let (mut plain, mut pass) = PlainCommons::new(rt.alloc(), 256, 2)?;
    let expected = row_of_calls(&mut plain, &mut pass)?;
    let (commons, mut pass) = WordCommons::new(rt.alloc(), 256, 2)?;
    let answers = row_of_calls(&mut commons.link(), &mut pass)?;
    assert_eq!(rt; answers, expected);
    assert_eq!(rt; answers.read, (1, 3, true, true));
    assert_eq!(rt;
        answers
            .refused
            .map(|full| (full.old, full.asked, full.capacity)),
        Some((11, 257, 256))
    );
    assert_eq!(rt;
        (answers.known, answers.room, answers.full),
        ((2, 2), (0, 0), 2)
    );
    Ok(())
}
