ghost use Rattle.std.specs.Prelude.{◌≡◌, ℕ, ◌+◌, ◌≤◌, ◌++◌, ◌∷◌, [], IfOk, OnOk, None};
ghost use Rattle.hy_words.specs.Words.{IsPidWord, IsScalar};
ghost use Rattle.commons.specs.Views.{HasPrinted, MayShare};
ghost use Rattle.commons.specs.Changes.{KeepsOthers, IsSameButSeen};

use super::*;
use hy_terms::Memory;
use hy_words::{
    Entry, area_word, following, int_word, nil_word, payload, pid_word, tag, tags, tuple_header,
};
use std::test::Fail;

#[derive(Debug, Drop)]
enum Refused {
    Area(AreaFull),
    Log(LogFull),
    Unread,
    Memory,
}

impl From<AreaFull> for Refused {
    fn from(full: AreaFull) -> Refused {
        Refused::Area(full)
    }
}

impl From<LogFull> for Refused {
    fn from(full: LogFull) -> Refused {
        Refused::Log(full)
    }
}

impl From<Memory> for Refused {
    fn from(_memory: Memory) -> Refused {
        Refused::Memory
    }
}

// Sends a message in a new block.
fn post<C: Commons>(
    c: &mut C,
    pass: &mut C::Pass,
    actor: u64,
    target: u64,
    message: u64,
) -> Result<u64, Refused>
    requires pass { C.is_pass c.old pass.old }
    requires first { (C.view c.old pass.old).refused ≡ None }
    requires born { (C.view c.old pass.old).unborn ≡ None }
    requires actor { actor ≡ (C.view c.old pass.old).pid }
    requires target { IsScalar target × IsPidWord target }
    requires message { MayShare (C.area_size c.old) (C.view c.old pass.old) message }
    ensures later { C.later c.old c.new }
    ensures others { KeepsOthers C.is_pass C.apart C.view c.old pass.old c.new pass.new }
    ensures own { IfOk result (λ place. (C.view c.new pass.new).own
        ≡ (C.view c.old pass.old).own ++ place ∷ []) }
    ensures counts { OnOk result (((C.view c.new pass.new).puts ≡ (C.view c.old pass.old).puts + 4)
        × ((C.view c.new pass.new).requests ≡ (C.view c.old pass.old).requests + 256)) }
    ensures again { OnOk result (((C.view c.new pass.new).refused ≡ None)
        × ((C.view c.new pass.new).unborn ≡ None)) }
    ensures same { OnOk result (((C.view c.new pass.new).pid ≡ (C.view c.old pass.old).pid)
        × ((C.view c.new pass.new).born ≡ (C.view c.old pass.old).born)) }
{
    c.claim(pass, 256)?;
    let entry = put_send(c, pass, actor, target, message);
    Ok(c.append(pass, entry)?)
}

// Builds a tuple of one number in a new block, and sends it.
fn post_tuple<C: Commons>(
    c: &mut C,
    pass: &mut C::Pass,
    actor: u64,
    target: u64,
) -> Result<u64, Refused>
    requires pass { C.is_pass c.old pass.old }
    requires first { (C.view c.old pass.old).refused ≡ None }
    requires born { (C.view c.old pass.old).unborn ≡ None }
    requires actor { actor ≡ (C.view c.old pass.old).pid }
    requires target { IsScalar target × IsPidWord target }
    ensures others { KeepsOthers C.is_pass C.apart C.view c.old pass.old c.new pass.new }
    ensures texts { OnOk result ((n : ℕ) → HasPrinted (C.area_size c.old) (C.view c.old pass.old) n
        → HasPrinted (C.area_size c.new) (C.view c.new pass.new) n) }
    ensures room { OnOk result ((C.view c.new pass.new).block_start + 250
        ≡ (C.view c.new pass.new).block_end) }
    ensures again { OnOk result (((C.view c.new pass.new).refused ≡ None)
        × ((C.view c.new pass.new).unborn ≡ None)) }
    ensures same { OnOk result (((C.view c.new pass.new).pid ≡ (C.view c.old pass.old).pid)
        × ((C.view c.new pass.new).born ≡ (C.view c.old pass.old).born)) }
{
    c.claim(pass, 256)?;
    let cell = put_words(c, pass, &[tuple_header(1, 9), int_word(5)]);
    let entry = put_send(c, pass, actor, target, area_word(cell));
    Ok(c.append(pass, entry)?)
}

// Learns the next entry, a send, and reads its target and its message.
fn read_message<C: Commons>(c: &mut C, pass: &mut C::Pass) -> Result<(u64, u64), Refused>
    requires pass { C.is_pass c.old pass.old }
    ensures later { C.later c.old c.new }
    ensures others { KeepsOthers C.is_pass C.apart C.view c.old pass.old c.new pass.new }
    ensures message { IfOk result (λ read. MayShare (C.area_size c.new)
        (C.view c.new pass.new) read.1) }
    ensures again { OnOk result (((C.view c.new pass.new).refused ≡ (C.view c.old pass.old).refused)
        × ((C.view c.new pass.new).unborn ≡ (C.view c.old pass.old).unborn)) }
    ensures same { OnOk result (((C.view c.new pass.new).pid ≡ (C.view c.old pass.old).pid)
        × ((C.view c.new pass.new).born ≡ (C.view c.old pass.old).born)) }
{
    let place = match c.look(pass) {
        Some(place) => place,
        None => return Err(Refused::Unread),
    };
    let cell = c.entry(pass, place);
    let header = c.get(pass, cell);
    if tag(header) != tags::SEND {
        return Err(Refused::Unread);
    }
    let target = c.get(pass, cell + 2);
    let message = c.get(pass, cell + 3);
    Ok((target, message))
}

// Reads the first part of a message that has one.
fn read_part<C: Commons>(c: &mut C, pass: &mut C::Pass, message: u64) -> Result<u64, Refused>
    requires pass { C.is_pass c.old pass.old }
    requires message { MayShare (C.area_size c.old) (C.view c.old pass.old) message }
    ensures later { C.later c.old c.new }
    ensures others { KeepsOthers C.is_pass C.apart C.view c.old pass.old c.new pass.new }
    ensures same { OnOk result (IsSameButSeen (C.view c.old pass.old) (C.view c.new pass.new)) }
{
    if tag(message) != tags::AREA {
        return Err(Refused::Unread);
    }
    let cell = payload(message);
    let header = c.get(pass, cell);
    if following(header) == 0 {
        return Err(Refused::Unread);
    }
    Ok(c.get(pass, cell + 1))
}

// Prints the text 0 out of the rest of the block.
fn print<C: Commons>(c: &mut C, pass: &mut C::Pass, actor: u64) -> Result<u64, Refused>
    requires pass { C.is_pass c.old pass.old }
    requires born { (C.view c.old pass.old).unborn ≡ None }
    requires actor { actor ≡ (C.view c.old pass.old).pid }
    requires texts { HasPrinted (C.area_size c.old) (C.view c.old pass.old) 0 }
    requires room { (C.view c.old pass.old).block_start + 3 ≤ (C.view c.old pass.old).block_end }
    ensures others { KeepsOthers C.is_pass C.apart C.view c.old pass.old c.new pass.new }
    ensures again { OnOk result (((C.view c.new pass.new).refused ≡ (C.view c.old pass.old).refused)
        × ((C.view c.new pass.new).unborn ≡ None)) }
    ensures same { OnOk result (((C.view c.new pass.new).pid ≡ (C.view c.old pass.old).pid)
        × ((C.view c.new pass.new).born ≡ (C.view c.old pass.old).born)) }
{
    let entry = put_print(c, pass, actor, 0);
    Ok(c.append(pass, entry)?)
}

// Spawns a process, and answers the pass and the pid of the child.
fn spawn<C: Commons>(c: &mut C, pass: &mut C::Pass, actor: u64) -> Result<(C::Pass, u64), Refused>
    requires pass { C.is_pass c.old pass.old }
    requires first { (C.view c.old pass.old).refused ≡ None }
    requires born { (C.view c.old pass.old).unborn ≡ None }
    requires actor { actor ≡ (C.view c.old pass.old).pid }
    ensures pass { C.is_pass c.new pass.new }
    ensures child { IfOk result (λ r. C.is_pass c.new r.0 × C.apart pass.new r.0) }
    ensures texts { OnOk result ((n : ℕ) → HasPrinted (C.area_size c.old) (C.view c.old pass.old) n
        → HasPrinted (C.area_size c.new) (C.view c.new pass.new) n) }
    ensures again { OnOk result (((C.view c.new pass.new).refused ≡ None)
        × ((C.view c.new pass.new).unborn ≡ None)) }
    ensures child_again { IfOk result (λ r. ((C.view c.new r.0).refused ≡ None)
        × ((C.view c.new r.0).unborn ≡ None)) }
    ensures pids { IfOk result (λ r. ((C.view c.new pass.new).pid ≡ (C.view c.old pass.old).pid)
        × ((C.view c.new r.0).pid ≡ r.1)) }
    ensures children { IfOk result (λ r. ((C.view c.new pass.new).born ≡ (C.view c.old pass.old).born ++ r.1 ∷ [])
        × ((C.view c.new r.0).born ≡ [])) }
{
    c.claim(pass, 256)?;
    let entry = put_spawn(c, pass, actor, 7, &[int_word(-1), pid_word(0)]);
    let place = c.append(pass, entry)?;
    let child = c.birth(pass)?;
    Ok((child, place + 1))
}

// The first process sends a tuple. The second reads it, and sends it on. Then the first prints,
// claims again with a rest left, and sends once more. Answers what the second read: target, message
// and part.
fn exchange<C: Commons>(
    c: &mut C,
    first: &mut C::Pass,
    second: &mut C::Pass,
    pids: (u64, u64),
) -> Result<(u64, u64, u64), Refused>
    requires passes { C.is_pass c.old first.old × C.is_pass c.old second.old
        × C.apart first.old second.old }
    requires again { ((C.view c.old first.old).refused ≡ None)
        × ((C.view c.old first.old).unborn ≡ None) }
    requires second_again { ((C.view c.old second.old).refused ≡ None)
        × ((C.view c.old second.old).unborn ≡ None) }
    requires pids { ((C.view c.old first.old).pid ≡ pids.0)
        × ((C.view c.old second.old).pid ≡ pids.1) }
    requires texts { HasPrinted (C.area_size c.old) (C.view c.old first.old) 0 }
    ensures passes { OnOk result (C.is_pass c.new first.new × C.is_pass c.new second.new
        × C.apart first.new second.new) }
    ensures again { OnOk result (((C.view c.new first.new).refused ≡ None)
        × ((C.view c.new first.new).unborn ≡ None) × ((C.view c.new second.new).unborn ≡ None)) }
    ensures same { OnOk result (((C.view c.new first.new).pid ≡ (C.view c.old first.old).pid)
        × ((C.view c.new first.new).born ≡ (C.view c.old first.old).born)) }
    ensures second_same { OnOk result (((C.view c.new second.new).pid ≡ (C.view c.old second.old).pid)
        × ((C.view c.new second.new).born ≡ (C.view c.old second.old).born)) }
{
    post_tuple(c, first, pids.0, pid_word(pids.1))?;
    let (target, message) = read_message(c, second)?;
    let part = read_part(c, second, message)?;
    post(c, second, pids.1, pid_word(pids.0), message)?;
    print(c, first, pids.0)?;
    post(c, first, pids.0, pid_word(pids.1), nil_word())?;
    Ok((target, message, part))
}

// The areas' words, the log and the claim word were computed by hand.
#[test]
fn a_tuple_is_passed_on(rt: HostRuntime) -> Result<(), Fail> {
    let (mut commons, mut first) = PlainCommons::new(rt.alloc(), 1024, 8)?;
    let (mut second, pid) = spawn(&mut commons, &mut first, 0)?;
    assert_eq!(rt; pid, 1);
    assert_eq!(rt; (commons.known(&second), commons.room(&second)), (1, 0));
    let read = exchange(&mut commons, &mut first, &mut second, (0, pid))?;
    assert_eq!(rt; read, (19, 4102, 81));
    assert_eq!(rt; (commons.known(&first), commons.room(&first)), (5, 252));
    assert_eq!(rt; (commons.known(&second), commons.room(&second)), (3, 252));
    match commons.claim(&mut first, 1) {
        Err(full) => assert_eq!(rt; (full.old, full.asked, full.capacity), (1024, 1, 1024)),
        Ok(()) => panic!(rt; "the area is full"),
    }
    commons.tell(&mut first, &mut second)?;
    assert_eq!(rt; commons.known(&second), 5);
    let mut passes = Vec::new(rt.alloc());
    passes.push(first)?;
    passes.push(second)?;
    let left = commons.close(passes)?;
    assert_eq!(rt; left.claimed, 1025);
    assert_eq!(rt;
        left.log.as_slice(),
        [6, 4134, 8198, 4198, 12294].as_slice()
    );
    assert_eq!(rt; left.area.as_slice().len(), 1024);
    for (at, word) in left.area.as_slice().iter().enumerate() {
        let expected = match at {
            0 => 74,
            1 | 4 | 259 | 263 | 514 | 769 => 3,
            2 => 113,
            3 => 18_446_744_073_709_551_601,
            256 => 154_618_822_679,
            257 => 81,
            258 | 512 | 768 => 57,
            260 | 513 | 770 => 19,
            261 | 515 => 4102,
            262 => 43,
            264 => 1,
            771 => 4,
            _ => 0,
        };
        assert_eq!(rt; *word, expected, "at {at}");
    }
    Ok(())
}

#[test]
fn a_log_of_one_place_is_filled(rt: HostRuntime) -> Result<(), Fail> {
    let (mut commons, mut pass) = PlainCommons::new(rt.alloc(), 256, 1)?;
    commons.claim(&mut pass, 256)?;
    let entry = put_send(&mut commons, &mut pass, 0, pid_word(0), nil_word());
    let place = commons.append(&mut pass, entry)?;
    assert_eq!(rt; place, 0);
    assert_eq!(rt; entry_kind(&mut commons, &mut pass, place), Entry::Send);
    let second = put_send(&mut commons, &mut pass, 0, pid_word(0), nil_word());
    match commons.append(&mut pass, second) {
        Err(full) => assert_eq!(rt; full.seen, 1),
        Ok(_) => panic!(rt; "the log is full"),
    }
    assert_eq!(rt; commons.known(&pass), 1);
    assert_eq!(rt; commons.look(&mut pass), None);
    Ok(())
}
