use super::*;
use std::test::Fail;

#[test]
fn words_of_the_worked_rows(rt: HostRuntime) {
    assert_eq!(rt; int_word(1), 17);
    assert_eq!(rt; int_word(-1), 18_446_744_073_709_551_601);
    assert_eq!(rt; atom_word(3), 50);
    assert_eq!(rt; pid_word(1), 19);
    assert_eq!(rt; nil_word(), 4);
    assert_eq!(rt; private_word(2), 37);
    assert_eq!(rt; area_word(2), 38);
    assert_eq!(rt; tuple_header(2, 1), 17_179_869_223);
    assert_eq!(rt; cons_header(1), 17_179_869_192);
    assert_eq!(rt; entry_header(Entry::Send, 3), 57);
    assert_eq!(rt; entry_header(Entry::Spawn, 2), 42);
    assert_eq!(rt; entry_header(Entry::Print, 2), 43);
    assert_eq!(rt; tag(43), 11);
    assert_eq!(rt; payload(43), 2);
}

#[test]
fn readers_of_the_worked_rows(rt: HostRuntime) {
    assert_eq!(rt; number(17), 1);
    assert_eq!(rt; number(18_446_744_073_709_551_601), -1);
    assert_eq!(rt; number(9_223_372_036_854_775_809), -576_460_752_303_423_488);
    assert_eq!(rt; size(17_179_869_223), 2);
    assert_eq!(rt; site(17_179_869_223), 1);
    assert_eq!(rt; site(17_179_869_192), 1);
    assert_eq!(rt; following(17_179_869_223), 2);
    assert_eq!(rt; following(17_179_869_192), 2);
    assert_eq!(rt; following(57), 3);
    assert_eq!(rt; tag(17_179_869_223), tags::TUPLE);
    assert_eq!(rt; tag(57), tags::SEND);
}

#[test]
fn a_list_keeps_its_words(rt: HostRuntime) -> Result<(), Fail> {
    let mut words = Vec::new(rt.alloc());
    words.push(int_word(7))?;
    words.push(nil_word())?;
    let list = WordList::from_vec(words);
    assert_eq!(rt; list.as_slice().len(), 2);
    assert_eq!(rt; list.as_slice()[0], 113);
    assert_eq!(rt; list.as_slice()[1], 4);
    Ok(())
}

#[test]
fn a_heap_fills_to_its_limit(rt: HostRuntime) -> Result<(), Fail> {
    let mut heap = Heap::new(rt.alloc(), 3);
    heap.reserve(3)?;
    let first = heap.push(int_word(7));
    let second = heap.push(nil_word());
    assert_eq!(rt; first, 0);
    assert_eq!(rt; second, 1);
    assert_eq!(rt; heap.word(second), 4);
    match heap.reserve(2) {
        Err(HeapFault::HeapFull { used, asked, limit }) => {
            assert_eq!(rt; (used, asked, limit), (2, 2, 3));
        }
        _ => panic!(rt; "the heap has room for one word"),
    }
    heap.reserve(1)?;
    assert_eq!(rt; heap.word(first), 113);
    assert_eq!(rt; heap.len(), 2);
    Ok(())
}

// Any place is one of a cell.
struct EachPlace;

impl CellKind for EachPlace {
    ghost is_cell = { λ _. Unit {0} };
}

#[test]
fn laws_hold_of_a_kind_of_cells(_rt: HostRuntime) {
    growing_keeps_names::<EachPlace>();
    words_that_name::<EachPlace>();
    wider_kind_is_named::<EachPlace, EachPlace>();
}
