//! Lists, tables, texts, and lists of what was kept.
use super::slots;
use jlr_machine::copy::{copy_items, copy_slice};
use jlr_machine::data::Data;
use jlr_machine::items::Items;
use jlr_machine::kept::KeptSlots;
use jlr_machine::table::Table;
use jlr_machine::text::{Name, Text, TextFull};
use jlr_types::Slot;
use std::alloc::{AllocError, Global};
use std::test::Fail;

fn a_list_grows_at_its_end(alloc: Global) -> bool {
    let mut list = Items::new(alloc);
    let has_both = takes_seven_and_eight(&mut list);
    let mut items = list.into_vec();
    let grew = items.push(9).is_ok();
    let list = Items::from_vec(items);
    let has_all = list.as_slice() == [7, 8, 9].as_slice();
    drop(list);
    has_both && grew && has_all
}

fn takes_seven_and_eight(list: &mut Items<u32>) -> bool {
    let was_empty = list.len() == 0;
    let grew = (list.push(7), list.push(8)) == (Ok(()), Ok(()));
    was_empty && grew && list.len() == 2 && list.as_slice() == [7, 8].as_slice()
}

fn a_table_has_what_is_at_each_number(alloc: Global) -> Result<bool, AllocError> {
    let table = Table::from_vec([Some(5), None, Some(6)].to_vec(alloc)?);
    let has_each = has_each_number(&table);
    let items = table.into_vec();
    let has_all = items.as_slice() == [Some(5), None, Some(6)].as_slice();
    drop(items);
    Ok(has_each && has_all)
}

fn has_each_number(table: &Table<u32>) -> bool {
    let each = [
        table.get(0).copied(),
        table.get(1).copied(),
        table.get(2).copied(),
        table.get(3).copied(),
    ];
    each == [Some(5), None, Some(6), None]
        && table.len() == 3
        && table.as_slice() == [Some(5), None, Some(6)].as_slice()
}

fn slices_are_copied_in_their_order(alloc: Global) -> Result<bool, AllocError> {
    let numbers = copy_slice(alloc, [3u32, 1, 2].as_slice())?;
    Ok(numbers.as_slice() == [3, 1, 2].as_slice())
}

fn lists_are_copied_in_their_order(alloc: Global) -> Result<bool, AllocError> {
    let list = slots(alloc, &[4, 0])?;
    let copied = is_copied(alloc, &list);
    drop(list);
    copied
}

fn is_copied(alloc: Global, list: &Items<Slot>) -> Result<bool, AllocError> {
    let copy = copy_items(alloc, list)?;
    Ok(copy.as_slice() == [Slot::new(4), Slot::new(0)].as_slice())
}

fn a_text_grows_until_it_is_full() -> bool {
    let mut text: Text<2> = Text::new();
    let was_empty = text.is_empty();
    let pushed = [text.push(7), text.push(8), text.push(9)];
    was_empty
        && pushed == [Ok(()), Ok(()), Err(TextFull)]
        && is_seven_eight(&text)
        && is_seven_eight(&text.copy())
}

fn is_seven_eight(text: &Text<2>) -> bool {
    !text.is_empty() && text.len() == 2 && text.as_slice() == [7, 8].as_slice()
}

fn is_data(alloc: Global, bytes: &[u8]) -> Result<bool, AllocError> {
    match Data::from_slice(alloc, bytes)? {
        Some(data) => Ok(data.as_slice() == bytes),
        None => Ok(false),
    }
}

fn is_name(bytes: &[u8]) -> bool {
    match Name::from_slice(bytes) {
        Some(name) => name.as_slice() == bytes,
        None => false,
    }
}

// Whether a list comes out as it went in, and holds just what went in.
fn can_be_kept(alloc: Global, numbers: &[u32]) -> Result<bool, AllocError> {
    let slots = slots(alloc, numbers)?;
    let kept = KeptSlots::from_slice(alloc, slots.as_slice())?;
    let list = kept.to_vec(alloc)?;
    let same = kept.len() == numbers.len() && list.as_slice() == slots.as_slice();
    Ok(same && holds_just(&kept, numbers))
}

fn holds_just(kept: &KeptSlots, numbers: &[u32]) -> bool {
    for number in 0..70_000u32 {
        let is_held = numbers.iter().any(|&held| held == number);
        if kept.holds(number as usize) != is_held {
            return false;
        }
    }
    numbers.iter().all(|&number| kept.holds(number as usize)) && !kept.holds(4_294_967_296)
}

#[test]
fn lists_and_tables_hold_what_they_were_given(rt: HostRuntime) -> Result<(), Fail> {
    let alloc = rt.alloc();
    let table = a_table_has_what_is_at_each_number(alloc)?;
    let copies = [
        slices_are_copied_in_their_order(alloc)?,
        lists_are_copied_in_their_order(alloc)?,
    ];
    assert!(rt; a_list_grows_at_its_end(alloc) && table && copies == [true, true]);
    Ok(())
}

// Data of at most 200 bytes.
fn data_holds_what_fits(alloc: Global) -> Result<bool, AllocError> {
    Ok((is_data(alloc, &[0; 200])?, is_data(alloc, &[0; 201])?) == (true, false))
}

// Names of small letters, at least one and at most 32.
fn names_hold_what_fits() -> bool {
    let others = [
        is_name(b""),
        is_name(b"A"),
        is_name(b"a b"),
        is_name(&[97; 33]),
    ];
    is_name(&[97; 32]) && others == [false; 4]
}

#[test]
fn texts_hold_what_fits(rt: HostRuntime) -> Result<(), Fail> {
    let data = data_holds_what_fits(rt.alloc())?;
    assert!(rt; data && a_text_grows_until_it_is_full() && names_hold_what_fits());
    Ok(())
}

/// Lists that rise, up to where a heap may have cells or beyond, and others.
#[test]
fn any_list_can_be_what_was_kept(rt: HostRuntime) -> Result<(), Fail> {
    for list in [
        [0u32, 1, 2, 63].as_slice(),
        [0, 1, 63, 64].as_slice(),
        [5, 3, 4, 9].as_slice(),
        [7, 65_535, 65_536, 69_999].as_slice(),
        [0, 4_294_967_295].as_slice(),
        [].as_slice(),
    ] {
        assert!(rt; can_be_kept(rt.alloc(), list)?);
    }
    Ok(())
}
