//! The data of the machine. No clause says that memory can be had, so each call that takes some is made here. Copies of
//! machines and of entries are tested by `audit`.
use jlr_machine::items::Items;
use jlr_types::Slot;
use std::alloc::{AllocError, Global};

mod cell_sets;
mod choices;
mod lists;
mod values;

fn slots(alloc: Global, numbers: &[u32]) -> Result<Items<Slot>, AllocError> {
    let mut list = Items::new(alloc);
    for &number in numbers {
        list.push(Slot::new(number))?;
    }
    Ok(list)
}

fn slot(number: u32) -> Option<Slot> {
    Some(Slot::new(number))
}
