//! The fields of a plain object.
ghost use Rattle.std.specs.Prelude.{◌≡◌, ◌++◌, ◌<◌, ◌≤◌, [], ◌∷◌, IfSome, Some, length, map, slice_get, slice_set};
ghost use Rattle.jlr_machine.specs.Lookups.{blank};
ghost use Rattle.jlr_cells.specs.Words.{AreFields, IsWritten, fields_of, slot_of, value_in};

use jlr_types::{FieldKind, FieldValue, Layout, Slot};
use std::marker::Model;

/// What a word is for.
#[derive(Clone, Copy)]
pub(crate) enum Place {
    /// No field.
    Absent,
    /// An integer.
    Int,
    /// The number of a slot, or null.
    Ref,
}

/// At most eight fields, each as a word, and in front of the words what each is for.
#[derive(Drop)]
pub(crate) struct Fields {
    places: [Place; 8],
    words: [i64; 8],
}

impl Model for Fields {
    ghost use Rattle.std.specs.Prelude.{List, length, ◌≡◌};
    ghost use Rattle.jlr_types.specs.declared.FieldValue.{FieldValue};
    ghost use Rattle.jlr_cells.specs.Words.{AreFields, fields_of};

    ghost Value = { List FieldValue };

    ghost view = { λ a. fields_of a.places a.words };

    ghost invariant = { λ a. AreFields a.places a.words };
}

impl Fields {
    /// No fields.
    fn empty() -> Self
        ensures { result ≡ [] }
    {
        Fields {
            places: [Place::Absent; 8],
            words: [0; 8],
        }
    }

    /// Fields of these kinds, each 0 or null.
    pub(crate) fn blank(layout: &Layout) -> Self
        ensures fields { result ≡ map blank layout.now }
        ensures few { length result ≤ 8 }
    {
        let mut fields = Fields::empty();
        for field in 0..layout.len() {
            match layout.get(field) {
                Some(kind) => fields.add(field, blank(kind)),
                None => unreachable!(),
            }
        }
        fields
    }

    /// A field behind the others.
    fn add(&mut self, field: usize, value: FieldValue)
        requires here { length self.old ≡ field }
        requires room { field < 8 }
        ensures { self.new ≡ self.old ++ value ∷ [] }
    {
        write(&mut self.places, &mut self.words, field, value);
    }

    /// A field, if there is one of that number.
    pub(crate) fn get(&self, field: usize) -> Option<FieldValue>
        ensures value { result ≡ slice_get self.now field }
        ensures at_most_eight { IfSome result (λ _. field < 8) }
    {
        read(&self.places, &self.words, field)
    }

    /// How many fields there are, at most eight.
    pub(crate) fn len(&self) -> usize
        ensures count { result ≡ length self.now }
        ensures few { result ≤ 8 }
    {
        let mut count = 0;
        while self.get(count).is_some() {
            count += 1;
        }
        count
    }

    /// Sets a field, and answers what it held.
    pub(crate) fn set(&mut self, field: usize, value: FieldValue) -> FieldValue
        requires { field < length self.old }
        ensures old { slice_get self.old field ≡ Some result }
        ensures new { self.new ≡ slice_set self.old field value }
        ensures few { field < 8 }
    {
        match self.get(field) {
            Some(old) => {
                write(&mut self.places, &mut self.words, field, value);
                old
            }
            None => unreachable!(),
        }
    }
}

fn read(places: &[Place], words: &[i64], field: usize) -> Option<FieldValue>
    requires { AreFields places.now words.now }
    ensures value { result ≡ slice_get (fields_of places.now words.now) field }
    ensures at_most_eight { IfSome result (λ _. field < 8) }
{
    if field < 8 {
        let place = places[field];
        let word = words[field];
        value_in(place, word)
    } else {
        None
    }
}

fn write(places: &mut [Place], words: &mut [i64], field: usize, value: FieldValue)
    requires places { field < length places.old }
    requires words { field < length words.old }
    ensures { IsWritten places.old words.old field value places.new words.new }
{
    let (place, word) = written(value);
    places[field] = place;
    words[field] = word;
}

/// What a word stands for.
fn value_in(place: Place, word: i64) -> Option<FieldValue>
    ensures { result ≡ value_in place word }
{
    match place {
        Place::Absent => None,
        Place::Int => Some(FieldValue::Int(word)),
        Place::Ref => Some(FieldValue::Ref(slot_of(word))),
    }
}

/// The slot of this number; null, where it is none of a slot.
fn slot_of(word: i64) -> Option<Slot>
    ensures { result ≡ slot_of word }
{
    match u32::try_from(word) {
        Ok(number) => Some(Slot::new(number)),
        Err(_) => None,
    }
}

/// A word that stands for a value.
fn written(value: FieldValue) -> (Place, i64)
    ensures { value_in result.0 result.1 ≡ Some value }
{
    match value {
        FieldValue::Int(number) => (Place::Int, number),
        FieldValue::Ref(target) => (Place::Ref, word_of(target)),
    }
}

fn word_of(target: Option<Slot>) -> i64
    ensures { slot_of result ≡ target }
{
    match target {
        Some(slot) => i64::from(slot.number()),
        None => -1,
    }
}

fn blank(kind: FieldKind) -> FieldValue
    ensures { result ≡ blank kind }
{
    match kind {
        FieldKind::Int => FieldValue::Int(0),
        FieldKind::Ref => FieldValue::Ref(None),
    }
}
