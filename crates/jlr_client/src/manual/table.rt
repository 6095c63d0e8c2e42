//! The manual as text: the table of all forms, and the page of one.
ghost use Rattle.std.specs.Prelude.{◌≡◌, IfOk, string_bytes};
ghost use Rattle.jlr_client.specs.Forms.{refusals_of};
ghost use Rattle.jlr_client.specs.Rows.{is_meant_by, refusal_numbers, row_of};

use crate::manual::form::{Form, forms};
use crate::manual::operand::OPERANDS;
use crate::manual::refusal::{REFUSALS, phrase};
use std::alloc::{AllocError, Global};

/// A form with its operands, as `put h k v`.
pub fn line_of(alloc: Global, form: Form) -> Result<String, AllocError>
    ensures { IfOk result (λ line. string_bytes line ≡ row_of form) }
{
    let mut line = String::new(alloc);
    line.push_str(form.name())?;
    let operands = form.operands();
    for operand in operands {
        line.push_str(" ")?;
        line.push_str(operand.letter())?;
    }
    Ok(line)
}

/// The numbers of what a form may be refused, in the order of checking.
fn numbers_of(alloc: Global, form: Form) -> Result<String, AllocError>
    ensures { IfOk result (λ numbers. string_bytes numbers ≡ refusal_numbers (refusals_of form)) }
{
    let mut numbers = String::new(alloc);
    let refusals = form.refusals();
    for refusal in refusals {
        let number = refusal.number();
        numbers.push_str(format!(in alloc; " {number}")?.as_str())?;
    }
    Ok(numbers)
}

/// Adds the row of a form.
fn push_row(alloc: Global, text: &mut String, form: Form) -> Result<(), AllocError> {
    let line = line_of(alloc, form)?;
    let reply = form.page().reply;
    let numbers = numbers_of(alloc, form)?;
    text.push_str(format!(in alloc; "{line:<21}{reply:<20}{numbers}\n")?.as_str())
}

/// Adds what each letter of an operand stands for.
fn push_operands(alloc: Global, text: &mut String) -> Result<(), AllocError> {
    text.push_str("\nOperands\n")?;
    for operand in OPERANDS {
        let letter = operand.letter();
        let range = operand.range();
        text.push_str(format!(in alloc; "{letter:<9}{range}\n")?.as_str())?;
    }
    Ok(())
}

/// Adds what the numbers of refusals say.
fn push_refusals(alloc: Global, text: &mut String) -> Result<(), AllocError> {
    text.push_str("\nRefused, in the order of checking; any command also by 1\n")?;
    for refusal in REFUSALS {
        let number = refusal.number();
        let words = phrase(refusal);
        text.push_str(format!(in alloc; "{number:<9}{words}\n")?.as_str())?;
    }
    Ok(())
}

/// The table of all forms: a line each, with its operands, its reply and the numbers of its refusals; then what these
/// stand for.
///
/// # Errors
/// `AllocError` where memory ran out.
pub fn table(alloc: Global) -> Result<String, AllocError> {
    let mut text = String::new(alloc);
    text.push_str("Command              Reply               Refused\n")?;
    for form in forms() {
        push_row(alloc, &mut text, *form)?;
    }
    push_operands(alloc, &mut text)?;
    push_refusals(alloc, &mut text)?;
    Ok(text)
}

/// Adds the page of a form: what it does, its operands, its reply and its refusals in words, and an example.
fn push_page(alloc: Global, text: &mut String, form: Form) -> Result<(), AllocError> {
    let line = line_of(alloc, form)?;
    let page = form.page();
    let meaning = page.meaning;
    text.push_str(format!(in alloc; "{line}\n  {meaning}\n")?.as_str())?;
    for operand in form.operands() {
        let letter = operand.letter();
        let range = operand.range();
        text.push_str(format!(in alloc; "  {letter:<9}{range}\n")?.as_str())?;
    }
    let reply = page.reply;
    text.push_str(format!(in alloc; "  reply    {reply}\n")?.as_str())?;
    for refusal in form.refusals() {
        let number = refusal.number();
        let words = phrase(*refusal);
        text.push_str(format!(in alloc; "  ! {number:<7}{words}\n")?.as_str())?;
    }
    let example = page.example;
    let answer = page.answer;
    text.push_str(format!(in alloc; "  example  {example}\n           {answer}\n")?.as_str())
}

/// Whether a form is meant by this word: its own, or the first of two.
pub(crate) fn is_meant(form: Form, word: &[u8]) -> bool
    ensures { result ≡ is_meant_by word.now form }
{
    let name = form.name().as_bytes();
    name == word || (word == b"gc".as_slice() && name == b"gc soft".as_slice())
}

/// The pages of the forms that are meant by a word; none where none is.
///
/// # Errors
/// `AllocError` where memory ran out.
pub fn pages(alloc: Global, word: &[u8]) -> Result<Option<String>, AllocError> {
    let mut text = String::new(alloc);
    for form in forms() {
        if is_meant(*form, word) {
            push_page(alloc, &mut text, *form)?;
        }
    }
    if text.is_empty() {
        return Ok(None);
    }
    Ok(Some(text))
}
