//! The manual: it says of each form what that does, its examples are lines of their forms, and its pages are those of
//! its words.
use jlr_client::manual::form::{Form, forms};
use jlr_client::manual::refusal::{REFUSALS, phrase, refusal_said};
use jlr_client::manual::table::{line_of, pages, table};
use jlr_wire::command::read_command;
use std::alloc::Global;
use std::test::Fail;

/// The example of a form is a command, begins with its word, and has as many fields as the form.
fn is_an_example(alloc: Global, form: Form) -> Result<(), Fail> {
    let example = form.page().example;
    let line = line_of(alloc, form)?;
    let fields = line.as_str().split(' ').count();
    let is_command = read_command(example.as_bytes()).is_ok();
    if is_command && example.starts_with(form.name()) && example.split(' ').count() == fields {
        return Ok(());
    }
    Err(Fail::new(format!(in alloc; "no example of {line}: {example}")?))
}

/// Of each form its word, what its meaning has among others, its reply, an example, and what that may be answered.
const TOLD: &str = "
    new | makes an object; fields are null or 0 | = h | new ri | = 1
    array | makes an array of n nulls | = h | array 3 | = 1
    put | writes reference field, or element, k of h | ok | put 1 0 2 | ok
    get | reads reference field, or element, k of h | = h, 0 for null | get 1 0 | = 3
    setint | writes integer field k of h | ok | setint 1 1 -7 | ok
    int | reads integer field k of h | int n | int 1 1 | int -7
    dup | one handle more for h's object | = h | dup 1 | = 4
    drop | gives the handle up | ok | drop 4 | ok
    same | whether both name one object, or both are 0 | yes, no | same 2 3 | yes
    soft | a soft reference to h's object, with the queue q, or none where q is 0 | = h | soft 1 0 | = 5
    weak | a weak reference to h's object, with the queue q, or none where q is 0 | = h | weak 1 0 | = 5
    phantom | a phantom reference to h's object, with the queue q, or none where q is 0 | = h | phantom 1 7 | = 5
    deref | what the reference refers to | = h, 0 once cleared | deref 5 | = 6
    refers | refers to h's object; where h is 0, whether it was cleared | yes, no | refers 5 1 | yes
    clear | and does not enqueue it | ok | clear 5 | ok
    enqueue | puts it at the end of its queue | yes, no | enqueue 5 | no
    enqueued | is in its queue | yes, no | enqueued 5 | no
    queue | makes a queue | = h | queue | = 7
    poll | takes the front reference off | = h, 0 where empty | poll 7 | = 0
    remove | on an empty queue a server waits | = h | remove 7 | ! 18
    cleaner | makes a cleaner | = h | cleaner | = 8
    register | the cleaner c notes the number once h's object is phantom reachable | = h, a cleanable | register 8 1 42 | = 9
    clean | does the cleanable's action now, unless done | ok | clean 9 | ok
    open | opens a file | = h, fault | open r /tmp/a | = 10
    connect | joins a Unix socket | = h, fault | connect /run/s | fault denied
    read | reads at most count bytes | data, end, fault | read 10 2 | data 0102
    write | how many were taken | wrote n, fault | write 10 0aFF | wrote 2
    close | closes the file or connection, unless done | ok, fault | close 10 | ok
    bind | names h's object; the name leaves any other | ok | bind root 1 | ok
    find | a handle for the named object | = h | find root | = 11
    unbind | takes the name away | ok | unbind root | ok
    names | the names, in order of binding | list | names | list root
    gc | a full collection, by the soft policy | ok | gc | ok
    gc soft | clears all softly reachable objects' soft references | ok | gc soft | ok
    stat | objects, resources, actions taken up, ended well, failed | stat | stat | stat 9 0 1 1 0
    notes | the last 256 numbers noted, oldest first | list | notes | list 42
    faults | the last 256 cleaning actions that failed | list | faults | list 3:denied
    bye | ends the session | ok | bye | ok
";

/// Whether the manual says of a form what a row says.
fn is_told(form: Form, row: &str) -> bool {
    let page = form.page();
    let mut parts = row.split(" | ");
    let is_meant = parts.next() == Some(form.name())
        && match parts.next() {
            Some(part) => page.meaning.contains(part),
            None => false,
        };
    is_meant
        && parts.next() == Some(page.reply)
        && parts.next() == Some(page.example)
        && parts.next() == Some(page.answer)
}

#[test]
fn examples_are_commands(rt: HostRuntime) -> Result<(), Fail> {
    let mut rows = TOLD.trim().lines();
    for form in forms() {
        is_an_example(rt.alloc(), *form)?;
        if !is_told(*form, rows.next().unwrap_or("").trim()) {
            return Err(Fail::new(form.name()));
        }
    }
    Ok(())
}

/// Each row is a word, an arrow, and how many lines its pages have.
const PAGES: &str = "
    new -> 10
    put -> 15
    gc -> 14
    gc soft -> 7
    bye -> 5
    help -> 0
    gc  soft -> 0
";

fn lines_of(alloc: Global, word: &str) -> Result<usize, Fail> {
    match pages(alloc, word.as_bytes())? {
        Some(text) => Ok(text.as_str().lines().count()),
        None => Ok(0),
    }
}

fn has_pages(alloc: Global, row: &str) -> Result<(), Fail> {
    let (word, wanted) = row.split_once(" -> ").ok_or("no row")?;
    let got = lines_of(alloc, word)?;
    if got == wanted.parse::<usize>()? {
        return Ok(());
    }
    Err(Fail::new(format!(in alloc; "at {row}: {got}")?))
}

#[test]
fn words_have_pages(rt: HostRuntime) -> Result<(), Fail> {
    for row in PAGES.trim().lines() {
        has_pages(rt.alloc(), row.trim())?;
    }
    Ok(())
}

/// The table has a line for each form, and all that stands there for operands and refusals.
#[test]
fn the_table_has_a_line_for_each(rt: HostRuntime) -> Result<(), Fail> {
    let text = table(rt.alloc())?;
    let lines = text.as_str().lines().count();
    if lines == 1 + 38 + 2 + 18 + 2 + 19 && text.as_str().contains("\nput h k v            ok ") {
        return Ok(());
    }
    Err(Fail::new(format!(in rt.alloc(); "{lines} lines")?))
}

/// What each refusal means.
const PHRASES: &str = "
    ! 1 -> memory ran out
    ! 2 -> the heap is full
    ! 3 -> no such handle
    ! 4 -> no handle is free: 250 are in use
    ! 5 -> an object of another kind
    ! 6 -> no such field
    ! 7 -> the field is of the other type
    ! 8 -> 0, where an object is needed
    ! 9 -> no such name
    ! 10 -> no name is free: 256 are in use
    ! 11 -> a call is under way
    ! 12 -> it is closed
    ! 13 -> the session is not joined
    ! 14 -> no number is left
    ! 15 -> no such command
    ! 16 -> a line of more than 512 bytes
    ! 17 -> no such call is under way
    ! 18 -> the queue is empty
    ! 19 -> as many files and sockets are open as may be
";

/// A reply line says its refusal, and none with a zero or a blank more.
#[test]
fn replies_say_refusals(rt: HostRuntime) -> Result<(), Fail> {
    for refusal in REFUSALS {
        let number = refusal.number();
        let line = format!(in rt.alloc(); "! {number}")?;
        let words = refusal_said(line.as_bytes()).map(phrase);
        if words != Some(phrase(refusal)) {
            return Err(Fail::new(format!(in rt.alloc(); "at {line}")?));
        }
    }
    for row in PHRASES.trim().lines() {
        let (line, words) = row.trim().split_once(" -> ").ok_or("no row")?;
        if refusal_said(line.as_bytes()).map(phrase) != Some(words) {
            return Err(Fail::new(row));
        }
    }
    if refusal_said(b"! 03").is_none()
        && refusal_said(b"! 20").is_none()
        && refusal_said(b"= 3").is_none()
    {
        return Ok(());
    }
    Err(Fail::from("other lines say refusals"))
}
