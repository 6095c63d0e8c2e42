//! Replies, held against words.
//!
//! A row is a reply, an arrow, and words that are its own, parted by `, `; behind `but not` stand words that are not. A
//! reply is an answer, with the resource that goes with it behind `with`; that of a piece of marking is `marked more`.
use jlr_event::event::Reply;
use jlr_types::Progress;
use jlr_words::{answer_of, is_reply};
use std::alloc::{AllocError, Global};

const ARROW: &str = " -> ";

const BUT_NOT: &str = " but not ";

const ROWS: &str = "
    done -> done but not already_done, handle 1, done 1, marked done, yes
    already_done -> already_done but not done, already_done 1
    yes -> yes but not no, done, yes yes
    no -> no but not yes
    queued -> queued but not lined, nothing, queued 1
    lined -> lined but not queued
    skipped -> skipped but not nothing
    nothing -> nothing but not skipped
    handle 1 -> handle 1 but not handle 2, handle, handle 1 1, int 1, done
    int -7 -> int -7 but not int 7, int, int -7 -7
    wrote 3 -> wrote 3 but not wrote 2, wrote, wrote 3 3
    fault Other -> fault Other but not fault Denied, fault, fault Other Other
    prepared 3 -> prepared but not done, prepared 3
    refused NotOut -> refused NotOut but not refused NoHandle, refused, refused NotOut 5
    refused NotOut with 5 -> refused NotOut 5 but not refused NotOut, refused NotOut 6, refused Busy 5, refused NotOut 5 5
    out 0 with 5 -> out 5 but not out 6, out 0, out, out 5 5
    job 1 note 7 -> job 1 but not job 2, job, job 1 7
    job 1 resource 0 with 5 -> job 1 5 but not job 1 6, job 1 0, job 1, job 2 5, job 1 5 5
    data 00ff -> data 00ff but not data 00fe, data 00, data 00ff00, data -, data, data 00ff 00ff
    data - -> data - but not data 00, data
    stat 1 2 3 4 5 -> stat 1 2 3 4 5, stat 1 2 3, stat 1 but not stat 2, stat 1 1, stat 1 2 4, stat 1 2 3 3, stat 1 2 3 4 4
    stat 1 0 0 0 0 -> stat 1 0 0 0 0 but not stat 1 0 0 0 0 0
    notes 7 8 -> notes 2, notes 2 8, notes 2 8 7 but not notes, notes 1, notes 2 7, notes 2 8 8, notes 2 8 7 7
    notes -> notes 0 but not notes, notes 1, notes 0 0
    faults 1:Other 2:Denied -> faults 2, faults 2 2 Denied but not faults 1, faults 2 1 Other, faults 2 2 Other, faults 2 2
    names b a -> names 2, names 2 b but not names 1, names 2 a, names 2 b a
    marked more -> marked more but not marked done, marked idle, marked, more, marked more more
    marked done -> marked done but not marked more, done
    marked idle -> marked idle but not marked done
";

fn progress(word: &str) -> Option<Progress> {
    match word {
        "more" => Some(Progress::More),
        "done" => Some(Progress::Done),
        "idle" => Some(Progress::Idle),
        _ => None,
    }
}

// The reply that a row begins with.
fn reply_of(alloc: Global, told: &str) -> Result<Option<Reply<u32>>, AllocError> {
    if let Some(word) = told.strip_prefix("marked ") {
        return Ok(progress(word).map(Reply::Marked));
    }
    let (answer, resource) = told.split_once(" with ").unwrap_or((told, ""));
    let resource = resource.parse().ok();
    match answer_of(alloc, answer)? {
        Some(answer) => Ok(Some(Reply::Answered { answer, resource })),
        None => Ok(None),
    }
}

// Whether each of these words is the reply's, or none.
fn are_all(reply: &Reply<u32>, words: &str, own: bool) -> bool {
    for words in words.split(", ") {
        if is_reply(reply, words) != own {
            return false;
        }
    }
    true
}

fn holds(alloc: Global, row: &str) -> Result<bool, AllocError> {
    let (told, words) = row.split_once(ARROW).unwrap_or((row, ""));
    let (own, others) = words.split_once(BUT_NOT).unwrap_or((words, ""));
    match reply_of(alloc, told)? {
        Some(reply) => {
            let holds = are_all(&reply, own, true) && are_all(&reply, others, false);
            drop(reply);
            Ok(holds)
        }
        None => Ok(false),
    }
}

// The first row that is not as it says.
pub(super) fn wrong_words(alloc: Global) -> Result<Option<&'static str>, AllocError> {
    for row in ROWS.trim().lines() {
        let row = row.trim();
        if !holds(alloc, row)? {
            return Ok(Some(row));
        }
    }
    Ok(None)
}
