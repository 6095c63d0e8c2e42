//! Devices that let through only allowed paths: over a device in memory, and over the files of the system in a folder
//! of their own.
use super::{on_device, path};
use crate::tests::calls::{Got, Stage, play};
use crate::tests::words::{called, parsed};
use jlr_device::fenced::{Fence, Fenced};
use jlr_device::places::{Inode, Places, SystemPlaces};
use jlr_device::real::{RealDevice, RealResource};
use jlr_device::script::{Script, ScriptDevice, ScriptResource};
use std::alloc::Global;
use std::os::unix::fs::symlink;
use std::os::unix::net::UnixListener;
use std::str::SplitWhitespace;
use std::test::Fail;
use std::{fs, mem};

// ---- In memory

// No path is straight whose text behind the folder is `/link`, and sockets of the program's own are at `own` and
// `dir/own`.
#[derive(Drop)]
struct Told;

impl Places for Told {
    fn is_straight(&self, path: &str, folder: usize) -> bool {
        path.get(folder..) != Some("/link")
    }

    fn is_own(&self, path: &str) -> bool {
        path == "own" || path == "dir/own"
    }
}

// The scripts of the next device, the fence in front of it, and what it opened.
#[derive(Drop)]
struct Scripted {
    alloc: Global,
    scripts: Vec<Script>,
    device: Fenced<'static, ScriptDevice, Told>,
    opened: Option<ScriptResource>,
}

impl Stage for Scripted {
    fn answered(&mut self, name: &str, words: &mut SplitWhitespace<'_>) -> Option<Got> {
        match name {
            "script" => self.add_script(words),
            "new" => self.renew(words),
            _ => on_device(self.alloc, &mut self.device, &mut self.opened, name, words),
        }
    }
}

impl Scripted {
    // Its words are the outcome of the open.
    fn add_script(&mut self, words: &mut SplitWhitespace<'_>) -> Option<Got> {
        let opened = called(words)?;
        let script = Script {
            opened,
            steps: Vec::new(self.alloc),
            finished: Ok(()),
        };
        self.scripts.push(script).ok()?;
        Some(Got::Truth(true))
    }

    // A fence in front of a device with the scripts before it, which has failed so often.
    fn renew(&mut self, words: &mut SplitWhitespace<'_>) -> Option<Got> {
        let fence = match words.next()? {
            "everything" => Fence::Everything,
            "nothing" => Fence::Nothing,
            "below" => Fence::Below("dir"),
            _ => Fence::Below(""),
        };
        let failures = parsed(words)?;
        let scripts = mem::replace(&mut self.scripts, Vec::new(self.alloc));
        self.device = Fenced::new(ScriptDevice::new(scripts, failures), Told, fence);
        Some(Got::Truth(true))
    }
}

// `script` is the outcome of one more open of the device below, so a call that takes none was not let through.
const LISTS: &str = "
    # everything is let through but a socket of its own
    script NotFound -> true
    script Other -> true
    new everything 5 -> true
    open_to_read ../a -> Err(NotFound)
    connect own -> Err(Denied)
    connect dir/own -> Err(Denied)
    failed_opens -> 8
    connect /a -> Err(Other)
    open_to_read own -> Ok(())
    open_to_read -> Ok(())
    failed_opens -> 9

    # nothing is let through
    script NotFound -> true
    new nothing 0 -> true
    open_to_read a -> Err(Denied)
    open_to_write a -> Err(Denied)
    connect a -> Err(Denied)
    failed_opens -> 3

    # below a folder, by the text of the path
    script NotFound -> true
    new below 0 -> true
    open_to_read .. -> Err(Denied)
    open_to_read ../a -> Err(Denied)
    open_to_read a/.. -> Err(Denied)
    open_to_write a/../b -> Err(Denied)
    open_to_write a//.. -> Err(Denied)
    connect ../a -> Err(Denied)
    open_to_read /a -> Err(Denied)
    open_to_read / -> Err(Denied)
    open_to_read -> Err(Denied)
    connect -> Err(Denied)
    failed_opens -> 10
    open_to_read a -> Err(NotFound)
    open_to_read ...  -> Ok(())
    open_to_read ..a/b.. -> Ok(())
    open_to_read a/. -> Ok(())
    open_to_read a// -> Ok(())
    connect a/b -> Ok(())
    failed_opens -> 11

    # below a folder, by what is told
    script Other -> true
    new below 1 -> true
    open_to_read link -> Err(Denied)
    open_to_write link -> Err(Denied)
    connect link -> Err(Denied)
    connect own -> Err(Denied)
    failed_opens -> 5
    connect dir/own -> Err(Other)
    open_to_read own -> Ok(())
    open_to_read a/link -> Ok(())
    failed_opens -> 6

    # nothing is below the folder of the empty name
    new nowhere 0 -> true
    open_to_read a -> Err(Denied)
    connect a -> Err(Denied)
    failed_opens -> 2

    # a count at its last value makes no call, and no denial
    new nothing 18446744073709551614 -> true
    open_to_read a -> Err(Denied)
    failed_opens -> 18446744073709551615
    open_to_read a -> Err(Other)
    failed_opens -> 18446744073709551615
";

// ---- The system

const FOLDER: &str = "jlr_fence_rows";

// A device below the folder, the sockets of its own, what it opened, and what listens.
#[derive(Drop)]
struct Real<'a> {
    rt: HostRuntime,
    own: &'a [Inode],
    device: Fenced<'a, RealDevice, SystemPlaces<'a>>,
    opened: Option<RealResource>,
    listener: Option<UnixListener>,
}

impl<'a> Stage for Real<'a> {
    fn answered(&mut self, name: &str, words: &mut SplitWhitespace<'_>) -> Option<Got> {
        match name {
            "folder" => {
                fs::create_dir(&self.rt, path(words)).ok()?;
                Some(Got::Truth(true))
            }
            "link" => {
                symlink(&self.rt, path(words), path(words)).ok()?;
                Some(Got::Truth(true))
            }
            "listen" => {
                self.listener = Some(UnixListener::bind(&self.rt, path(words)).ok()?);
                Some(Got::Truth(true))
            }
            "everything" => self.lets_everything_through(),
            _ => on_device(
                self.rt.alloc(),
                &mut self.device,
                &mut self.opened,
                name,
                words,
            ),
        }
    }
}

impl<'a> Real<'a> {
    // A new device that is not below the folder.
    fn lets_everything_through(&mut self) -> Option<Got> {
        let places = SystemPlaces::new(self.rt, self.own);
        self.device = Fenced::new(RealDevice::new(self.rt), places, Fence::Everything);
        Some(Got::Truth(true))
    }
}

// `link` makes a link that says its first word at its second. The socket `own` is the program's. `everything` makes a
// device that lets every path through.
const REAL: &str = "
    # files below the folder
    folder jlr_fence_rows/deep -> true
    open_to_write deep/file -> Ok(())
    write 7 -> Ok(1)
    finish -> Finished { outcome: Ok(()), failures: 0 }
    open_to_read deep/file -> Ok(())
    read 4 -> (Ok(1), [7, 9, 9, 9])
    open_to_read ./deep//file -> Ok(())
    open_to_read deep/../deep/file -> Err(Denied)
    open_to_read missing -> Err(NotFound)
    open_to_write missing/file -> Err(NotFound)
    open_to_read deep/file/x -> Err(Other)
    failed_opens -> 4

    # links are not followed
    link deep jlr_fence_rows/bent -> true
    link file jlr_fence_rows/deep/other -> true
    link nothing jlr_fence_rows/dangling -> true
    link /etc jlr_fence_rows/deep/out -> true
    open_to_read bent/file -> Err(Denied)
    open_to_write bent/new -> Err(Denied)
    open_to_read deep/other -> Err(Denied)
    open_to_read deep/out/hostname -> Err(Denied)
    open_to_read deep/out/ -> Err(Denied)
    open_to_write dangling -> Err(Denied)
    failed_opens -> 10

    # sockets
    listen jlr_fence_rows/deep/socket -> true
    link own jlr_fence_rows/owned -> true
    connect deep/socket -> Ok(())
    connect bent/socket -> Err(Denied)
    connect own -> Err(Denied)
    connect ./own -> Err(Denied)
    connect deep/missing -> Err(NotFound)
    failed_opens -> 14

    # where everything is let through links are followed, and one to a socket of its own is denied
    everything -> true
    connect jlr_fence_rows/own -> Err(Denied)
    connect jlr_fence_rows/owned -> Err(Denied)
    connect jlr_fence_rows/bent/../own -> Err(Denied)
    failed_opens -> 3
    connect jlr_fence_rows/bent/socket -> Ok(())
    open_to_read jlr_fence_rows/bent/file -> Ok(())
    read 4 -> (Ok(1), [7, 9, 9, 9])
    open_to_read jlr_fence_rows/dangling -> Err(NotFound)
    failed_opens -> 4
";

fn play_real(rt: HostRuntime) -> Result<(), Fail> {
    let socket = "jlr_fence_rows/own";
    let listener = UnixListener::bind(&rt, socket)?;
    let own = [Inode::at(&rt, socket)?];
    let places = SystemPlaces::new(rt, &own);
    let mut real = Real {
        rt,
        own: &own,
        device: Fenced::new(RealDevice::new(rt), places, Fence::Below(FOLDER)),
        opened: None,
        listener: Some(listener),
    };
    play(&mut real, rt.alloc(), REAL)
}

#[test]
fn fences_answer_as_the_rows_say(rt: HostRuntime) -> Result<(), Fail> {
    let alloc = rt.alloc();
    let mut scripted = Scripted {
        alloc,
        scripts: Vec::new(alloc),
        device: Fenced::new(
            ScriptDevice::new(Vec::new(alloc), 0),
            Told,
            Fence::Everything,
        ),
        opened: None,
    };
    let played = play(&mut scripted, alloc, LISTS);
    drop(scripted);
    played?;
    let _ = fs::remove_dir_all(&rt, FOLDER);
    fs::create_dir(&rt, FOLDER)?;
    play_real(rt)?;
    fs::remove_dir_all(&rt, FOLDER)?;
    Ok(())
}
