//! What the program does: what the words of its command line ask for.
use crate::audit::audit;
use crate::manual::{commands, version};
use crate::reach::fenced;
use crate::save::session_saved;
use crate::serve::serve;
use crate::session::session;
use crate::stats::stats;
use crate::stop::stop;
use jlr_client::client::client;
use jlr_command_line::arguments::{self, Order, RunOrder};
use jlr_command_line::fault::ProgramFault;
use std::io::IsTerminal;
use std::sync::Wait;
use std::thread::Threads;

/// Does what the words of the command line ask for. Threads are for a server alone.
///
/// # Errors
/// The fault of the words, or of what they ask for.
pub fn run<T: Threads + Wait + Sync>(rt: &HostRuntime, threads: &T) -> Result<(), ProgramFault> {
    let words = arguments::words(rt)?;
    match arguments::order_of(rt.alloc(), words.as_slice())? {
        Order::Run(order) => run_alone(rt, order),
        Order::Serve(service) => serve(rt, threads, service, &mut rt.stdout()),
        Order::Stop(order) => stop(rt, order.control),
        Order::Audit(order) => audit(rt, order, &mut rt.stdout()),
        Order::Stats(order) => stats(rt, order, &mut rt.stdout()),
        Order::Client(path) => client(rt, path),
        Order::Commands(name) => commands(rt.alloc(), name, &mut rt.stdout()),
        Order::Version => version(&mut rt.stdout()),
    }
}

/// One session on the standard input and output.
fn run_alone(rt: &HostRuntime, order: RunOrder<'_>) -> Result<(), ProgramFault> {
    greet(rt);
    let mut reader = rt.stdin();
    let mut writer = rt.stdout();
    let mut device = fenced(rt, order.reach, &[]);
    match order.save {
        Some(path) => session_saved(
            rt,
            path,
            order.limits,
            &mut reader,
            &mut writer,
            &mut device,
        ),
        None => session(
            rt.alloc(),
            order.limits,
            &mut reader,
            &mut writer,
            &mut device,
        ),
    }
}

/// Says how to leave and where help is, where a person types.
fn greet(rt: &HostRuntime) {
    if rt.stdin().is_terminal() && rt.stderr().is_terminal() {
        let _ = eprintln!(*rt;
            "refheap: one command a line, `bye` ends; `refheap commands` lists them"
        );
    }
}
