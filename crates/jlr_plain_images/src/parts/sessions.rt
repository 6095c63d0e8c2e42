//! Mutators and names.
ghost use Rattle.std.specs.Prelude.{◌≡◌, ◌↔◌, IsTrue};
ghost use Rattle.std.specs.List.{list_all};
ghost use Rattle.jlr_machine.specs.WellFormed.{AreSessions};
ghost use Rattle.jlr_plain_images.specs.Places.{none_or};
ghost use Rattle.jlr_plain_images.specs.Sessions.{opening_has_room, session_fits, is_new_name, names_differ};
ghost use Rattle.jlr_plain_images.specs.Sessions.{sessions_fit};

use jlr_machine::machine::{Binding, Call, Machine, Session};
use jlr_plain_asks::lookups::{names_agree, occupied_handles};

/// Whether there is room for the handle of what it opens, if it opens something.
fn opening_fits(session: &Session) -> bool
    ensures { result ≡ opening_has_room session.now session.now.call }
{
    match session.call {
        Call::Opening(_) => occupied_handles(session.handles.as_slice()) <= 249,
        _ => true,
    }
}

fn is_session(session: &Session) -> bool
    ensures { result ≡ session_fits session.now }
{
    session.handles.len() == 251 && session.handles.get(0).is_none() && opening_fits(session)
}

fn places_fit(machine: &Machine) -> bool
    ensures { result ≡ list_all (none_or session_fits) machine.now.mutators }
{
    let mut places = machine.mutators.as_slice().iter();
    places.all(|place| match place {
        Some(session) => is_session(session),
        None => true,
    })
}

fn is_new(name: &[u8], names: &[Binding]) -> bool
    ensures { result ≡ is_new_name name.now names.now }
{
    names
        .iter()
        .all(|binding| !names_agree(name, binding.name.as_slice()))
}

fn all_differ(names: &[Binding]) -> bool
    ensures { result ≡ names_differ names.now }
{
    let mut i: usize = 0;
    while i < names.len() {
        if !is_new(names[i].name.as_slice(), &names[i + 1..]) {
            return false;
        }
        i += 1;
    }
    true
}

fn sessions_tested(machine: &Machine) -> bool
    ensures { result ≡ sessions_fit machine.now }
{
    places_fit(machine) && all_differ(machine.names.as_slice()) && machine.names.len() <= 256
}

/// Whether each mutator has its 250 handles and room for what it opens, and the names are distinct and at most 256.
#[tactic(auto, using(crate::proofs::SessionsDecided::sessions_decided))]
pub fn are_sessions(machine: &Machine) -> bool
    ensures { IsTrue result ↔ AreSessions machine.now }
{
    sessions_tested(machine)
}
