//! A stop word, raised before a session is served, or amid its script.

ghost use Rattle.std.specs.Prelude.{◌≡◌, All, map};
ghost use Rattle.teb_rules.specs.history.Phases.{numbers};
ghost use Rattle.session_server.specs.Passes.{IsPassOf, IsNew, number_of};

use crate::hold::Unheld;
use crate::plain::{ANY, CELL, plain_hall};
use script_text::Line;
use script_walk::Walker;
use session_server::{Hall, Pass};
use session_tasks::{Gate, Stops, serve};
use std::process::Abort;
use std::sync::Wait;
use std::sync::atomic::AtomicIn;
use std::sync::atomic::Ordering::SeqCst;
use std::test::Fail;
use teb_rules::history::History;
use teb_rules::names::{Request, SESSIONS, Session};
use version_chain::Chains;

/// Raises a stop word once a line was answered.
#[derive(Drop)]
struct Raiser<'a> {
    word: &'a AtomicIn<Stops>,
    line: u32,
}

impl Gate for Raiser<'_> {
    fn before(&self, _session: Session, _line: u32) {}

    fn after(&self, _session: Session, line: u32) {
        if line == self.line {
            self.word.store(1, SeqCst);
        }
    }
}

fn line(number: u32, request: Request) -> Line {
    Line {
        number,
        session: Session(32),
        request,
    }
}

fn script() -> [Line; 3] {
    [
        line(1, Request::Begin(ANY)),
        line(2, Request::Write(CELL, 5)),
        line(3, Request::Commit),
    ]
}

// A raised word stops the session before it asks. One that is raised at its first line stops it before the second. Without one it goes
// on from there, to the end of its script.
fn stop_and_go_on<C: Chains, R: Wait + Abort>(rt: &R, hall: &Hall<C>, pass: &mut Pass<C>)
    requires { IsNew hall.now pass.old }
    ensures { IsPassOf hall.now pass.new × (pass.new.session ≡ pass.old.session) }
{
    let raised: AtomicIn<Stops> = AtomicIn::new(1);
    let lines = script();
    let mut walker = Walker::new();
    let stopped = serve(rt, hall, pass, &lines, &mut walker, Some(&raised), &Unheld);
    assert_eq!(rt; stopped, Ok(false));
    assert_eq!(rt; pass.asks(), 0);
    let word: AtomicIn<Stops> = AtomicIn::new(0);
    let gate = Raiser {
        word: &word,
        line: 1,
    };
    let amid = serve(rt, hall, pass, &lines, &mut walker, Some(&word), &gate);
    assert_eq!(rt; amid, Ok(false));
    assert_eq!(rt; pass.asks(), 1);
    let ended = serve::<C, Unheld, Stops, R>(rt, hall, pass, &lines, &mut walker, None, &Unheld);
    assert_eq!(rt; ended, Ok(true));
    assert_eq!(rt; pass.asks(), 3);
}

// The history once session 32 was stopped and has gone on.
fn history_after<C: Chains, R: Wait + Abort>(
    rt: &R,
    hall: Hall<C>,
    mut passes: Vec<Pass<C>>,
) -> History
    requires new { All (IsNew hall) passes.items }
    requires sessions { map number_of passes.items ≡ numbers SESSIONS }
{
    let mut pass = passes.pop().expect(rt, "session 32");
    stop_and_go_on(rt, &hall, &mut pass);
    passes.push_reserved(pass);
    let (engine, _) = hall.close(passes);
    engine.into_history()
}

#[test]
fn a_session_that_was_stopped_goes_on_to_its_end(rt: HostRuntime) -> Result<(), Fail> {
    let (hall, passes) = plain_hall(&rt, rt.alloc())?;
    let history = history_after(&rt, hall, passes);
    assert_eq!(rt; history.len(), 3);
    Ok(())
}
