//! The calls of a hall, on one thread.

ghost use Rattle.std.specs.Prelude.{◌≡◌, ◌≤◌, All, map};
ghost use Rattle.teb_rules.specs.history.Phases.{numbers};
ghost use Rattle.session_server.specs.Passes.{IsPassOf, IsNew, number_of};

use crate::plain::{ANY, CELL, plain_hall};
use session_server::{Entries, Hall, Pass, Poll};
use std::process::Abort;
use std::sync::Wait;
use std::test::Fail;
use teb_rules::history::{Event, History};
use teb_rules::names::{Kind, MOST_TXNS, Node, Outcome, Reply, Request, SESSIONS, Session, Txn};
use version_chain::Chains;

fn expect_reply<C: Chains, R: Wait + Abort>(
    rt: &R,
    hall: &Hall<C>,
    pass: &mut Pass<C>,
    request: Request,
    reply: Reply,
)
    requires { IsPassOf hall.now pass.old }
    ensures { IsPassOf hall.now pass.new × (pass.new.session ≡ pass.old.session) }
{
    match hall.ask(rt, pass, request) {
        Ok(answer) => assert_eq!(rt; answer, reply),
        Err(error) => panic!(rt; "{error:?}"),
    }
}

fn expect_poll<C: Chains, R: Abort>(rt: &R, hall: &Hall<C>, pass: &mut Pass<C>, t: Txn, poll: Poll)
    requires pass { IsPassOf hall.now pass.old }
    requires txn { (1 ≤ t.0) × (t.0 ≤ MOST_TXNS) }
    ensures { IsPassOf hall.now pass.new × (pass.new.session ≡ pass.old.session) }
{
    let seen = hall.poll(pass, t);
    assert_eq!(rt; seen, poll);
}

// The reader waits for the writer, which polls and asking again tell, until the writer commits.
fn write_and_read<C: Chains, R: Wait + Abort>(
    rt: &R,
    hall: &Hall<C>,
    writer: &mut Pass<C>,
    reader: &mut Pass<C>,
)
    requires writer { IsPassOf hall.now writer.old }
    requires reader { IsPassOf hall.now reader.old }
    ensures writer { IsPassOf hall.now writer.new × (writer.new.session ≡ writer.old.session) }
    ensures reader { IsPassOf hall.now reader.new × (reader.new.session ≡ reader.old.session) }
{
    let committed = Poll::Finished(Outcome::Committed);
    let waits = Reply::Again {
        who: Txn(1),
        node: Node(0),
    };
    expect_reply(rt, hall, writer, Request::Begin(ANY), Reply::Begun(Txn(1)));
    expect_reply(rt, hall, writer, Request::Write(CELL, 5), Reply::Done);
    expect_reply(rt, hall, reader, Request::Begin(ANY), Reply::Begun(Txn(2)));
    expect_reply(rt, hall, reader, Request::Read(CELL), waits);
    expect_poll(rt, hall, reader, Txn(1), Poll::Unfinished);
    expect_reply(rt, hall, writer, Request::Commit, Reply::Committed);
    expect_poll(rt, hall, reader, Txn(1), committed);
    expect_reply(rt, hall, reader, Request::Read(CELL), Reply::Value(Some(5)));
    expect_poll(rt, hall, reader, Txn(1), committed);
}

// The history and the entries once the sessions 31 and 32 have written and read.
fn closed_after<C: Chains, R: Wait + Abort>(
    rt: &R,
    hall: Hall<C>,
    mut passes: Vec<Pass<C>>,
) -> (History, Entries)
    requires new { All (IsNew hall) passes.items }
    requires sessions { map number_of passes.items ≡ numbers SESSIONS }
{
    let mut reader = passes.pop().expect(rt, "session 32");
    let mut writer = passes.pop().expect(rt, "session 31");
    write_and_read(rt, &hall, &mut writer, &mut reader);
    passes.push_reserved(writer);
    passes.push_reserved(reader);
    let (engine, entries) = hall.close(passes);
    (engine.into_history(), entries)
}

#[test]
fn a_reader_waits_until_the_writer_commits(rt: HostRuntime) -> Result<(), Fail> {
    let (hall, passes) = plain_hall(&rt, rt.alloc())?;
    let (history, entries) = closed_after(&rt, hall, passes);
    assert_eq!(rt; entries.len(), 6);
    let events = [
        Event::Began {
            txn: Txn(1),
            session: Session(31),
            kind: Kind(0),
            instance: 0,
        },
        Event::Put {
            txn: Txn(1),
            cell: CELL,
            value: Some(5),
        },
        Event::Began {
            txn: Txn(2),
            session: Session(32),
            kind: Kind(0),
            instance: 0,
        },
        Event::Done(Txn(1)),
        Event::Got {
            txn: Txn(2),
            cell: CELL,
            from: Txn(1),
            value: Some(5),
        },
    ];
    assert_eq!(rt; history.events(), events.as_slice());
    Ok(())
}
