//! The phases of a store.

ghost use Rattle.std.specs.Prelude.{◌≡◌, ◌++◌, ◌∷◌, ◌<◌, [], length, IsTrue, true, false, OnOk, OnErr, Some, slice_get};
ghost use Rattle.teb_rules.specs.declared.names.Cell.{Cell};
ghost use Rattle.teb_rules.specs.Answer.{answer};
ghost use Rattle.store_setup.specs.SetupView.{setup_view};
ghost use Rattle.store_setup.specs.Sound.{IsWhole};
ghost use Rattle.tree_switch.specs.Courses.{IsCourse};
ghost use Rattle.tree_switch.specs.Refusals.{IsRefusedBy};
ghost use Rattle.tree_switch.specs.Serial.{IsSerial};
ghost use Rattle.tree_switch.specs.Starts.{IsStarted};

use crate::error::SwitchError;
use crate::next_phase::start;
use crate::refusal::check;
use engine_core::Engine;
use std::alloc::{AllocError, Global};
use std::marker::Model;
use std::mem;
use store_setup::Setup;
use teb_rules::names::{Reply, Request, Session};
use version_chain::Chains;

/// A store in phases, each under its tree. A phase starts with the tables that the one before it left. Contracts see the phases
/// that are past, the oldest first, and the present one, each as they see its engine.
#[derive(Drop)]
pub struct Phases<C: Chains> {
    past: Vec<Engine<C>>,
    present: Engine<C>,
}

impl<C: Chains> Model for Phases<C> {
    ghost use Rattle.tree_switch.specs.Courses.{Course, IsCourse};

    ghost Value = { Course };

    ghost view = { λ p. record { past = p.past.items; present = p.present } };

    ghost invariant = { λ p. IsCourse (record { past = p.past.items; present = p.present }) };
}

impl<C: Chains> Phases<C> {
    /// Returns the first phase, of an engine to which nothing has happened yet. Takes no memory.
    pub fn new(alloc: Global, engine: Engine<C>) -> Phases<C>
        requires { engine.events ≡ [] }
        ensures past { result.past ≡ [] }
        ensures present { result.present ≡ engine }
    {
        prove!(engine.history().is_empty());
        Phases {
            past: Vec::new(alloc),
            present: engine,
        }
    }

    /// Returns the past engines, the oldest first, and the present one; `from_parts` puts them together again.
    pub fn into_parts(self) -> (Vec<Engine<C>>, Engine<C>)
        ensures past { result.0.items ≡ self.past }
        ensures present { result.1 ≡ self.present }
        ensures course { IsCourse self }
    {
        (self.past, self.present)
    }

    /// Returns the phases of these engines, the past ones with the oldest first.
    pub fn from_parts(past: Vec<Engine<C>>, present: Engine<C>) -> Phases<C>
        requires { IsCourse (record { past = past.items; present = present }) }
        ensures past { result.past ≡ past.items }
        ensures present { result.present ≡ present }
    {
        Phases { past, present }
    }

    /// Returns the engine of the present phase. Each phase has started with the tables that the one before it left, and the serial
    /// orders of all phases, one after the other, are one serial order.
    pub fn engine(&self) -> &Engine<C>
        ensures engine { result.now ≡ self.now.present }
        ensures course { IsCourse self.now }
        ensures serial { IsSerial self.now }
    {
        &self.present
    }

    /// Returns how many phases are past.
    pub fn finished(&self) -> usize
        ensures { result ≡ length self.now.past }
    {
        self.past.len()
    }

    /// Returns the engine of a past phase, from 0 at the oldest.
    pub fn past(&self, i: usize) -> &Engine<C>
        requires { i < length self.now.past }
        ensures { slice_get self.now.past i ≡ Some result.now }
    {
        &self.past[i]
    }

    /// Makes room for the events of one answer.
    ///
    /// # Errors
    /// Out of memory. Everything is unchanged.
    pub fn ready(&mut self) -> Result<(), AllocError>
        ensures past { self.new.past ≡ self.old.past }
        ensures store { self.new.present.store ≡ self.old.present.store }
        ensures names { self.new.present.names ≡ self.old.present.names }
        ensures events { self.new.present.events ≡ self.old.present.events }
        ensures ok { OnOk result (self.new.present.ready ≡ true) }
        ensures err { OnErr result (self.new ≡ self.old) }
    {
        self.present.ready()
    }

    /// Answers a request in the present phase. It uses up the room, and takes no memory.
    pub fn ask(&mut self, session: Session, request: Request) -> Reply
        requires { IsTrue self.old.present.ready }
        ensures past { self.new.past ≡ self.old.past }
        ensures reply { result ≡ (answer self.old.present.store self.old.present.events session request).0 }
        ensures events { self.new.present.events ≡ (answer self.old.present.store self.old.present.events session request).1 }
        ensures store { self.new.present.store ≡ self.old.present.store }
        ensures names { self.new.present.names ≡ self.old.present.names }
        ensures ready { self.new.present.ready ≡ false }
    {
        self.present.ask(session, request)
    }

    /// Ends the present phase, and starts the next one under a setup, with the tables that the present one leaves, over chains
    /// with no version. Transactions count from 1 again.
    ///
    /// # Errors
    /// `Again` if a transaction is unfinished; else `Untold` if a session holds an aborted one; else `Tables` if the names of the
    /// tables are others; else `Rows` if the setup has rows; else `OutOfMemory` if memory runs out. After an error the phases are
    /// unchanged.
    pub fn switch(&mut self, alloc: Global, setup: Setup, chains: C) -> Result<(), SwitchError>
        requires setup { IsWhole (setup_view setup) }
        requires chains { (x : Cell) → C.lists chains x ≡ [] }
        ensures refused { IsRefusedBy self.old.present (setup_view setup) result }
        ensures past { OnOk result (self.new.past ≡ self.old.past ++ self.old.present ∷ []) }
        ensures present { OnOk result (IsStarted setup self.old.present self.new.present) }
        ensures kept { OnErr result (self.new ≡ self.old) }
    {
        if let Err(why) = check(&self.present, &setup) {
            return Err(why);
        }
        let next = start(alloc, &self.present, setup, chains)?;
        move_on(&mut self.past, &mut self.present, next)?;
        Ok(())
    }
}

/// Appends the present engine to the past ones, and puts the next one in its place.
///
/// # Errors
/// Out of memory. Everything is unchanged.
fn move_on<C: Chains>(
    past: &mut Vec<Engine<C>>,
    present: &mut Engine<C>,
    next: Engine<C>,
) -> Result<(), AllocError>
    ensures past { OnOk result (past.new.items ≡ past.old.items ++ present.old ∷ []) }
    ensures present { OnOk result (present.new ≡ next) }
    ensures past_kept { OnErr result (past.new.items ≡ past.old.items) }
    ensures present_kept { OnErr result (present.new ≡ present.old) }
{
    past.push(next)?;
    let last = past.len() - 1;
    mem::swap(&mut past[last], present);
    Ok(())
}
