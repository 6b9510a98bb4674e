//! A setup, and the lines to be run over its store.

ghost use Rattle.std.specs.Prelude.{◌≡◌};
ghost use Rattle.script_text.specs.Sessions.{AreOfSessions};
ghost use Rattle.store_setup.specs.SetupView.{setup_view};
ghost use Rattle.store_setup.specs.Sound.{IsWhole, IsNamed, HasNames};

use script_text::Line;
use std::marker::Model;
use store_setup::Setup;

/// A setup, and the lines to be run over its store. The store can be set up, each node has a name, all names are valid, and the
/// lines are of sessions 1 to `SESSIONS`.
#[derive(Drop)]
pub struct Input {
    setup: Setup,
    lines: Vec<Line>,
    // The bytes that it was read from, kept only for their memory: no contract tells them.
    text: Option<Vec<u8>>,
}

impl Model for Input {
    ghost use Rattle.script_text.specs.Sessions.{AreOfSessions};
    ghost use Rattle.store_setup.specs.SetupView.{setup_view};
    ghost use Rattle.store_setup.specs.Sound.{IsWhole, IsNamed, HasNames};
    ghost use Rattle.input_reader.specs.Tasks.{Task};

    ghost Value = { Task };

    ghost view = { λ i. record { setup = setup_view i.setup; lines = i.lines.items } };

    ghost invariant = { λ i. IsWhole (setup_view i.setup) × IsNamed (setup_view i.setup) × HasNames (setup_view i.setup) × AreOfSessions i.lines.items };
}

impl Input {
    /// Returns the input with these parts.
    pub fn new(setup: Setup, lines: Vec<Line>) -> Input
        requires whole { IsWhole (setup_view setup) }
        requires named { IsNamed (setup_view setup) }
        requires names { HasNames (setup_view setup) }
        requires sessions { AreOfSessions lines.items }
        ensures { result ≡ record { setup = setup_view setup; lines = lines.items } }
    {
        Input {
            setup,
            lines,
            text: None,
        }
    }

    /// Returns the same input, with the bytes that it was read from.
    pub(crate) fn with_text(mut self, text: Vec<u8>) -> Input
        ensures { result ≡ self }
    {
        self.text = Some(text);
        self
    }

    /// Takes the bytes that it was read from; `None` if it was made of parts, or they were taken before. A run writes its text
    /// into their memory, and so frees no large block. The setup and the lines stay.
    pub fn take_text(&mut self) -> Option<Vec<u8>>
        ensures { self.new ≡ self.old }
    {
        self.text.take()
    }

    /// Returns the setup of the tree text.
    pub fn setup(&self) -> &Setup
        ensures { setup_view result.now ≡ self.now.setup }
    {
        &self.setup
    }

    /// Returns the setup and the lines.
    pub fn into_parts(self) -> (Setup, Vec<Line>)
        ensures setup { setup_view result.0 ≡ self.setup }
        ensures whole { IsWhole (setup_view result.0) }
        ensures named { IsNamed (setup_view result.0) }
        ensures names { HasNames (setup_view result.0) }
        ensures lines { (result.1.items ≡ self.lines) × AreOfSessions result.1.items }
    {
        (self.setup, self.lines)
    }
}
