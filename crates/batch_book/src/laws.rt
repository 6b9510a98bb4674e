//! What holds of every book of batches and of every history.

ghost use Rattle.std.specs.Prelude.{◌≡◌, ◌&&◌, ◌∷◌, ℕ, suc, cond, eqb, not, List, IsTrue};
ghost use Rattle.teb_rules.specs.declared.names.Spot.{Spot};
ghost use Rattle.teb_rules.specs.declared.history.Event.{Event};
ghost use Rattle.teb_rules.specs.history.Phases.{begun, begun_count};
ghost use Rattle.teb_rules.specs.Setup.{Setup};
ghost use Rattle.teb_rules.specs.Tree.{row, has_batches, leaf, on, side_at};
ghost use Rattle.teb_rules.specs.Verdicts.{wait_for};
ghost use Rattle.teb_rules.specs.declared.Verdict.TheVariants.{Go};
ghost use Rattle.teb_rules.specs.Stops.{on_begin};
ghost use Rattle.teb_rules.specs.laws.Lawful.{Lawful};
ghost use Rattle.batch_book.specs.Book.{Book, has_joined, IsNew};
ghost use Rattle.batch_book.specs.Histories.{IsNumbered, MayCome, Passes, BatchesOf, full_at};

/// An event that neither begins nor finishes a transaction with the node on its path changes no batch.
pub fn other_events_pass()
    ensures { (b : Book) (S : Setup) (P : List Event) (n : ℕ) (e : Event) → BatchesOf b S P n → MayCome P e → Passes S P n e → BatchesOf b S (e ∷ P) n }
{}

/// A transaction that has begun, with the node on its path, has joined.
pub fn members_have_joined()
    ensures { (b : Book) (S : Setup) (H : List Event) (n t : ℕ) → BatchesOf b S H n → IsTrue (begun H t) → IsTrue (on S H n t) → IsTrue (has_joined b t) }
{}

/// The transaction that begins next has a greater number than those in the book.
pub fn next_is_new()
    ensures { (b : Book) (S : Setup) (P : List Event) (n t : ℕ) → BatchesOf b S P n → t ≡ suc (begun_count P) → IsNew b t }
{}

/// Every lawful history is numbered.
pub fn lawful_is_numbered()
    ensures { (S : Setup) (H : List Event) → Lawful S H → IsNumbered H }
{}

/// A Begin at an inner node that has batches waits for the transaction that `full_at` finds, if its batch is full.
pub fn begin_waits_for_full()
    ensures { (S : Setup) (H : List Event) (s : Spot) (n : ℕ) → on_begin S H s n ≡ cond (has_batches S.tree n && not (eqb n (leaf S.tree s)))
        (wait_for (full_at S H n (side_at S.tree n s 0) (row S.tree n).batch)) Go }
{}
