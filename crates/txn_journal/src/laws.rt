//! Laws of what journals contain, as clauses of functions that do nothing.
ghost use Rattle.std.specs.Prelude.{◌≡◌, ℕ, List};
ghost use Rattle.txn_journal.specs.Contents.{Content};
ghost use Rattle.txn_journal.specs.Frames.{StandsFor, IsDamaged};

/// A file has one content, or is damaged at one place after one content.
pub fn files_are_read_in_one_way()
    ensures one { (file : List ℕ) (a b : Content) → StandsFor file a → StandsFor file b → a ≡ b }
    ensures apart { (file : List ℕ) (a b : Content) (at : ℕ) → StandsFor file a → IsDamaged file b at → ⊥ }
    ensures one_damage { (file : List ℕ) (a b : Content) (p q : ℕ) → IsDamaged file a p → IsDamaged file b q
        → (a ≡ b) × (p ≡ q) }
{}
