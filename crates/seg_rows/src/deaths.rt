//! The position of the last delete, if all versions are deleted.
ghost use Rattle.std.specs.Prelude.{◌≡◌, ℕ, replicate};
ghost use Rattle.seg_rows.specs.Lives.{all_died, life_from};
ghost use Rattle.seg_rows.specs.Versions.{is_dead_at, later_death};

use crate::lives::Life;

/// Whether a version that was deleted at position `died`, or not at all, is deleted at `pos`.
pub fn has_died(died: Option<u64>, pos: u64) -> bool
    ensures dead { result ≡ is_dead_at pos died }
{
    match died {
        None => false,
        Some(died) => died <= pos,
    }
}

/// The later of two positions of last deletes. There is none if a version on either side isn't deleted.
pub fn both_died(a: Option<u64>, b: Option<u64>) -> Option<u64>
    ensures later { result ≡ later_death a b }
{
    match (a, b) {
        (None, _) => None,
        (Some(_), None) => None,
        (Some(p), Some(q)) => Some(p.max(q)),
    }
}

/// The position of the last delete, if all of these versions are deleted.
#[tactic(auto, using(crate::proofs::DeathLaws::death_push, std::proofs::lemmas::Grind::common_steps))]
pub fn last_death(lives: &[Life]) -> Option<u64>
    ensures last { result ≡ all_died lives.now }
{
    let mut dead = Some(0);
    for life in lives {
        dead = both_died(dead, life.died);
    }
    dead
}

/// The same for `count` versions that were inserted at one position and not deleted.
pub fn newborn_death(count: usize) -> Option<u64>
    ensures last { (p : ℕ) → result ≡ all_died (replicate count (life_from p)) }
{
    if count == 0 { Some(0) } else { None }
}
