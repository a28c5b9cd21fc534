//! Words are drawn.

ghost use Rattle.std.specs.Prelude.{ℕ, IfSome, IfNone};
ghost use Rattle.kl_exclude.specs.Told.{MakerTold};
ghost use Rattle.kl_keys.specs.Told.{KeysTold};
ghost use Rattle.kl_session.specs.Outside.{outside};
ghost use Rattle.kl_session.specs.Drawing.{Draws, DrawsNone};

use kl_io::Words;

/// Draws so many bytes at once. None where the words met a fault, or have fewer left.
pub fn draw<N: Words, const COUNT: usize>(words: &mut N) -> Option<[u8; COUNT]>
    ensures some { IfSome result (λ drawn. (keys : KeysTold) (maker : MakerTold) (steps : ℕ) → Draws COUNT (outside keys (N.told words.old) maker steps)
        (outside keys (N.told words.new) maker steps) drawn) }
    ensures none { IfNone result ((keys : KeysTold) (maker : MakerTold) (steps : ℕ) → DrawsNone COUNT (outside keys (N.told words.old) maker steps)
        (outside keys (N.told words.new) maker steps)) }
{
    let mut drawn = [0; COUNT];
    match words.fill(&mut drawn) {
        Ok(()) => Some(drawn),
        Err(_) => None,
    }
}
