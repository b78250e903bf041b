// How far a walk has come, and single steps of it.
ghost use Rattle.std.specs.Prelude.{◌≡◌};
ghost use Rattle.walk.specs.Walk.{at_top};
ghost use Rattle.walk.specs.Holds.{Steps};

use crate::expressions::Clock;
use numbers::refusal::Refusal;

// The clock, where the next line of the input starts, how many bytes are written, and how many lines were taken.
#[derive(Clone, Copy)]
pub struct Progress {
    pub clock: Clock,
    pub at: usize,
    pub written: usize,
    pub lines: usize,
}

// One step after which the top is `top`.
pub fn tick(progress: &mut Progress, top: usize) -> Result<(), Refusal>
    ensures { Steps progress.old (at_top top) progress.new result }
{
    if progress.clock.left == 0 {
        return Err(Refusal::BudgetSpent);
    }
    progress.clock.left -= 1;
    progress.clock.top = top;
    Ok(())
}
