// Line: Network Calculus, with bursts shifted by the jitter.
ghost use Rattle.definitions.specs.Methods.{line};
ghost use Rattle.theory.proofs.Line.{line_is_lawful};

use crate::measures::Share;
use crate::overload::carried;
use crate::{Method, within_limit};
use definitions::loads::Load;

// The method whose worth is the sum over the loads of c + ceil(c × J / T).
#[derive(Clone, Copy)]
pub struct Line;

impl Method for Line {
    ghost worth = { λ _. line };

    ghost lawful = { λ m. line_is_lawful };

    fn answer(&self, rows: &[Load]) -> Option<u64> {
        if !carried(rows) {
            return None;
        }
        within_limit(folds::sum(&Share, rows)?)
    }
}
