// The table.
ghost use Rattle.runs.specs.Reach.{Reached};

use rules::deals::Deal;

// A deal at a table. It is made from a cut pack alone and moved by the calls alone, so some run of
// calls from some cut pack has reached it.
#[derive(Drop)]
pub struct Table {
    pub(super) deal: Deal,
    ghost reached: { Reached deal },
}
