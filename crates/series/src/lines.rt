// The totals of a place as text.
ghost use Rattle.std.specs.Prelude.{◌≡◌, IfOk, string_bytes};
ghost use Rattle.series.specs.Lines.{totals_text};

use super::totals::Totals;
use std::alloc::{AllocError, Global};

// A place's line: its number, game points, games won, games lost and rating.
pub fn totals_line(heap: Global, place: u8, totals: Totals) -> Result<String, AllocError>
    ensures { IfOk result (λ line. string_bytes line ≡ totals_text place totals) }
{
    format!(in heap; "{place} {totals}")
}
