// The report on the file of a list.
ghost use Rattle.std.specs.Prelude.{◌≡◌, IfOk, string_bytes};
ghost use Rattle.std.specs.List.{range_with_len, flat_map};
ghost use Rattle.series.specs.Rows.{places_number};
ghost use Rattle.ranking.specs.Reports.{place_text, IsStanding, IsReport};

use super::places::{first_place, rank_of};
use series::lists::{ClosedList, OpenList};
use series::rows::Places;
use std::alloc::{AllocError, Global};

// The lines of all places: of each its number, game points, games won, games lost, rating and
// rank.
fn lines(heap: Global, list: &ClosedList) -> Result<String, AllocError>
    ensures { IfOk result (λ text. string_bytes text ≡ flat_map (place_text (places_number list.now.sheet.places) list.now.sheet.rows.items) (range_with_len 0 (places_number list.now.sheet.places))) }
{
    let mut text = String::new(heap);
    // A range over the places; nothing is indexed.
    for place in 0..u8::from(list.places()) {
        let totals = list.totals(place).unwrap();
        let rank = rank_of(list, place).unwrap();
        writeln!(text, "{place} {totals} {rank}")?;
    }
    Ok(text)
}

// The standing of a list: the lines of all places, and the place that is first.
fn standing(heap: Global, list: &ClosedList) -> Result<String, AllocError>
    ensures { IfOk result (λ text. IsStanding (places_number list.now.sheet.places) list.now.sheet.rows.items (string_bytes text)) }
{
    let mut text = lines(heap, list)?;
    let first = first_place(list);
    writeln!(text, "{first}")?;
    Ok(text)
}

// The report on a file: the standing of the list whose file it is, or the number of the
// refusal alone.
pub fn report(heap: Global, file: &[u8]) -> Result<String, AllocError>
    ensures { IfOk result (λ text. IsReport file.now (string_bytes text)) }
{
    let mut list = OpenList::empty(heap, Places::Three)?.close();
    match list.read(file) {
        Ok(()) => standing(heap, &list),
        Err(refusal) => format!(in heap; "{refusal}\n"),
    }
}
