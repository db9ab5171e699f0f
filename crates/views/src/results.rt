// What a settled deal counts.
ghost use Rattle.std.specs.Prelude.{◌≡◌, ℕ, Bool};
ghost use Rattle.rules.specs.declared.deals.Pile.{Pile};
ghost use Rattle.rules.specs.Piles.{is_declarers, is_defenders, eyes_where, pile_in};
ghost use Rattle.rules.specs.Results.{result_of};
ghost use Rattle.views.specs.Results.{finished_in, or_nothing, points_in};

use super::hands::NONE;
use cards::deck::Card;
use cards::refusals::Refusal;
use cards::seats::Seat;
use cards::units::{Eyes, GamePoints};
use rules::deals::{Announcement, Contract, Deal, Pile};
use worth::bids::Bid;
use worth::finished::{Finished, Side, Tricks};
use worth::rated::RatedKind;
use worth::tops;

// Whether a card here counts for the declarer: in its tricks, in the skat or put away. One
// pattern with two cases is plainer than two equalities.
fn is_declarers(pile: Pile) -> bool
    ensures { result ≡ is_declarers pile }
{
    matches!(pile, Pile::InSkat | Pile::WithDeclarer)
}

// Whether a card here counts for the defenders.
fn is_defenders(pile: Pile) -> bool
    ensures { result ≡ is_defenders pile }
{
    pile == Pile::WithDefenders
}

// The eyes of the cards that lie where they count.
fn eyes_where<F: Fn(Pile) -> bool>(piles: &[Pile; 32], counts: F) -> Eyes
    requires { F.IsAlwaysCallable counts }
    ensures { (test : Pile → Bool) → ((pile : Pile) (yes : Bool) → F.post counts pile yes → yes ≡ test pile) → result.0 ≡ eyes_where test (pile_in piles.now) }
{
    let deck = Card::deck();
    let mut eyes = 0;
    for (pile, card) in piles.iter().zip(&deck) {
        if counts(*pile) {
            eyes += card.eyes().0;
        }
    }
    Eyes(eyes)
}

// A game as it ended.
fn finished(deal: &Deal, announcement: Announcement, bid: Bid) -> Finished
    ensures { result ≡ finished_in deal.now announcement bid }
{
    let taken = deal.common.board.taken;
    Finished {
        hand: announcement.hand,
        level: announcement.level,
        bid,
        declarer: Side {
            eyes: eyes_where(&deal.piles, is_declarers),
            tricks: Tricks(taken.declarer),
        },
        defenders: Side {
            eyes: eyes_where(&deal.piles, is_defenders),
            tricks: Tricks(taken.defenders),
        },
    }
}

// Declarer and game points where a game was announced.
fn counted<K: RatedKind>(deal: &Deal, kind: &K) -> Option<(Seat, GamePoints)>
    ensures { or_nothing result ≡ points_in (K.RatedKind.rated kind.now) deal.now }
{
    let Contract::Announced(announcement) = deal.common.contract else {
        return None;
    };
    let bid = Bid::try_from(deal.common.bid).ok()?;
    let twelve = deal.twelve?;
    let game = finished(deal, announcement, bid);
    Some((announcement.declarer, tops::result(kind, &twelve, &game)))
}

// The declarer's seat and the game points of a settled deal, or 255 and none if it was passed in:
// the pair that the rules ask for, where inside an `Option` tells it.
pub fn result<K: RatedKind>(deal: &Deal, kind: &K) -> Result<(u8, GamePoints), Refusal>
    ensures { result ≡ result_of (K.RatedKind.rated kind.now) deal.now }
{
    if !deal.common.moment.is_settled() {
        return Err(Refusal::NotSettledYet);
    }
    Ok(match counted(deal, kind) {
        Some((declarer, points)) => (declarer.into(), points),
        None => (NONE, GamePoints(0)),
    })
}
