// Which numbers are bids.
ghost use Rattle.std.specs.Prelude.{◌≡◌, ◌<◌, false, MatchResult};
ghost use Rattle.cards.specs.declared.refusals.Refusal.TheVariants.{NoBidValue};
ghost use Rattle.worth.specs.BidValues.{is_bid, is_multiple as is_multiple_of};

use super::bids::Bid;
use cards::refusals::Refusal;

// Whether a number is a base taken from twice to so many times.
fn is_multiple(value: u16, base: u16, most: u16) -> bool
    requires { 0 < base }
    ensures { result ≡ is_multiple_of base most value }
{
    value % base == 0 && value / base >= 2 && value / base <= most
}

// Whether a number is a bid value. One pattern names the four values of null.
pub fn is_bid_value(value: u16) -> bool
    ensures { result ≡ is_bid value }
{
    matches!(value, 23 | 35 | 46 | 59)
        || is_multiple(value, 9, 18)
        || is_multiple(value, 10, 18)
        || is_multiple(value, 11, 18)
        || is_multiple(value, 12, 18)
        || is_multiple(value, 24, 11)
}

impl TryFrom<u16> for Bid {
    type Error = Refusal;

    ghost try_from_gives = { λ value result. MatchResult result (λ bid. bid.value ≡ value) (λ refusal. (refusal ≡ NoBidValue) × (is_bid value ≡ false)) };

    // The bid of this value, if it is a bid value.
    fn try_from(value: u16) -> Result<Bid, Refusal> {
        if is_bid_value(value) {
            Ok(Bid { value })
        } else {
            Err(Refusal::NoBidValue)
        }
    }
}

impl From<Bid> for u16 {
    ghost from_gives = { λ bid value. value ≡ bid.value };

    fn from(bid: Bid) -> u16 {
        bid.value
    }
}
