// Bids: the values that a game can be worth.
ghost use Rattle.std.specs.Prelude.{◌≡◌, true};
ghost use Rattle.worth.specs.BidValues.{is_bid};

// A bid, which is always a bid value.
#[derive(Clone, Copy, Debug, PartialEq, Eq, Drop)]
pub struct Bid {
    pub(super) value: u16,
    ghost valued: { is_bid value ≡ true },
}
