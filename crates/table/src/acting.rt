// Setting a table, and the seven acting calls. Each takes the kind of game that is played, since
// the law of runs is about one kind; before the announcement no call reads it. Seats, cards, games and
// levels are numbers here, since any number can be named and is refused in its turn.
ghost use Rattle.std.specs.Prelude.{◌≡◌, []};
ghost use Rattle.kinds.specs.Meanings.{Meaning};
ghost use Rattle.rules.specs.declared.calls.Call.TheVariants.{Bid, Hold, Pass, Take, Put, Announce, Play};
ghost use Rattle.rules.specs.Dealing.{IsCutPack, start};
ghost use Rattle.runs.specs.Law.{Law, Lawful};
ghost use Rattle.table.specs.Acting.{Acts};

use super::tables::Table;
use cards::packs::CutPack;
use cards::refusals::Refusal;
use kinds::kind::Kind;
use rules::calls::Call;
use rules::deals::Deal;

impl Table {
    // A table newly set from a cut pack, which is spent.
    pub fn set(pack: CutPack) -> Table
        ensures deal { result.deal ≡ start pack.cards }
        ensures whole { IsCutPack pack.cards }
        ensures law { (m : Meaning) → Lawful m → Law m pack.cards [] }
    {
        let deal = Deal::set(pack);
        Table { deal }
    }

    // Answers an acting call.
    pub(super) fn act<K: Kind>(&mut self, kind: &K, seat: u8, call: Call) -> Result<(), Refusal>
        ensures { Acts (K.Kind.meaning kind.now) self.old.deal self.new.deal seat call result }
    {
        self.deal.act(kind, seat, call)
    }

    // Bids a value.
    pub fn bid<K: Kind>(&mut self, kind: &K, seat: u8, value: u16) -> Result<(), Refusal>
        ensures { Acts (K.Kind.meaning kind.now) self.old.deal self.new.deal seat (Bid value) result }
    {
        self.act(kind, seat, Call::Bid(value))
    }

    // Holds the highest bid, or, where nothing was bid, bids 18 as forehand.
    pub fn hold<K: Kind>(&mut self, kind: &K, seat: u8) -> Result<(), Refusal>
        ensures { Acts (K.Kind.meaning kind.now) self.old.deal self.new.deal seat Hold result }
    {
        self.act(kind, seat, Call::Hold)
    }

    // Passes.
    pub fn pass<K: Kind>(&mut self, kind: &K, seat: u8) -> Result<(), Refusal>
        ensures { Acts (K.Kind.meaning kind.now) self.old.deal self.new.deal seat Pass result }
    {
        self.act(kind, seat, Call::Pass)
    }

    // Takes up the skat.
    pub fn take<K: Kind>(&mut self, kind: &K, seat: u8) -> Result<(), Refusal>
        ensures { Acts (K.Kind.meaning kind.now) self.old.deal self.new.deal seat Take result }
    {
        self.act(kind, seat, Call::Take)
    }

    // Puts two cards away.
    pub fn put<K: Kind>(&mut self, kind: &K, seat: u8, a: u8, b: u8) -> Result<(), Refusal>
        ensures { Acts (K.Kind.meaning kind.now) self.old.deal self.new.deal seat (Put a b) result }
    {
        self.act(kind, seat, Call::Put(a, b))
    }

    // Announces a game at a level.
    pub fn announce<K: Kind>(
        &mut self,
        kind: &K,
        seat: u8,
        game: u8,
        level: u8,
    ) -> Result<(), Refusal>
        ensures { Acts (K.Kind.meaning kind.now) self.old.deal self.new.deal seat (Announce game level) result }
    {
        self.act(kind, seat, Call::Announce(game, level))
    }

    // Plays a card.
    pub fn play<K: Kind>(&mut self, kind: &K, seat: u8, card: u8) -> Result<(), Refusal>
        ensures { Acts (K.Kind.meaning kind.now) self.old.deal self.new.deal seat (Play card) result }
    {
        self.act(kind, seat, Call::Play(card))
    }
}
