// The three calls that only look: sight, permitted cards, and the result.
ghost use Rattle.std.specs.Prelude.{◌≡◌, length};
ghost use Rattle.cards.specs.Refusals.{answered};
ghost use Rattle.cards.specs.Seats.{seat_at};
ghost use Rattle.rules.specs.Permitted.{permitted_by};
ghost use Rattle.rules.specs.Results.{result_of};
ghost use Rattle.rules.specs.Sight.{sight_refusal, seen_by, buffer_after};
ghost use Rattle.runs.specs.declared.requests.Request.TheVariants.{Sight, Permitted, Result as AskedResult};
ghost use Rattle.runs.specs.Law.{Continues, Counts};

use super::tables::Table;
use cards::refusals::Refusal;
use cards::units::GamePoints;
use kinds::kind::Kind;
use views::{permitted, results, sight};
use worth::rated::RatedKind;

impl Table {
    // Writes what a seat sees into the first 42 bytes of a buffer.
    pub fn sight<K: Kind>(&self, kind: &K, seat: u8, buffer: &mut [u8]) -> Result<(), Refusal>
        ensures answer { result ≡ answered (sight_refusal (seat_at seat) (length buffer.old)) tt }
        ensures buffer { buffer.new ≡ buffer_after self.now.deal (seat_at seat) buffer.old }
        ensures law { Continues (K.Kind.meaning kind.now) self.now.deal self.now.deal (Sight seat (length buffer.old)) }
    {
        sight::sight(&self.deal, seat, buffer)
    }

    // The cards that a seat may play now, as bits by the cards' numbers.
    pub fn permitted<K: Kind>(&self, kind: &K, seat: u8) -> u32
        ensures answer { result ≡ permitted_by (K.Kind.meaning kind.now) self.now.deal (seat_at seat) }
        ensures law { Continues (K.Kind.meaning kind.now) self.now.deal self.now.deal (Permitted seat) }
    {
        permitted::permitted(&self.deal, kind, seat)
    }

    // The declarer's seat and the game points of a settled deal, or 255 and none if it was passed in.
    pub fn result<K: RatedKind>(&self, kind: &K) -> Result<(u8, GamePoints), Refusal>
        ensures answer { result ≡ result_of (K.RatedKind.rated kind.now) self.now.deal }
        ensures law { Continues (K.Kind.meaning kind.now) self.now.deal self.now.deal AskedResult }
        ensures worth { Counts (K.Kind.meaning kind.now) (K.RatedKind.rated kind.now) self.now.deal result }
    {
        results::result(&self.deal, kind)
    }
}
