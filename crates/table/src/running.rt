// Whole runs: any list of requests on a table newly set.
ghost use Rattle.std.specs.Prelude.{◌≡◌, Some, None, Option};
ghost use Rattle.std.specs.Fn.{FnReturnsAt};
ghost use Rattle.worth.specs.Rated.{Worth};
ghost use Rattle.runs.specs.Law.{ResultLaw};
ghost use Rattle.runs.specs.Runs.{after, answer as answer_to, result_answer};
ghost use Rattle.table.specs.Lines.{requests_in};
ghost use Rattle.table.specs.Running.{CountsBy, Plays};

use super::asked::Asked;
use super::tables::Table;
use cards::packs::CutPack;
use kinds::kind::Kind;
use runs::requests::{Answer, Request};
use views::sight;
use worth::rated::RatedKind;

impl Table {
    // Answers any request, and the one for the result by what is given for it.
    fn reply<K: Kind, F: Fn(&Table) -> Option<Answer>>(
        &mut self,
        kind: &K,
        request: Request,
        counted: &F,
    ) -> Option<Answer>
        requires { F.IsAlwaysCallable counted.now }
        ensures answer { (worth : Option Worth) → CountsBy worth (FnReturnsAt F.Fn counted.now) → result ≡ answer_to (K.Kind.meaning kind.now) worth self.old.deal request }
        ensures deal { self.new.deal ≡ after (K.Kind.meaning kind.now) self.old.deal request }
    {
        match request {
            Request::Act(seat, call) => Some(Answer::Acted(self.act(kind, seat, call))),
            Request::Sight(seat, room) => {
                Some(Answer::Saw(sight::sight_bytes(&self.deal, seat, room)))
            }
            Request::Permitted(seat) => Some(Answer::May(self.permitted(kind, seat))),
            Request::Result => counted(self),
        }
    }

    // Plays a whole run and writes the answer beside each request.
    fn play_run<K: Kind, F: Fn(&Table) -> Option<Answer>>(
        pack: CutPack,
        kind: &K,
        asked: &mut [Asked],
        counted: F,
    ) -> Table
        requires { F.IsAlwaysCallable counted }
        ensures { (worth : Option Worth) → CountsBy worth (FnReturnsAt F.Fn counted) → Plays (K.Kind.meaning kind.now) worth pack.cards asked.old asked.new result.deal }
    {
        let mut table = Table::set(pack);
        for line in asked.iter_mut() {
            line.answer = table.reply(kind, line.request, &counted);
        }
        table
    }

    // Plays a whole run under a kind and writes the answer beside each request. The result, which
    // an unrated kind does not know, stays unanswered.
    pub fn run<K: Kind>(pack: CutPack, kind: &K, asked: &mut [Asked]) -> Table
        ensures { Plays (K.Kind.meaning kind.now) None pack.cards asked.old asked.new result.deal }
    {
        Table::play_run(pack, kind, asked, |_| None)
    }

    // Plays a whole run under a rated kind and writes the answer beside each request.
    pub fn rated_run<K: RatedKind>(pack: CutPack, kind: &K, asked: &mut [Asked]) -> Table
        ensures run { Plays (K.Kind.meaning kind.now) (Some (K.RatedKind.rated kind.now)) pack.cards asked.old asked.new result.deal }
        ensures worth { ResultLaw (K.Kind.meaning kind.now) (K.RatedKind.rated kind.now) pack.cards (requests_in asked.old) }
    {
        let counted = |table: &Table|
            ensures { result ≡ result_answer (Some (K.RatedKind.rated kind.entry.now)) table.now.deal }
        { Some(Answer::Counted(table.result(kind))) };
        Table::play_run(pack, kind, asked, counted)
    }
}
