// Where a session stands, and what one line makes of it: the first opens a runner, a later one makes a call of it.
#![tactic(auto)]

ghost use Rattle.std.specs.Prelude.{◌≡◌, ◌≤◌, length};
ghost use Rattle.syntax.specs.Lines.{line_call};
ghost use Rattle.opening.specs.Open.{line_open};
ghost use Rattle.grammar.specs.Feed.{first};
ghost use Rattle.syntax.specs.Meaning.{call_is};
ghost use Rattle.standing.specs.Standing.{Kept, Answers, AnswersFirst, AnswersAny, stores_in, bad_at, noted, opened_as, first_of, later_at, answered_at, too_long_at, answer_at};

use answering::Answer;
use areas::Areas;
use exec::Refusal;
use making::make;
use opening::{Opening, open_of};
use reading::lines::call_of;
use runner::answer::After;
use runner::runner::Runner;
use syntax::Call;

pub mod areas;

// Where a session stands: before its first line; with a runner; or without one, where every line is 30.
#[derive(Clone, Copy)]
pub enum Stage {
    First,
    Running,
    Over,
}

#[derive(Clone, Copy)]
pub struct Standing {
    pub stage: Stage,
    pub runner: Runner,
}

// The runner that a first line opens, and whether it does.
fn noted(opening: Opening, areas: &Areas) -> After<()>
    ensures { result ≡ noted opening (stores_in areas.now) }
{
    let key = opening.key;
    let limits = opening.limits;
    let timers = opening.timers;
    let smallest = opening.smallest;
    Runner::open(
        key,
        limits,
        timers,
        smallest,
        opening.now,
        areas.store,
        areas.lengths,
    )
}

impl Standing {
    // Nothing changes but the stage.
    fn bad(&mut self, stage: Stage) -> Answer
        ensures { AnswersAny (bad_at stage) self.old self.new result }
    {
        self.stage = stage;
        Answer::Refused(Refusal::BadLine.number())
    }

    // ---- the first line

    // The stores are cleared for a runner that opened.
    #[tactic(auto, unfolding(crate::specs::Standing::placed), using(syntax::specs::Zeros::zeros_are))]
    fn opened_by(&mut self, runner: Runner, reply: Result<(), Refusal>, areas: &mut Areas) -> Answer
        ensures answer { AnswersFirst (opened_as reply runner) self.old areas.old self.new result areas.new }
        ensures kept { Kept areas.old areas.new }
    {
        match reply {
            Ok(()) => {
                areas.store.fill(0);
                areas.lengths.fill(0);
                self.stage = Stage::Running;
                self.runner = runner;
                Answer::Ok
            }
            Err(refusal) => {
                self.stage = Stage::Over;
                Answer::Refused(refusal.number())
            }
        }
    }

    fn open(&mut self, opening: Opening, areas: &mut Areas) -> Answer
        ensures answer { AnswersFirst (first_of opening) self.old areas.old self.new result areas.new }
        ensures kept { Kept areas.old areas.new }
    {
        let noting = noted(opening, areas);
        let runner = noting.runner;
        let reply = noting.answer;
        self.opened_by(runner, reply, areas)
    }

    #[tactic(auto, unfolding(grammar::specs::Feed::first))]
    fn first(&mut self, line: &[u8], areas: &mut Areas) -> Answer
        requires { length line.now ≤ 65535 }
        ensures answer { AnswersFirst (first (line_open line.now)) self.old areas.old self.new result areas.new }
        ensures kept { Kept areas.old areas.new }
    {
        let Some(opening) = open_of(line) else {
            return self.bad(Stage::Over);
        };
        self.open(opening, areas)
    }

    // ---- a later line

    #[tactic(auto, unfolding(grammar::specs::Feed::later, crate::specs::Standing::placed))]
    fn call(&mut self, call: Call, areas: &mut Areas) -> Answer
        ensures answer { Answers (later_at (Some (call_is call areas.old.work.now))) self.old areas.old self.new result areas.new }
        ensures kept { Kept areas.old areas.new }
    {
        self.stage = Stage::Running;
        make(
            &mut self.runner,
            call,
            areas.store,
            areas.lengths,
            areas.work,
        )
    }

    #[tactic(auto, unfolding(grammar::specs::Feed::later))]
    fn later(&mut self, line: &[u8], areas: &mut Areas) -> Answer
        requires { length line.now ≤ 65535 }
        ensures answer { Answers (later_at (line_call line.now)) self.old areas.old self.new result areas.new }
        ensures kept { Kept areas.old areas.new }
    {
        let Some(call) = call_of(line, areas.work) else {
            return self.bad(Stage::Running);
        };
        self.call(call, areas)
    }

    // ---- any line

    #[tactic(auto, unfolding(grammar::specs::Feed::answered))]
    fn answered(&mut self, line: &[u8], areas: &mut Areas) -> Answer
        requires { length line.now ≤ 65535 }
        ensures answer { Answers (answered_at line.now) self.old areas.old self.new result areas.new }
        ensures kept { Kept areas.old areas.new }
    {
        let stage = self.stage;
        match stage {
            Stage::First => self.first(line, areas),
            Stage::Running => self.later(line, areas),
            Stage::Over => self.bad(Stage::Over),
        }
    }

    // A line of more than 65,535 bytes is refused whole; it is the first line where it stands first.
    #[tactic(auto, unfolding(grammar::specs::Feed::too_long))]
    fn too_long(&mut self) -> Answer
        ensures { AnswersAny too_long_at self.old self.new result }
    {
        let stage = self.stage;
        match stage {
            Stage::First => self.bad(Stage::Over),
            Stage::Running => self.bad(Stage::Running),
            Stage::Over => self.bad(Stage::Over),
        }
    }

    #[tactic(auto, unfolding(grammar::specs::Feed::answer_of))]
    pub fn answer(&mut self, line: &[u8], areas: &mut Areas) -> Answer
        ensures answer { Answers (answer_at line.now) self.old areas.old self.new result areas.new }
        ensures kept { Kept areas.old areas.new }
    {
        if line.len() <= 65535 {
            return self.answered(line, areas);
        }
        self.too_long()
    }
}
