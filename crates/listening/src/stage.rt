// Where a log stands, and what a line makes of that and says.
ghost use Rattle.std.specs.Prelude.{◌≡◌};
ghost use Rattle.listening.specs.Log.{more, refused, goes_on, accepted, last, begun, judged_by, item_heard, told, heard};

use crate::lines::Line;
use exec::{Limits, Refusal};
use judge::{Item, Judge};

// Where a log stands: before its first line; in a list, with its judge and how many items it has heard; or in a list of which an item
// was refused, whose rest is skipped.
#[derive(Clone, Copy)]
pub enum Stage {
    Before,
    Hearing(Judge, u64),
    Skipped,
}

// What is said of a list: how many items were heard, or why one was refused, and which.
#[derive(Clone, Copy)]
pub enum Verdict {
    Accepted(u64),
    Refused(Refusal, u64),
}

// What a line leaves, and what is said: of the list that it ends, and of the list in which it stands.
#[derive(Clone, Copy)]
pub struct Heard {
    pub stage: Stage,
    pub ended: Option<Verdict>,
    pub said: Option<Verdict>,
}

// One item more. (No run comes to the most that it counts.)
fn more(n: u64) -> u64
    ensures { result ≡ more n }
{
    n.saturating_add(1)
}

fn refused(ended: Option<Verdict>, refusal: Refusal, n: u64) -> Heard
    ensures { result ≡ refused ended refusal n }
{
    Heard {
        stage: Stage::Skipped,
        ended,
        said: Some(Verdict::Refused(refusal, n)),
    }
}

fn goes_on(stage: Stage, ended: Option<Verdict>) -> Heard
    ensures { result ≡ goes_on stage ended }
{
    Heard {
        stage,
        ended,
        said: None,
    }
}

// ---- limits, which are item 0

#[tactic(auto, unfolding(crate::specs::Log::begun))]
fn begun(ended: Option<Verdict>, limits: Option<Limits>) -> Heard
    ensures { result ≡ begun ended limits }
{
    let Some(limits) = limits else {
        return refused(ended, Refusal::BadLine, 0);
    };
    if limits.is_valid() {
        return goes_on(Stage::Hearing(Judge::new(limits), 0), ended);
    }
    refused(ended, Refusal::NoLimits, 0)
}

// ---- an item

fn judged_by(answer: Result<(), Refusal>, judge: Judge, n: u64) -> Heard
    ensures { result ≡ judged_by answer judge n }
{
    match answer {
        Ok(()) => goes_on(Stage::Hearing(judge, n), None),
        Err(refusal) => refused(None, refusal, n),
    }
}

fn item_heard(item: Option<Item>, judge: Judge, n: u64) -> Heard
    ensures { result ≡ item_heard item judge n }
{
    let Some(item) = item else {
        return refused(None, Refusal::BadLine, more(n));
    };
    let mut judge = judge;
    let answer = judge.hear(item);
    judged_by(answer, judge, more(n))
}

fn told(stage: Stage, item: Option<Item>) -> Heard
    ensures { result ≡ told stage item }
{
    match stage {
        Stage::Before => refused(None, Refusal::BadLine, 0),
        Stage::Hearing(judge, n) => item_heard(item, judge, n),
        Stage::Skipped => goes_on(Stage::Skipped, None),
    }
}

// ---- a line, and the end

impl Stage {
    // What is said where a list ends.
    fn accepted(self) -> Option<Verdict>
        ensures { result ≡ accepted self }
    {
        match self {
            Stage::Before => None,
            Stage::Hearing(_, n) => Some(Verdict::Accepted(n)),
            Stage::Skipped => None,
        }
    }

    // What is said where the input ends; one with no line is refused.
    pub fn last(self) -> Option<Verdict>
        ensures { result ≡ last self }
    {
        match self {
            Stage::Before => Some(Verdict::Refused(Refusal::BadLine, 0)),
            Stage::Hearing(_, n) => Some(Verdict::Accepted(n)),
            Stage::Skipped => None,
        }
    }

    pub fn heard(self, line: Line) -> Heard
        ensures { result ≡ heard self line }
    {
        match line {
            Line::Begins(limits) => begun(self.accepted(), limits),
            Line::Says(item) => told(self, item),
        }
    }
}
