// The turn of a session, what an accepted record does to it, and the call that reads one: SPEC, "Records".
#![tactic(auto)]

ghost use Rattle.std.specs.Prelude.{◌≡◌, []};
ghost use Rattle.record.specs.declared.Reading.TheVariants as reading;
ghost use Rattle.session_model.specs.Session.{joined, remembered};
ghost use Rattle.walk_list.specs.Walk.{spot_of};
ghost use Rattle.session_stages.specs.World.{world, turn_at, part_reading, operator_reading};
ghost use Rattle.session_stages.specs.Session.{turn_of, outcome, outcome_of};

mod reading;

use operator::Operator;
pub use reading::read;
use record::{Record, Refusal, Turn};
use region::Job;
use session_stages::{Answer, Course, Outcome, Parts, Session, Stage, place};

// Which record comes next.
pub fn turn(s: Session) -> Turn
    ensures { result ≡ turn_of s }
{
    match s.stage {
        Stage::Early(p) => turn_at(p),
        Stage::Walking(_) => Turn::Operators,
    }
}

fn turn_at(p: Parts) -> Turn
    ensures { result ≡ turn_at p }
{
    match p {
        Parts::Nothing => Turn::Scale,
        Parts::Scaled(_) => Turn::Selection,
        Parts::Selected(_, _) => Turn::First,
        Parts::First(_, _, _) => Turn::Second,
    }
}

// An accepted record joins the session. Out of its turn none is accepted, so the refusals here are never met.
pub fn accepted(s: Session, x: Record, n: usize) -> Outcome
    ensures { outcome [] result.session result.answer ≡ outcome_of s (reading.Accepted x n) }
{
    match s.stage {
        Stage::Early(p) => part(p, x, n),
        Stage::Walking(c) => noted(c, x, n),
    }
}

fn taken(stage: Stage, n: usize) -> Outcome
    ensures { (result.session.stage ≡ stage) × (result.answer ≡ Answer.Taken n) }
{
    Outcome {
        session: Session { stage },
        answer: Answer::Taken(n),
    }
}

fn out_of_turn(stage: Stage) -> Outcome
    ensures { (result.session.stage ≡ stage) × (result.answer ≡ Answer.Refused Refusal.OutOfTurn) }
{
    Outcome {
        session: Session { stage },
        answer: Answer::Refused(Refusal::OutOfTurn),
    }
}

// A record that comes before the job is whole. Where no selection was read only the new points are listed.
fn part(p: Parts, x: Record, n: usize) -> Outcome
    ensures { outcome [] result.session result.answer ≡ joined world p (part_reading p (reading.Accepted x n)) }
{
    match (p, x) {
        (Parts::Nothing, Record::Scale(k)) => taken(Stage::Early(Parts::Scaled(k)), n),
        (Parts::Scaled(k), Record::Selection(all)) => {
            taken(Stage::Early(Parts::Selected(k, all)), n)
        }
        (Parts::Scaled(k), Record::Region(a)) => {
            taken(Stage::Early(Parts::First(k, false, a)), n)
        }
        (Parts::Selected(k, all), Record::Region(a)) => {
            taken(Stage::Early(Parts::First(k, all, a)), n)
        }
        (Parts::First(k, all, a), Record::Region(b)) => taken(
            Stage::Walking(Course {
                job: Job { k, all, a, b },
                spot: place::before_all(),
                operator: Operator::identity(),
            }),
            n,
        ),
        _ => out_of_turn(Stage::Early(p)),
    }
}

// A record that comes after.
fn noted(c: Course, x: Record, n: usize) -> Outcome
    ensures { outcome [] result.session result.answer ≡ remembered world c.job (spot_of c.spot) c.operator (operator_reading (reading.Accepted x n)) }
{
    match x {
        Record::Operator(operator) => taken(Stage::Walking(Course { operator, ..c }), n),
        _ => out_of_turn(Stage::Walking(c)),
    }
}
