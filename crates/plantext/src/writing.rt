// The lines of a plan, written into lent space.
ghost use Rattle.std.specs.Prelude.{◌≡◌, ◌+◌, ◌≤◌, ◌++◌, true, length, is_ok, IfOk, IfErr};
ghost use Rattle.lines.specs.Line.{line_end};
ghost use Rattle.plantext.specs.Answers.{plan_of};
ghost use Rattle.plantext.specs.Lines.{stage_line, value_text, Inside};
ghost use Rattle.plantext.specs.Spaces.{line_room, value_room, level, AnswersLine, HeldLine, WritesHeld, Tight};

pub use crate::line::LINE_ROOM;
use crate::line::LineText;
use crate::refusal::LineRefusal;
use crate::stage::{PLAN, Stage};
use interface::claims::Claims;
use interface::limits::MOST_STATES;
use interface::tariff::Tariff;
use lines::cutting::COMMA;
use lines::reading::{EQUALS_SIGN, LINE_END};
use lines::writing::write_bytes;

// The tables of a plan, which have the same number of entries, 1 to MOST_STATES, and its claims.
// They come to plan_line one by one, as each is a table of the caller's and may have any length; here they are level.
#[derive(Drop)]
struct PlanView<'a, A> {
    values: &'a [A],
    policy: &'a [u16],
    claims: Claims<A>,
    ghost same_length: { level (length values.now) (length policy.now) ≡ true },
}

impl<'a, A: Copy> PlanView<'a, A> {
    fn new(values: &'a [A], policy: &'a [u16], claims: Claims<A>) -> Result<Self, LineRefusal>
        ensures told { is_ok result ≡ level (length values.now) (length policy.now) }
        ensures ok { IfOk result (λ p. (p.values.now ≡ values.now) × (p.policy.now ≡ policy.now) × (p.claims ≡ claims)) }
        ensures err { IfErr result (λ e. e ≡ LineRefusal.WrongLength) }
    {
        if policy.len() == values.len() && (1..=MOST_STATES).contains(&values.len()) {
            Ok(PlanView {
                values,
                policy,
                claims,
            })
        } else {
            Err(LineRefusal::WrongLength)
        }
    }

    // Puts the value of a line behind its key.
    fn push_value<T: Tariff<Amount = A>>(&self, tariff: &T, stage: Stage, line: &mut LineText)
        requires inside { Inside (length self.now.values.now) stage }
        requires room { length line.old.bytes.items + value_room ≤ line_room }
        ensures text { line.new.bytes.items ≡ line.old.bytes.items ++ value_text (plan_of T.Tariff.row (record { values = self.now.values.now; policy = self.now.policy.now }) self.now.claims) stage }
        ensures len { length line.new.bytes.items ≤ length line.old.bytes.items + value_room }
        ensures held { HeldLine (T.scale tariff.now).places (plan_of T.Tariff.row (record { values = self.now.values.now; policy = self.now.policy.now }) self.now.claims) stage }
    {
        match stage {
            Stage::States => line.push_number(self.values.len()),
            Stage::Low => line.push_amount(tariff, self.claims.low),
            Stage::High => line.push_amount(tariff, self.claims.high),
            Stage::Row(state) => {
                line.push_number(state);
                line.push_byte(COMMA);
                line.push_number(self.policy[state]);
                line.push_byte(COMMA);
                line.push_amount(tariff, self.values[state]);
            }
            Stage::End => line.push(PLAN),
        }
    }

    // A line of the plan.
    fn line<T: Tariff<Amount = A>>(&self, tariff: &T, stage: Stage) -> LineText
        requires { Inside (length self.now.values.now) stage }
        ensures text { result.bytes.items ≡ stage_line (plan_of T.Tariff.row (record { values = self.now.values.now; policy = self.now.policy.now }) self.now.claims) stage }
        ensures held { HeldLine (T.scale tariff.now).places (plan_of T.Tariff.row (record { values = self.now.values.now; policy = self.now.policy.now }) self.now.claims) stage }
    {
        let mut line = LineText::new();
        line.push(stage.key());
        line.push_byte(EQUALS_SIGN);
        self.push_value(tariff, stage, &mut line);
        line.push_byte(LINE_END);
        line
    }
}

// Line j of a plan, from 0, with its line end, at the front of the space, and its length; absent past the last line.
// The space behind the line is as it was, and all of it after an absence or a refusal; LINE_ROOM bytes are always enough.
// What is written has places of 64 bits, so that it can be read back.
pub fn plan_line<T: Tariff>(
    tariff: &T,
    values: &[T::Amount],
    policy: &[u16],
    claims: Claims<T::Amount>,
    j: usize,
    space: &mut [u8],
) -> Result<Option<usize>, LineRefusal>
    ensures line { AnswersLine (plan_of T.Tariff.row (record { values = values.now; policy = policy.now }) claims) j space.old space.new result }
    ensures held { WritesHeld (T.scale tariff.now).places (plan_of T.Tariff.row (record { values = values.now; policy = policy.now }) claims) j result }
    ensures tight { Tight space.old result }
{
    let plan = PlanView::new(values, policy, claims)?;
    // No line past the last is an answer here, Ok(None): `map` and `transpose` would put the writing into a closure, which is no plainer.
    let Some(stage) = Stage::at(values.len(), j) else {
        return Ok(None);
    };
    let line = plan.line(tariff, stage);
    let end = write_bytes(line.as_slice(), space, 0).ok_or(LineRefusal::NoSpace)?;
    Ok(Some(end))
}
