ghost use Rattle.std.specs.Prelude.{◌≡◌, ◌+◌, ◌≤◌, ◌++◌, length};
ghost use Rattle.bookkeeping.specs.Standings.{book_of};
ghost use Rattle.plantext.specs.Spaces.{line_room};
ghost use Rattle.service.specs.Services.{shown, rows_of};
ghost use Rattle.desk.specs.Saying.{claim_key, claim_line, refusal_line, stage_key, book_line, shown_room, account_text, held_text, shown_text, told_line, shown_of, told_of, lines_of, finding_lines};

use bookkeeping::refusal::Refusal;
use bookkeeping::stage::Stage;
use bookkeeping::standing::{Answer, Standing};
use certificate::finding::Finding;
use interface::tariff::Tariff;
use lines::cutting::COMMA;
use lines::reading::{EQUALS_SIGN, LINE_END};
use plantext::line::LineText;

/// Which amount of a finding is said.
#[derive(Clone, Copy, PartialEq, Eq, Debug)]
pub enum Claim {
    /// The least gain of any portfolio.
    Low,
    /// The greatest gain of the policy.
    High,
    /// The greatest value.
    Top,
    /// The least value.
    Bottom,
}

impl Claim {
    fn key(self) -> &'static [u8]
        ensures key { result.now ≡ claim_key self }
        ensures short { length result.now ≤ 6 }
    {
        match self {
            Claim::Low => b"low",
            Claim::High => b"high",
            Claim::Top => b"top",
            Claim::Bottom => b"bottom",
        }
    }

    /// The line of an amount, with its line end.
    pub fn line<T: Tariff>(self, tariff: &T, amount: T::Amount) -> LineText
        ensures { result.bytes.items ≡ claim_line self (T.Tariff.row amount) }
    {
        let mut line = LineText::new();
        line.push(self.key());
        line.push_byte(EQUALS_SIGN);
        line.push_amount(tariff, amount);
        line.push_byte(LINE_END);
        line
    }
}

/// What a book shows: where it stands, what it has booked, and the portfolio that it holds.
#[derive(Clone, Copy, PartialEq, Eq, Debug)]
pub struct Shown {
    /// The state in which the book stands.
    pub state: usize,
    /// How many windows are booked.
    pub windows: u32,
    /// Their dark seconds, added up.
    pub seconds: u64,
    /// Their cents, added up.
    pub cents: u64,
    /// The portfolio that is ordered or on air; none while the book is open.
    pub portfolio: Option<u16>,
}

impl Shown {
    /// What this book shows.
    pub fn of(book: &Standing) -> Shown
        ensures { shown_of result ≡ shown (book_of book.now) }
    {
        Shown {
            state: book.state(),
            windows: book.windows(),
            seconds: book.seconds(),
            cents: book.cents(),
            portfolio: book.portfolio(),
        }
    }

    // The numbers of the account, with a comma between each two.
    fn push_account(self, line: &mut LineText)
        requires { length line.old.bytes.items + 73 ≤ line_room }
        ensures text { line.new.bytes.items ≡
            line.old.bytes.items ++ account_text (shown_of self).account }
        ensures len { length line.new.bytes.items ≤ length line.old.bytes.items + 73 }
    {
        line.push_number(self.state);
        line.push_byte(COMMA);
        line.push_number(self.windows);
        line.push_byte(COMMA);
        line.push_number(self.seconds);
        line.push_byte(COMMA);
        line.push_number(self.cents);
    }

    // The portfolio with a comma before it, if there is one.
    fn push_held(self, line: &mut LineText)
        requires { length line.old.bytes.items + 6 ≤ line_room }
        ensures text { line.new.bytes.items ≡
            line.old.bytes.items ++ held_text (shown_of self).held }
        ensures len { length line.new.bytes.items ≤ length line.old.bytes.items + 6 }
    {
        if let Some(portfolio) = self.portfolio {
            line.push_byte(COMMA);
            line.push_number(portfolio);
        }
    }

    // Both.
    fn push(self, line: &mut LineText)
        requires { length line.old.bytes.items + shown_room ≤ line_room }
        ensures text { line.new.bytes.items ≡ line.old.bytes.items ++ shown_text (shown_of self) }
        ensures len { length line.new.bytes.items ≤ length line.old.bytes.items + shown_room }
    {
        self.push_account(line);
        self.push_held(line);
    }
}

// The key under which a book at this stage is said.
fn stage_key(stage: Stage) -> &'static [u8]
    ensures key { result.now ≡ stage_key stage }
    ensures short { length result.now ≤ 6 }
{
    match stage {
        Stage::Open => b"open",
        Stage::Issued => b"issued",
        Stage::OnAir => b"on-air",
    }
}

// The line of a book at a stage.
fn book_line(stage: Stage, shown: Shown) -> LineText
    ensures { result.bytes.items ≡ book_line stage (shown_of shown) }
{
    let mut line = LineText::new();
    line.push(stage_key(stage));
    line.push_byte(EQUALS_SIGN);
    shown.push(&mut line);
    line.push_byte(LINE_END);
    line
}

/// The line of a refusal, with its line end: the number of the reason, and the place.
pub fn refusal_line(number: u32, place: usize) -> LineText
    ensures { result.bytes.items ≡ refusal_line number place }
{
    let mut line = LineText::new();
    line.push(b"refused");
    line.push_byte(EQUALS_SIGN);
    line.push_number(number);
    line.push_byte(COMMA);
    line.push_number(place);
    line.push_byte(LINE_END);
    line
}

/// What an operator is told.
#[derive(Clone, Copy, PartialEq, Eq, Debug)]
pub enum Told {
    /// No book is made.
    NotMade(Refusal),
    /// The answer to a call, and what the book then shows.
    Answered(Answer, Shown),
}

impl Told {
    /// The line in which it is told, with its line end.
    pub fn line(self) -> LineText
        ensures { result.bytes.items ≡ told_line (told_of self) }
    {
        match self {
            Told::NotMade(why) => refusal_line(why.number(), why.place()),
            Told::Answered(Answer::Refused(why), _) => refusal_line(why.number(), why.place()),
            Told::Answered(Answer::Next(stage), shown) => book_line(stage, shown),
        }
    }
}

/// The lines of a finding.
#[derive(Drop)]
pub struct FindingLines {
    /// The line of low.
    pub low: LineText,
    /// The line of high.
    pub high: LineText,
    /// The line of top.
    pub top: LineText,
    /// The line of bottom.
    pub bottom: LineText,
}

impl FindingLines {
    /// The lines of this finding.
    pub fn of<T: Tariff>(tariff: &T, finding: &Finding<T::Amount>) -> FindingLines
        ensures { lines_of result ≡ finding_lines (rows_of T.Tariff.row finding.now) }
    {
        FindingLines {
            low: Claim::Low.line(tariff, finding.low),
            high: Claim::High.line(tariff, finding.high),
            top: Claim::Top.line(tariff, finding.top),
            bottom: Claim::Bottom.line(tariff, finding.bottom),
        }
    }
}
