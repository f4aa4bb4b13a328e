ghost use Rattle.std.specs.Prelude.{◌≡◌, ◌+◌, ◌-◌, ◌^◌, ◌<◌, true, [], ◌∷◌, ◌++◌, length, IfNone, IfSome, IfOk};
ghost use Rattle.desk.specs.Asking.{Suits};
ghost use Rattle.desk.specs.Histories.{newest};
ghost use Rattle.desk.specs.Saying.{told_of, lines_of};
ghost use Rattle.desk.specs.Talks.{turns_in, shows_in, Hears, Asks, IsTalk, WasShown};
ghost use Rattle.service.specs.Services.{shows, tells};

use crate::asking::{Ask, Due, asked};
use crate::saying::{FindingLines, Shown, Told, refusal_line};
use crate::talk::Turn;
use crate::terminal::Terminal;
use bookkeeping::refusal::Refusal;
use bookkeeping::standing::{Answer, Standing};
use certificate::finding::Finding;
use http_server::Log;
use interface::tariff::Tariff;
use reading::rules::Rule;
use service::operator::Operator;

/// An operator at a terminal: lines ask for the next step of a book, and lines answer.
#[derive(Drop)]
pub struct Desk<L: Terminal> {
    terminal: L,
    // all turns so far, for proofs alone
    talk: Log<Turn, ()>,
    // the terminal heard and said these turns and nothing else since the desk was opened
    ghost is_talk: { ∥ IsTalk (L.heard terminal) (L.said terminal) talk.items ∥₁ },
}

impl<L: Terminal> Desk<L> {
    /// A desk at a terminal.
    pub fn new(terminal: L) -> Desk<L>
        ensures { result.talk.items ≡ [] }
    {
        Desk {
            terminal,
            talk: Log::new(),
        }
    }

    // What the next line asks, if that is what is due; else the line is refused. None where nothing
    // more is heard.
    fn listen(&mut self, due: Due) -> Option<Result<Ask, Rule>>
        ensures turns { Hears result (newest turns_in self.old.talk.items)
            (newest turns_in self.new.talk.items) }
        ensures suits { IfSome result (λ asked. IfOk asked (Suits due)) }
        ensures counted { IfSome result (λ _. length (L.heard self.new.terminal)
            ≡ length (L.heard self.old.terminal) + 1) }
        ensures few { length (L.heard self.new.terminal) < 2 ^ 64 }
        ensures ended { IfNone result (L.ended self.new.terminal ≡ true) }
        ensures shown { newest shows_in self.new.talk.items ≡ newest shows_in self.old.talk.items }
    {
        let heard = self.terminal.hear()?;
        let line = self.terminal.lines();
        let asked = asked(due, heard.as_slice());
        let turn = Turn::Heard(due, heard);
        self.talk = self.talk.and(&turn, &());
        if let Err(rule) = asked {
            self.terminal.say(&refusal_line(rule.number(), line));
        }
        Some(asked)
    }

    // What is due, as soon as a line asks it; each line before that is refused. None where nothing
    // more is heard.
    fn ask(&mut self, due: Due) -> Option<Ask>
        ensures turns { Asks result (newest turns_in self.old.talk.items)
            (newest turns_in self.new.talk.items) }
        ensures suits { IfSome result (Suits due) }
        ensures fewer { IfSome result (λ _. length (L.heard self.old.terminal)
            < length (L.heard self.new.terminal)) }
        ensures fits { IfSome result (λ _. length (L.heard self.new.terminal) < 2 ^ 64) }
        ensures ended { IfNone result (L.ended self.new.terminal ≡ true) }
        ensures shown { newest shows_in self.new.talk.items ≡ newest shows_in self.old.talk.items }
    {
        loop {
            if let Ok(ask) = self.listen(due)? {
                return Some(ask);
            }
        }
    }

    // Says what the operator is told.
    fn say(&mut self, told: Told)
        ensures turns { newest turns_in self.new.talk.items
            ≡ tells (told_of told) ∷ newest turns_in self.old.talk.items }
        ensures heard { L.heard self.new.terminal ≡ L.heard self.old.terminal }
        ensures shown { newest shows_in self.new.talk.items ≡ newest shows_in self.old.talk.items }
    {
        let turn = Turn::Told(told);
        self.talk = self.talk.and(&turn, &());
        self.terminal.say(&told.line());
    }

    // Says the lines of a finding.
    fn show(&mut self, lines: FindingLines)
        ensures turns { newest turns_in self.new.talk.items ≡
            shows ∷ newest turns_in self.old.talk.items }
        ensures shown { newest shows_in self.new.talk.items
            ≡ lines_of lines ++ newest shows_in self.old.talk.items }
        ensures heard { L.heard self.new.terminal ≡ L.heard self.old.terminal }
    {
        self.terminal.say(&lines.low);
        self.terminal.say(&lines.high);
        self.terminal.say(&lines.top);
        self.terminal.say(&lines.bottom);
        let turn = Turn::Shown(lines);
        self.talk = self.talk.and(&turn, &());
    }
}

impl<L: Terminal> Operator for Desk<L> {
    ghost turns = { λ desk. newest turns_in desk.talk.items };

    ghost was_shown = { λ desk. WasShown (newest shows_in desk.talk.items) };

    ghost left = { λ desk. 2 ^ 64 - length (L.heard desk.terminal) };

    ghost is_done = { λ desk. L.ended desk.terminal ≡ true };

    fn found<T: Tariff>(&mut self, tariff: &T, finding: &Finding<T::Amount>) {
        self.show(FindingLines::of(tariff, finding));
    }

    fn state(&mut self) -> Option<usize> {
        match self.ask(Due::State)? {
            Ask::State(state) => Some(state as usize),
            _ => None,
        }
    }

    fn order(&mut self) -> bool {
        self.ask(Due::Order).is_some()
    }

    fn carry_out(&mut self) -> bool {
        self.ask(Due::CarryOut).is_some()
    }

    fn outcome(&mut self) -> Option<usize> {
        match self.ask(Due::Outcome)? {
            Ask::Outcome(outcome) => Some(outcome as usize),
            _ => None,
        }
    }

    fn not_made(&mut self, why: Refusal) {
        self.say(Told::NotMade(why));
    }

    fn tell(&mut self, answer: Answer, book: &Standing) {
        self.say(Told::Answered(answer, Shown::of(book)));
    }
}
