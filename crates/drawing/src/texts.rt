// The texts of the rows: what each call is, and what it told.
use crate::words::{call_word, outcome_word, refusal_word};
use account::{By, What, cause_words};
use congress::{Outcome, Refusal, Report};
use order::{Call, Said};
use records::{Answer, Class, Operation, has};
use script::Misread;
use std::fmt;

// A line of the script that makes a call, with what this told, or that cannot be read.
#[derive(Clone, Copy, Debug, PartialEq, Eq, Hash)]
pub struct Row {
    pub line: usize,
    pub event: Result<(Call, Result<Said, Refusal>), Misread>,
}

// A class by its word where it has one.
#[derive(Clone, Copy, Debug, PartialEq, Eq, Hash)]
struct ClassWord(u8);

impl fmt::Display for ClassWord {
    fn fmt<W: fmt::Write>(&self, f: &mut fmt::Formatter<W>) -> fmt::Result {
        let number = self.0;
        match Class::try_from(number) {
            Ok(Class::Single) => f.write_str("single"),
            Ok(Class::Independent) => f.write_str("independent"),
            Ok(Class::Coordinated) => f.write_str("coordinated"),
            Err(_) => write!(f, "{number}"),
        }
    }
}

// What a call is.
#[derive(Clone, Copy, Debug, PartialEq, Eq, Hash)]
pub(crate) struct CallText(pub(crate) Call);

impl fmt::Display for CallText {
    fn fmt<W: fmt::Write>(&self, f: &mut fmt::Formatter<W>) -> fmt::Result {
        let word = call_word(&self.0);
        match self.0 {
            Call::Open { halls } => write!(f, "{word} {halls}"),
            Call::Issue {
                console,
                class,
                halls,
                ..
            } => {
                let class = ClassWord(class);
                write!(f, "{word} {console} {class} {halls}")
            }
            Call::Deliver { place } | Call::Drop { place } => write!(f, "{word} {place}"),
            Call::Work { hall } => write!(f, "{word} {hall}"),
            Call::Clock { hall, time } => write!(f, "{word} {hall} {time}"),
        }
    }
}

// The operation of the least of the halls, and whether another of them has another operation.
fn asked_of(halls: u8, operations: [Operation; 8]) -> (Operation, bool) {
    let mut first = None;
    let mut differ = false;
    for (hall, operation) in operations.iter().enumerate() {
        if has(halls, hall as u8) {
            differ = differ || first.is_some_and(|first| first != *operation);
            first = first.or(Some(*operation));
        }
    }
    (first.unwrap_or(Operation::default()), differ)
}

// What a transaction asks of its halls.
#[derive(Clone, Copy, Debug, PartialEq, Eq, Hash)]
struct Asked(Call);

impl fmt::Display for Asked {
    fn fmt<W: fmt::Write>(&self, f: &mut fmt::Formatter<W>) -> fmt::Result {
        let Call::Issue {
            halls,
            operations,
            ..
        } = self.0
        else {
            return Ok(());
        };
        let (operation, differ) = asked_of(halls, operations);
        let what = What(operation);
        let by = By(operation.grant);
        write!(f, "{what}{by}")?;
        if differ { f.write_str(" ..") } else { Ok(()) }
    }
}

// An outcome, with the fault of its answer.
#[derive(Clone, Copy, Debug, PartialEq, Eq, Hash)]
struct ReportText(Report);

impl fmt::Display for ReportText {
    fn fmt<W: fmt::Write>(&self, f: &mut fmt::Formatter<W>) -> fmt::Result {
        let Report {
            outcome,
            transaction,
            stamp,
            answer,
            ..
        } = self.0;
        let word = outcome_word(outcome);
        if outcome == Outcome::PassedOver {
            return f.write_str(word);
        }
        write!(f, "{word} {transaction}, stamp {stamp}")?;
        if answer.is_well_done() {
            return Ok(());
        }
        let Answer { layer, cause, .. } = answer;
        let fault = cause_words(layer, cause);
        write!(f, ": {fault}")
    }
}

// What a row told.
#[derive(Clone, Copy, Debug, PartialEq, Eq, Hash)]
pub(crate) struct ToldText(pub(crate) Row);

impl fmt::Display for ToldText {
    fn fmt<W: fmt::Write>(&self, f: &mut fmt::Formatter<W>) -> fmt::Result {
        match self.0.event {
            Ok((_, Ok(Said::Nothing))) => f.write_str("done"),
            Ok((call, Ok(Said::Number(number)))) => {
                let asked = Asked(call);
                write!(f, "issued {number}: {asked}")
            }
            Ok((_, Ok(Said::Report(report)))) => {
                let text = ReportText(report);
                write!(f, "{text}")
            }
            Ok((_, Err(refusal))) => {
                let number = u8::from(refusal);
                let word = refusal_word(refusal);
                write!(f, "refused with {number}, {word}")
            }
            Err(Misread { word, expected }) => {
                write!(f, "cannot be read: word {word}, expected {expected}")
            }
        }
    }
}
