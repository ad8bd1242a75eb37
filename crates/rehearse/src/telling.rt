// What each call told, a line for each.
use crate::lines::{Mark, Script};
use congress::{Refusal, Report};
use drawing::{call_word, outcome_word, refusal_word};
use order::{Call, Said};
use records::Answer;
use script::Misread;
use std::{fmt, io};

// What Deliver or Work told.
#[derive(Clone, Copy, Debug, PartialEq, Eq, Hash)]
struct Told(Report);

impl fmt::Display for Told {
    fn fmt<W: fmt::Write>(&self, f: &mut fmt::Formatter<W>) -> fmt::Result {
        let Report {
            outcome,
            transaction,
            hall,
            stamp,
            answer,
        } = self.0;
        let number = u8::from(outcome);
        let word = outcome_word(outcome);
        write!(
            f,
            "outcome outcome={number} word={word} transaction={transaction} hall={hall} stamp={stamp}"
        )?;
        let Answer {
            layer,
            cause,
            place,
            value,
        } = answer;
        write!(
            f,
            " layer={layer} cause={cause} place={place} value={value}"
        )
    }
}

// What a call told.
#[derive(Clone, Copy, Debug, PartialEq, Eq, Hash)]
struct Outcomes(Result<Said, Refusal>);

impl fmt::Display for Outcomes {
    fn fmt<W: fmt::Write>(&self, f: &mut fmt::Formatter<W>) -> fmt::Result {
        match self.0 {
            Ok(Said::Nothing) => write!(f, "done"),
            Ok(Said::Number(number)) => write!(f, "transaction transaction={number}"),
            Ok(Said::Report(report)) => {
                let told = Told(report);
                write!(f, "{told}")
            }
            Err(refusal) => {
                let number = u8::from(refusal);
                let word = refusal_word(refusal);
                write!(f, "refusal refusal={number} word={word}")
            }
        }
    }
}

fn print_unread(rt: &impl Print, line: usize, misread: Misread) -> io::Result<()> {
    let Misread { word, expected } = misread;
    println!(rt; "line={line} told=unread word={word} expected={expected}")
}

fn print_call(
    rt: &impl Print,
    line: usize,
    call: &Call,
    told: Result<Said, Refusal>,
) -> io::Result<()> {
    let word = call_word(call);
    let outcomes = Outcomes(told);
    println!(rt; "line={line} call={word} told={outcomes}")
}

// A line for each call and for each line that cannot be read, in the order of the script.
pub fn print_told(
    rt: &impl Print,
    script: &Script,
    told: &[Result<Said, Refusal>],
) -> io::Result<()> {
    let mut made = script.calls.iter().zip(told.iter());
    for mark in script.marks.iter() {
        let Mark { line, misread } = *mark;
        match misread {
            Some(misread) => print_unread(rt, line, misread)?,
            None => {
                if let Some((call, told)) = made.next() {
                    print_call(rt, line, call, *told)?;
                }
            }
        }
    }
    Ok(())
}
