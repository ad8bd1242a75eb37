// The history since the last Open that was not refused: the parts that the halls have done.
ghost use Rattle.std.specs.Prelude.{ℕ, List, map, IfOk, OnOk, IsPermutation, IsSortedBy, ◌≡◌};
ghost use Rattle.book.specs.Model.{Page};
ghost use Rattle.congress.specs.Outcomes.{outcome_number};
ghost use Rattle.order.specs.History.{Issued, History as Written, new_history, issue_of, part_given, with_number, with_outcome, with_report, with_call, noted};
ghost use Rattle.rehearse.specs.Heard.{heard, shown, sooner, KnowsIssues, Follows};

use congress::{Outcome, Refusal, Report};
use order::{Call, Said};
use records::Operation;
use scoring::Answered;
use std::alloc::{AllocError, Global};
use std::collections::BTreeMap;

// A part of a transaction, done at a hall.
#[derive(Clone, Copy, Debug, PartialEq, Eq, Hash)]
pub struct Part {
    pub hall: u8,
    pub stamp: u64,
    pub transaction: u32,
    pub answered: Answered,
}

// What has happened since the last Open.
#[derive(Drop)]
struct History {
    // the operations of each transaction, by its number
    issued: BTreeMap<u32, [Operation; 8]>,
    done: Vec<Part>,
}

impl History {
    fn new(heap: Global) -> History
        ensures { (first : ℕ → Page) → Follows result (new_history first) }
    {
        History {
            issued: BTreeMap::new(heap),
            done: Vec::new(heap),
        }
    }

    // The operation of a transaction at a hall.
    fn operation(&self, transaction: u32, hall: u8) -> Operation
        ensures { (issues : List Issued) → KnowsIssues self.now.issued issues → result ≡ part_given (issue_of transaction issues) hall }
    {
        match self.issued.get(&transaction) {
            Some(operations) => operations
                .get(hall as usize)
                .copied()
                .unwrap_or(Operation::default()),
            None => Operation::default(),
        }
    }

    // Notes the operations of a transaction.
    fn note_issue(&mut self, said: Said, operations: [Operation; 8]) -> Result<(), AllocError>
        ensures { (H : Written) (class halls : ℕ) → Follows self.old H → OnOk result (Follows self.new (with_number H class halls operations said)) }
    {
        if let Said::Number(number) = said {
            self.issued.insert(number, operations)?;
        }
        Ok(())
    }

    // Notes a part that was done.
    fn note_report(&mut self, said: Said) -> Result<(), AllocError>
        ensures { (H : Written) → Follows self.old H → OnOk result (Follows self.new (with_report H said)) }
    {
        match said {
            Said::Report(report) => self.note(report),
            _ => Ok(()),
        }
    }

    fn note(&mut self, report: Report) -> Result<(), AllocError>
        ensures { (H : Written) → Follows self.old H → OnOk result (Follows self.new (with_outcome H (outcome_number report.outcome) report)) }
    {
        let Report {
            outcome,
            transaction,
            hall,
            stamp,
            answer,
        } = report;
        if matches!(outcome, Outcome::DoneAtOnce | Outcome::Done) {
            let operation = self.operation(transaction, hall);
            self.done.push(Part {
                hall,
                stamp,
                transaction,
                answered: Answered { operation, answer },
            })?;
        }
        Ok(())
    }

    // Takes what a call told.
    fn take(&mut self, call: Call, said: Said) -> Result<(), AllocError>
        ensures { (H : Written) → Follows self.old H → OnOk result (Follows self.new (with_call H H.first call said)) }
    {
        match call {
            Call::Open { .. } => {
                self.issued.clear();
                self.done.clear();
            }
            Call::Issue { operations, .. } => self.note_issue(said, operations)?,
            Call::Deliver { .. } | Call::Work { .. } => self.note_report(said)?,
            Call::Clock { .. } | Call::Drop { .. } => {}
        }
        Ok(())
    }

    // Takes a call with what it told, if that is no refusal.
    fn hear(&mut self, call: Call, told: Result<Said, Refusal>) -> Result<(), AllocError>
        ensures { (H : Written) → Follows self.old H → OnOk result (Follows self.new (noted H H.first call told)) }
    {
        match told {
            Ok(said) => self.take(call, said),
            Err(_) => Ok(()),
        }
    }
}

// The parts done since the last Open, least stamp first, and of one stamp least transaction first.
pub fn history_of(
    heap: Global,
    calls: &[Call],
    told: &[Result<Said, Refusal>],
) -> Result<Vec<Part>, AllocError>
    ensures parts { (first : ℕ → Page) → IfOk result (λ done. IsPermutation (map shown (heard (new_history first) calls.now told.now).done) done.items) }
    ensures order { IfOk result (λ done. IsSortedBy sooner done.items) }
{
    let mut history = History::new(heap);
    for (place, call) in calls.iter().enumerate() {
        if let Some(told) = told.get(place) {
            history.hear(*call, *told)?;
        }
    }
    let History { mut done, .. } = history;
    done.sort_unstable_by_key(|part| (part.stamp, part.transaction));
    Ok(done)
}
