// What the rows mean.
ghost use Rattle.std.specs.Prelude.{◌≡◌};
ghost use Rattle.measured.specs.Rows.{operation_of, operations_of, parts_at, nothing_row, number_row, report_row, refusal_row, row_of};
ghost use Rattle.order.specs.Runs.{nothing, saying};
ghost use Rattle.order.specs.declared.calls.Said.TheVariants.{Number};
ghost use Rattle.order.specs.declared.calls.Said.{Said};

use super::rows::{OperationRow, PartsRow, ToldRow};
use congress::{Refusal, Report};
use records::Operation;

fn operation_of(row: OperationRow) -> Operation
    ensures { result ≡ operation_of row }
{
    Operation {
        kind: row.kind,
        grant: row.grant,
        token: row.token,
        a: row.a,
        b: row.b,
        c: row.c,
        d: row.d,
    }
}

fn operations_of(row: &PartsRow) -> [Operation; 8]
    ensures { result ≡ operations_of row.now }
{
    let rows = row.operations;
    // one by one, since for `map` with a function the check finds no proof
    [
        operation_of(rows[0]),
        operation_of(rows[1]),
        operation_of(rows[2]),
        operation_of(rows[3]),
        operation_of(rows[4]),
        operation_of(rows[5]),
        operation_of(rows[6]),
        operation_of(rows[7]),
    ]
}

// What each hall is asked by the row of this number: all zero where there is none.
pub(crate) fn parts_at(parts: &[PartsRow], number: u64) -> [Operation; 8]
    ensures { result ≡ parts_at parts.now number }
{
    match parts.get(number as usize) {
        Some(row) => operations_of(row),
        None => [Operation::default(); 8],
    }
}

fn nothing_row() -> ToldRow
    ensures { result ≡ nothing_row }
{
    ToldRow {
        stamp: 0,
        transaction: 0,
        value: 0,
        place: 0,
        kind: 0,
        number: 0,
        hall: 0,
        layer: 0,
        cause: 0,
    }
}

fn number_row(transaction: u32) -> ToldRow
    ensures { result ≡ number_row transaction }
{
    ToldRow {
        transaction,
        kind: 1,
        ..nothing_row()
    }
}

fn report_row(report: Report) -> ToldRow
    ensures { result ≡ report_row report }
{
    ToldRow {
        stamp: report.stamp,
        transaction: report.transaction,
        value: report.answer.value,
        place: report.answer.place,
        kind: 2,
        number: u8::from(report.outcome),
        hall: report.hall,
        layer: report.answer.layer,
        cause: report.answer.cause,
    }
}

fn refusal_row(refusal: Refusal) -> ToldRow
    ensures { result ≡ refusal_row refusal }
{
    ToldRow {
        kind: 3,
        number: u8::from(refusal),
        ..nothing_row()
    }
}

pub(crate) fn row_of_nothing(told: Result<(), Refusal>) -> ToldRow
    ensures { result ≡ row_of (saying nothing told) }
{
    match told {
        Ok(_) => nothing_row(),
        Err(refusal) => refusal_row(refusal),
    }
}

pub(crate) fn row_of_number(told: Result<u32, Refusal>) -> ToldRow
    ensures { result ≡ row_of (saying Number told) }
{
    match told {
        Ok(transaction) => number_row(transaction),
        Err(refusal) => refusal_row(refusal),
    }
}

pub(crate) fn row_of_report(told: Result<Report, Refusal>) -> ToldRow
    ensures { result ≡ row_of (saying Said.Report told) }
{
    match told {
        Ok(report) => report_row(report),
        Err(refusal) => refusal_row(refusal),
    }
}
