// An operation in words.
ghost use Rattle.std.specs.Prelude.{◌≡◌};
ghost use Rattle.script.specs.Words.{left};
ghost use Rattle.script.specs.Operations.{signed as signed_by, about, appointment, seating, outcome, score, score_line, any, operation_after, operation};

use crate::words::Words;
use crate::{Expected, Misread, Settings};
use chess::Outcome;
use entries::{Bearer, Command, Count, Game, close_kind, command_of, total_kind};
use records::Operation;

// An operation of the bearer that asks nothing yet.
fn signed(bearer: Bearer) -> Operation
    ensures { result ≡ signed_by bearer }
{
    Operation {
        grant: bearer.grant,
        token: bearer.token,
        ..Operation::default()
    }
}

// The next word as field a of an operation of this kind.
fn about(words: &mut Words, kind: u8, signed: Operation) -> Result<Operation, Misread>
    ensures { left result words.new.place words.new.rest.now ≡ about kind signed words.old.place words.old.rest.now }
{
    Ok(Operation {
        kind,
        a: words.field()?,
        ..signed
    })
}

fn appointment(words: &mut Words, signed: Operation) -> Result<Operation, Misread>
    ensures { left result words.new.place words.new.rest.now ≡ appointment signed words.old.place words.old.rest.now }
{
    Ok(Operation {
        kind: roll::Kind::Appoint as u8,
        a: words.field()?,
        c: words.field::<Count>()?.0,
        ..signed
    })
}

fn seating(words: &mut Words, signed: Operation) -> Result<Operation, Misread>
    ensures { left result words.new.place words.new.rest.now ≡ seating signed words.old.place words.old.rest.now }
{
    Ok(Operation {
        kind: chess::Kind::Seat as u8,
        a: words.field()?,
        b: words.field()?,
        c: words.field::<Count>()?.0,
        ..signed
    })
}

fn outcome(words: &mut Words, signed: Operation) -> Result<Operation, Misread>
    ensures { left result words.new.place words.new.rest.now ≡ outcome signed words.old.place words.old.rest.now }
{
    Ok(Operation {
        kind: chess::Kind::Enter as u8,
        a: words.field()?,
        b: words.field()?,
        c: words.field::<Outcome>()? as i32,
        ..signed
    })
}

fn score(words: &mut Words, signed: Operation) -> Result<Operation, Misread>
    ensures { left result words.new.place words.new.rest.now ≡ score signed words.old.place words.old.rest.now }
{
    Ok(Operation {
        kind: bridge::Kind::Score as u8,
        a: words.field()?,
        b: words.field()?,
        d: words.field()?,
        c: words.field()?,
        ..signed
    })
}

fn score_line(words: &mut Words, signed: Operation) -> Result<Operation, Misread>
    ensures { left result words.new.place words.new.rest.now ≡ score_line signed words.old.place words.old.rest.now }
{
    Ok(Operation {
        kind: bridge::Kind::Read as u8,
        a: words.field()?,
        b: words.field()?,
        ..signed
    })
}

// All seven numbers are given.
fn any(words: &mut Words) -> Result<Operation, Misread>
    ensures { left result words.new.place words.new.rest.now ≡ any words.old.place words.old.rest.now }
{
    Ok(Operation {
        kind: words.field()?,
        grant: words.field()?,
        token: words.field()?,
        a: words.field()?,
        b: words.field()?,
        c: words.field()?,
        d: words.field()?,
    })
}

// What an operation with this first word asks.
fn operation_after(
    command: Command,
    words: &mut Words,
    game: Game,
    signed: Operation,
) -> Result<Operation, Misread>
    ensures { left result words.new.place words.new.rest.now ≡ operation_after game signed command words.old.place words.old.rest.now }
{
    match command {
        Command::Appoint => appointment(words, signed),
        Command::Remove => about(words, roll::Kind::Remove as u8, signed),
        Command::Deputy => about(words, roll::Kind::Read as u8, signed),
        Command::Seat => seating(words, signed),
        Command::Result => outcome(words, signed),
        Command::Show => about(words, chess::Kind::Read as u8, signed),
        Command::Score => score(words, signed),
        Command::Line => score_line(words, signed),
        Command::Close => about(words, close_kind(game), signed),
        Command::Total => about(words, total_kind(game), signed),
        Command::Op => any(words),
    }
}

// The next words as an operation.
pub fn operation(words: &mut Words, at: &Settings) -> Result<Operation, Misread>
    ensures { left result words.new.place words.new.rest.now ≡ operation at.now words.old.place words.old.rest.now }
{
    let word = words.next();
    match command_of(word.text) {
        Some(command) => operation_after(command, words, at.game, signed(at.bearer)),
        None => Err(word.misread(Expected::Operation)),
    }
}
