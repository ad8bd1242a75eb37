// Prints the account of a sheet.
use super::words::{Entry, Party, Points, Reason};
use entries::Game;
use scoring::{LogEntry, Scored, Standing, next_round, place_of};
use std::fmt::Display;
use std::io;

// A part of the account has the line `none` where it would be empty.
fn print_none_if(rt: &impl Print, empty: bool) -> io::Result<()> {
    if empty {
        println!(rt; "none")?;
    }
    Ok(())
}

// A part with a line for each event of which `pick` tells something.
fn print_part<R: Print, T: Display + Drop, F: Fn(&LogEntry) -> Option<T> + Drop>(
    rt: &R,
    title: &str,
    log: &[LogEntry],
    pick: F,
) -> io::Result<()>
    requires { F.IsAlwaysCallable pick }
{
    println!(rt; "{title}")?;
    let mut empty = true;
    for entry in log {
        if let Some(words) = pick(entry) {
            empty = false;
            let line = entry.line;
            println!(rt; "line {line}: {words}")?;
        }
    }
    print_none_if(rt, empty)
}

// The parties with their points and places, a line for each.
pub fn print_list(rt: &impl Print, game: Game, list: &[Standing]) -> io::Result<()> {
    for standing in list {
        let place = place_of(standing.points, list);
        let party = Party(game, standing.party);
        let points = Points(game, standing.points);
        println!(rt; "{place}. {party}: {points}")?;
    }
    print_none_if(rt, list.is_empty())
}

fn print_standings(rt: &impl Print, game: Game, round: i32, list: &[Standing]) -> io::Result<()> {
    println!(rt; "Standings before round {round}")?;
    print_list(rt, game, list)
}

fn refusal(entry: &LogEntry) -> Option<Reason> {
    match entry.event {
        Ok(answered) if !answered.answer.is_well_done() => Some(Reason(answered.answer)),
        _ => None,
    }
}

pub fn print_account(rt: &impl Print, scored: &Scored, list: &[Standing]) -> io::Result<()> {
    let game = scored.at.game;
    let hall = scored.at.hall;
    let log = scored.log.as_slice();
    println!(rt; "{game} scoresheet of hall {hall}")?;
    println!(rt; "")?;
    print_part(rt, "Entries", log, |entry| Some(Entry(entry.event)))?;
    println!(rt; "")?;
    print_standings(rt, game, next_round(game, log), list)?;
    println!(rt; "")?;
    print_part(rt, "Refused", log, refusal)?;
    println!(rt; "")?;
    print_part(rt, "Not read", log, |entry| entry.event.err())
}
