// Makes the calls of a script, from files or from standard input, one after another at a congress, and prints what each told
// and how the halls stand after them, or a picture of the calls.
#![tactic(auto)]

ghost use Rattle.std.specs.Prelude.{◌≡◌, IfOk, OnOk};
ghost use Rattle.rehearse.specs.Rehearsal.{rehearsal_told, rehearsed};
ghost use Rattle.roll.specs.Roll.{roll_model, page_of};

mod halls;
mod help;
mod history;
mod lines;
mod pictures;
mod telling;

use book::Book;
use bridge::Bridge;
use chess::Chess;
use congress::{Congress, Refusal};
use entries::Game;
use halls::print_account;
use help::HELP;
use history::history_of;
use lines::{Script, read_script};
use order::{Said, conduct};
use pictures::draw;
use records::{Message, Request};
use roll::Roll;
use std::alloc::{AllocError, Global};
use std::io::Read;
use std::{env, fs, io};
use telling::print_told;

// What each of the calls tells, made in turn at a new congress, and how many halls are open then.
fn told_by<B: Book>(
    heap: Global,
    script: &Script,
    roll: &mut Roll<B>,
) -> Result<(Vec<Result<Said, Refusal>>, u8), AllocError>
    ensures told { IfOk result (λ r. r.0.items ≡ rehearsal_told (roll_model B.model) script.now.at.places (page_of B.pages roll.old) script.now.calls.items) }
    ensures halls { IfOk result (λ r. r.1 ≡ (rehearsed (roll_model B.model) script.now.at.places (page_of B.pages roll.old) script.now.calls.items).now.world.state.opened) }
    ensures pages { OnOk result (page_of B.pages roll.new ≡ (rehearsed (roll_model B.model) script.now.at.places (page_of B.pages roll.old) script.now.calls.items).now.pages) }
{
    let calls = script.calls.as_slice();
    let mut congress = Congress::new();
    let mut post = vec![in heap; Message::Request(Request::default()); script.at.places as usize]?;
    let mut told = vec![in heap; Ok(Said::Nothing); calls.len()]?;
    conduct(
        &mut congress,
        roll,
        post.as_mut_slice(),
        calls,
        told.as_mut_slice(),
    )
    .unwrap();
    Ok((told, congress.halls()))
}

// What is printed of a script.
#[derive(Clone, Copy, Debug, PartialEq, Eq, Hash)]
enum Form {
    // what its calls tell, and the account
    Account,
    Picture,
}

// Makes the calls of a script over a roll, and prints what they tell and the account.
fn rehearse<B: Book + Drop>(
    rt: &HostRuntime,
    script: &Script,
    mut roll: Roll<B>,
) -> io::Result<()> {
    let heap = rt.alloc();
    let (told, halls) = told_by(heap, script, &mut roll)?;
    print_told(rt, script, told.as_slice())?;
    let done = history_of(heap, script.calls.as_slice(), told.as_slice())?;
    print_account(rt, script.at, halls, &roll, done.as_slice())
}

fn rehearse_over<B: Book + Drop>(
    rt: &HostRuntime,
    form: Form,
    script: &Script,
    roll: Roll<B>,
) -> io::Result<()> {
    match form {
        Form::Account => rehearse(rt, script, roll),
        Form::Picture => draw(rt, script, roll),
    }
}

// Makes the calls of one script.
fn rehearse_text(rt: &HostRuntime, form: Form, text: &[u8]) -> io::Result<()> {
    let script = read_script(rt.alloc(), text)?;
    match script.at.game {
        Game::Chess => rehearse_over(rt, form, &script, Roll::new(script.at.chief, Chess::new())),
        Game::Bridge => rehearse_over(rt, form, &script, Roll::new(script.at.chief, Bridge::new())),
    }
}

fn rehearse_input(rt: &HostRuntime, form: Form) -> io::Result<()> {
    let mut text = Vec::new(rt.alloc());
    rt.stdin().read_to_end(&mut text)?;
    rehearse_text(rt, form, text.as_slice())
}

// What stands before the rehearsal of a file; nothing stands before a picture, which is a file of its own.
fn print_name(rt: &impl Print, form: Form, name: &str, is_first: bool) -> io::Result<()> {
    if form == Form::Picture {
        return Ok(());
    }
    if !is_first {
        println!(rt; "")?;
    }
    println!(rt; "script {name}")
}

// Each file is a rehearsal of its own.
fn rehearse_file(rt: &HostRuntime, form: Form, name: &str, is_first: bool) -> io::Result<()> {
    let text = fs::read(rt, name)?;
    print_name(rt, form, name, is_first)?;
    rehearse_text(rt, form, text.as_slice())
}

fn main(rt: HostRuntime) -> io::Result<()> {
    let mut form = Form::Account;
    let mut is_first = true;
    for argument in env::args(&rt)?.skip(1) {
        match argument.as_str() {
            "--help" if is_first => return println!(rt; "{HELP}"),
            "--picture" => form = Form::Picture,
            name => {
                rehearse_file(&rt, form, name, is_first)?;
                form = Form::Account;
                is_first = false;
            }
        }
    }
    if is_first || form == Form::Picture {
        return rehearse_input(&rt, form);
    }
    Ok(())
}
