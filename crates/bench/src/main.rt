// The bench crew's command: rehearse a job on an image of a chip or receive one, read a row, show the pages, dump or compare images, list worn
// rows or repair them, list or write a job, make one of two images, show the code of a value.
// The script ./otp at the root runs it, and turns the last line that it writes into an exit status.
#![tactic(auto)]

use console::ended::{End, Stop};
use console::{usage, word};
use doing::{rehearse, write};
use help::page;
use looking::{code, compare, dump, list, wear};
use making::make;
use mending::mend;
use reading::{pages, read};
use receiving::receive;
use screen::say_line;
use std::env::Env;

// The page names no file.
fn help(rt: &HostRuntime) -> Result<End, Stop> {
    if !word::naming(rt) {
        page::show(rt);
    }
    Ok(End::Answered(0))
}

// Runs the command that is named. A name that is longer than any is none. Its bytes stand in an array, since nothing is allocated.
fn run(rt: &HostRuntime) -> Result<End, Stop> {
    let mut name = [0u8; 16];
    let n = rt.arg(word::command(rt), &mut name).unwrap_or(0);
    match &name[..n] {
        b"rehearse" => rehearse::run(rt),
        b"receive" => receive::run(rt),
        b"write" => write::run(rt),
        b"make" => make::run(rt),
        b"repair" => mend::run(rt),
        b"read" => read::run(rt),
        b"pages" => pages::run(rt),
        b"code" => code::run(rt),
        b"compare" => compare::run(rt),
        b"dump" => dump::run(rt),
        b"wear" => wear::run(rt),
        b"list" => list::run(rt),
        b"help" | b"--help" | b"-h" => help(rt),
        _ => usage::no_command(rt),
    }
}

// The last line says how the command ended.
fn main(rt: HostRuntime) {
    let (Ok(end) | Err(Stop(end))) = run(&rt);
    say_line!(&rt; "{end}");
}
