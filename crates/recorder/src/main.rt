// The recorder at the command line: loads a card and prints its tables.
#![tactic(auto)]

use anyhow::bail;
use std::rt::{Env, Files};
use std::{env, fs};

mod builtin;
mod commands;
mod copying;
mod csv;
mod entering;
mod joining;
mod refusals;
mod tables;

use builtin::SITES_AND_PICKS;
use commands::{copy, export, import, load};
use entering::{Listing, QUOTA_MET};
use refusals::Answer;
use sheets::Sheet;
use sources::Source;
use tables::FetchedTable;

fn main(rt: HostRuntime) -> anyhow::Result<()> {
    run(&rt)
}

fn run(rt: &(impl Env + Files + Print + AllocGlobal)) -> anyhow::Result<()> {
    let words: Vec<String> = env::args(rt)?.collect(rt.alloc())?;
    let words: Vec<&str> = words.iter().map(String::as_str).collect(rt.alloc())?;
    // A match, and no table of functions, since each command takes words of its own.
    match words.as_slice() {
        [] | [_] => {
            show_card(rt, "the built-in card", &SITES_AND_PICKS)?;
            show_sheet(rt)
        }
        [_, path] => {
            let image = fs::read(rt, path)?;
            show_card(rt, path, &image)
        }
        [_, "copy", from, to] => copy(rt, from, to),
        [_, "export", from, number] => export(rt, from, number),
        [_, "import", from, number, to] => import(rt, from, number, to),
        _ => bail!(
            "usage: recorder [IMAGE | copy IN OUT | import CSV NUMBER OUT | export IMAGE NUMBER]"
        ),
    }
}

// Loads an image, prints each of its tables, and last what the read meter says.
fn show_card(rt: &(impl Print + AllocGlobal), name: &str, image: &[u8]) -> anyhow::Result<()> {
    let size = image.len();
    println!(rt; "Loading {name}, {size} bytes.")?;
    let mut card = match load(image) {
        Ok(card) => card,
        Err(refused) => {
            rt.println(refused)?;
            bail!("the image was refused");
        }
    };
    println!(rt; "Loaded. An absent cell is shown as -.")?;
    for number in 1..=16u8 {
        if let Some(table) = FetchedTable::fetch(rt.alloc(), &mut card, number)? {
            rt.print(table)?;
        }
    }
    let meter = card.meter();
    println!(rt; "\nEvery row was fetched once; the read meter stands at {meter}.")?;
    Ok(())
}

// Enters a query step by step, and prints what each step answers and what the sheet then holds.
fn show_sheet(rt: &impl Print) -> anyhow::Result<()> {
    println!(rt; "\nEntering the sites whose quota equals the number of their picks:")?;
    let mut sheet = Sheet::fresh();
    for entry in QUOTA_MET {
        let answer = Answer(sheet.enter(entry));
        println!(rt; "  {entry}: {answer}")?;
    }
    println!(rt; "The sheet, where Cn is a column, Pn a column of the parent and Tn a table:")?;
    rt.print(Listing(&sheet))?;
    Ok(())
}
