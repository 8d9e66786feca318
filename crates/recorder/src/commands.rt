// The commands over files.
use crate::copying::{PlainTable, copied_image, same_records};
use crate::csv::read_csv;
use crate::refusals::RefusedLoad;
use anyhow::{Context, anyhow, ensure};
use cards::Card;
use std::fs;
use std::rt::Files;

// The card that an image makes.
pub(crate) fn load(image: &[u8]) -> Result<Card<'_>, RefusedLoad> {
    let mut card = Card::empty();
    card.load(image).map_err(RefusedLoad)?;
    Ok(card)
}

// Copies the tables of one card image to a fresh one, and compares the two.
pub(crate) fn copy(
    rt: &(impl Files + Print + AllocGlobal),
    from: &str,
    to: &str,
) -> anyhow::Result<()> {
    let image = fs::read(rt, from)?;
    let mut card = load(&image)?;
    let copied = copied_image(rt.alloc(), &mut card)?;
    let copy = load(&copied)?;
    ensure!(same_records(&card, &copy), "the copy differs");
    write_whole(rt, to, &copied)?;
    let size = copied.len();
    println!(rt; "Copied {from} to {to}, {size} bytes; every table has the same record.")?;
    Ok(())
}

// Makes a card image of one table of comma-separated values.
pub(crate) fn import(
    rt: &(impl Files + Print + AllocGlobal),
    from: &str,
    number: &str,
    to: &str,
) -> anyhow::Result<()> {
    let number = table_number(number)?;
    let text = fs::read_to_string(rt, from)?;
    let table = read_csv(rt.alloc(), &text)?;
    let mut image = Vec::new(rt.alloc());
    table.push_record(rt.alloc(), number, &mut image)?;
    write_whole(rt, to, &image)?;
    let rows = table.shape.rows;
    println!(rt; "Imported {rows} rows from {from} as table {number} of {to}.")?;
    Ok(())
}

// Prints a table of a card image as comma-separated values.
pub(crate) fn export(
    rt: &(impl Files + Print + AllocGlobal),
    from: &str,
    number: &str,
) -> anyhow::Result<()> {
    let number = table_number(number)?;
    let image = fs::read(rt, from)?;
    let mut card = load(&image)?;
    let table = PlainTable::fetch(rt.alloc(), &mut card, number)?.context(
        "the card has no table with this number",
    )?;
    rt.print(table)?;
    Ok(())
}

fn table_number(text: &str) -> anyhow::Result<u8> {
    text.parse()
        .map_err(|_| anyhow!("a table's number is 1 to 16"))
}

// Writes beside the file first and renames then, so that no file is left half written.
fn write_whole(rt: &(impl Files + AllocGlobal), path: &str, bytes: &[u8]) -> anyhow::Result<()> {
    let beside = format!(in rt.alloc(); "{path}.part")?;
    fs::write(rt, &beside, bytes)?;
    fs::rename(rt, &beside, path)?;
    Ok(())
}
