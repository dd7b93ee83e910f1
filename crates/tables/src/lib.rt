// The path table, row after row; the question path table.
#![tactic(auto)]

ghost use Rattle.sheet.specs.Rules.{said};
ghost use Rattle.tables.specs.Questions.{TableRight, table_outcome};

use paths::room::check_room;
use paths::sound::check_sound;
use sheet::answer::Answer;
use sheet::frame::read_frame;
use sheet::refusal::Refusal;

pub mod costed; // what the rows are filled from
mod row; // one row of the path table
pub mod table; // the path table, row after row

fn tabled(sheet: &[u8], registers: &mut [u32], delays: &mut [u32]) -> Result<u32, Refusal>
    ensures { TableRight sheet.now registers.old delays.old (table_outcome (said result) registers.new delays.new) }
{
    let opened = read_frame(sheet)?;
    let entries = opened.n * opened.n;
    check_room(registers.len(), entries, delays.len(), entries)?;
    let sound = check_sound(opened)?;
    table::write_table(sound, registers, delays);
    Ok(0)
}

// The path table of a sheet, in the first n² entries of both lists.
pub fn path_table(sheet: &[u8], registers: &mut [u32], delays: &mut [u32]) -> Answer
    ensures { TableRight sheet.now registers.old delays.old (table_outcome result registers.new delays.new) }
{
    Answer::of(tabled(sheet, registers, delays))
}
