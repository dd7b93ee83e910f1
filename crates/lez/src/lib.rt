// The seven questions with C names: the number is returned, place and value are written through pointers on every call.
#![tactic(auto)]

ghost use Rattle.std.specs.Prelude.{◌≡◌};
ghost use Rattle.sheet.specs.Rules.{answer};
ghost use Rattle.paths.specs.Questions.{CheckRight};
ghost use Rattle.tables.specs.Questions.{TableRight, table_outcome};
ghost use Rattle.moves.specs.Move.{MoveRight, move_outcome};
ghost use Rattle.loops.specs.Loop.{LoopRight};
ghost use Rattle.promises.specs.Questions.{PeriodRight, LagsRight, BestRight, lags_outcome};

use sheet::answer::Answer;

// Writes place and value where the caller wants them, and gives the number.
fn hand_over(a: Answer, place: &mut u32, value: &mut u32) -> u32
    ensures { a ≡ answer result place.new value.new }
{
    *place = a.place;
    *value = a.value;
    a.number
}

// Check a sheet.
#[unsafe(no_mangle)]
pub extern "C" fn lez_check(sheet: &[u8], place: &mut u32, value: &mut u32) -> u32
    ensures { CheckRight sheet.now (answer result place.new value.new) }
{
    hand_over(paths::check(sheet), place, value)
}

// The period as it stands.
#[unsafe(no_mangle)]
pub extern "C" fn lez_period(sheet: &[u8], place: &mut u32, value: &mut u32) -> u32
    ensures { PeriodRight sheet.now (answer result place.new value.new) }
{
    hand_over(periods::period(sheet), place, value)
}

// The path table.
#[unsafe(no_mangle)]
pub extern "C" fn lez_path_table(
    sheet: &[u8],
    registers: &mut [u32],
    delays: &mut [u32],
    place: &mut u32,
    value: &mut u32,
) -> u32
    ensures { TableRight sheet.now registers.old delays.old (table_outcome (answer result place.new value.new) registers.new delays.new) }
{
    hand_over(tables::path_table(sheet, registers, delays), place, value)
}

// Move by a lag list.
#[unsafe(no_mangle)]
pub extern "C" fn lez_move(
    sheet: &[u8],
    lags: &[i16],
    moved: &mut [u8],
    place: &mut u32,
    value: &mut u32,
) -> u32
    ensures { MoveRight sheet.now lags.now moved.old (move_outcome (answer result place.new value.new) moved.new) }
{
    hand_over(moves::move_by(sheet, lags, moved), place, value)
}

// Lags at period c.
#[unsafe(no_mangle)]
pub extern "C" fn lez_lags_at(
    sheet: &[u8],
    c: u32,
    lags: &mut [i16],
    words: &mut [u16],
    place: &mut u32,
    value: &mut u32,
) -> u32
    ensures { LagsRight sheet.now c lags.old words.old (lags_outcome (answer result place.new value.new) lags.new words.new) }
{
    hand_over(periods::lags_at(sheet, c, lags, words), place, value)
}

// Best period.
#[unsafe(no_mangle)]
pub extern "C" fn lez_best(
    sheet: &[u8],
    lags: &mut [i16],
    words: &mut [u16],
    place: &mut u32,
    value: &mut u32,
) -> u32
    ensures { BestRight sheet.now lags.old words.old (lags_outcome (answer result place.new value.new) lags.new words.new) }
{
    hand_over(periods::best(sheet, lags, words), place, value)
}

// Check a loop for period c.
#[unsafe(no_mangle)]
pub extern "C" fn lez_check_loop(
    sheet: &[u8],
    c: u32,
    words: &[u16],
    place: &mut u32,
    value: &mut u32,
) -> u32
    ensures { LoopRight sheet.now c words.now (answer result place.new value.new) }
{
    hand_over(loops::check_loop(sheet, c, words), place, value)
}
