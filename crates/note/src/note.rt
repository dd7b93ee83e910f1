// The questions that a note needs: the period first, then the best period, then the move by the lags found.
use crate::lines::Note;
use records::answers::value_of;
use records::out::Out;
use sheet::answer::Answer;
use sheet::frame::read_frame;

// The note's lines, or the first refusal. The moved sheet has as many blocks as the sheet, so that its wires lie at the same places.
fn lines(out: &mut Out, sheet: &[u8]) -> Result<(), Answer> {
    let mut lags = [0i16; 64];
    let mut words = [0u16; 4224];
    let mut moved = [0u8; 2576];
    let standing = value_of(periods::period(sheet))?;
    let best = value_of(periods::best(sheet, &mut lags, &mut words))?;
    value_of(moves::move_by(sheet, &lags, &mut moved))?;
    let opened = read_frame(sheet)?;
    let note = Note {
        sheet,
        moved: &moved,
        lags: &lags[..opened.n],
        wires: opened.m,
        standing,
        best,
    };
    out.show(&note);
    Ok(())
}

// The first refusal is the whole note.
pub fn deliver(sheet: &[u8]) {
    let mut out = Out::new();
    if let Err(refusal) = lines(&mut out, sheet) {
        out.refused(refusal);
    }
    out.finish();
}
