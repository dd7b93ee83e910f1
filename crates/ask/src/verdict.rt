// The question check of one sheet, and its line.
use records::answers::value_of;
use records::out::Out;

pub fn tell(sheet: &[u8]) {
    let mut out = Out::new();
    match value_of(paths::check(sheet)) {
        Ok(_) => out.text(b"sound\n"),
        Err(refusal) => out.refused(refusal),
    }
    out.finish();
}
