//! `dueproxy convert`.

use crate::reasons::say_unopened;
use config_command::Sections;
use config_convert::{Conversion, convert, push_note, status_of};
use config_files::read_file;
use std::alloc::{AllocError, Global};
use std::io::Write;

/// Converts the configuration of a file to standard output, reports the changes, and returns the exit status.
pub(crate) fn convert_file(rt: &HostRuntime, sections: &Sections) -> u8 {
    match read_file(rt, &sections.file) {
        Ok(bytes) => convert_bytes(rt, &bytes, sections, &mut rt.stdout()),
        Err(error) => say_unopened(rt, &sections.file, error),
    }
}

fn convert_bytes<W: Write>(
    rt: &(impl Eprint + AllocGlobal),
    bytes: &[u8],
    sections: &Sections,
    output: &mut W,
) -> u8 {
    let frontend = sections.frontend.as_ref().map(|name| name.as_str());
    let backend = sections.backend.as_ref().map(|name| name.as_str());
    let converted = convert(rt.alloc(), bytes, frontend, backend);
    let status = status_of(&converted);
    match converted {
        Err(why) => {
            let _ = rt.eprintln(why);
            status
        }
        Ok(made) => tell(rt, &made, output, status),
    }
}

// Writes the conversion, and then the changes.
fn tell<W: Write>(
    rt: &(impl Eprint + AllocGlobal),
    made: &Conversion,
    output: &mut W,
    status: u8,
) -> u8 {
    if output.write_all(made.text.as_slice()).is_err() {
        let _ = rt.eprintln("write fault");
        return 1;
    }
    let Ok(text) = text_of(rt.alloc(), made) else {
        let _ = rt.eprintln("no memory");
        return 1;
    };
    let _ = rt.eprint(text.as_str());
    status
}

fn text_of(alloc: Global, made: &Conversion) -> Result<String, AllocError> {
    let mut text = String::new(alloc);
    for note in &made.notes {
        push_note(&mut text, note)?;
    }
    Ok(text)
}
