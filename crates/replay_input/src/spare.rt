// Files without a name, in the folder that TMPDIR names, or in /tmp.
use std::fs::File;
use text_output::Text;
use text_system::System;

fn put_folder(system: &System, path: &mut Text) {
    let mut folder = [0u8; 4096];
    match text_system::arguments::variable(system, "TMPDIR", &mut folder) {
        0 => path.text("/tmp"),
        n => path.bytes(&folder[..n]),
    }
}

fn created(system: &System, path: &mut [u8]) -> Option<File> {
    let file = text_system::files::create_by_chance(system, path);
    if file.is_some() {
        text_system::files::remove(system, path);
    }
    file
}

// Among the first n bytes is the whole path, and among the first k the folder's.
fn created_at(system: &System, program: &str, path: &mut [u8], n: usize, k: usize) -> Option<File> {
    if path.len() < n {
        return None;
    }
    let file = created(system, &mut path[..n]);
    if file.is_none() && k <= path.len() {
        crate::say::fail(system, program, &path[..k]);
    }
    file
}

// A file that has no name; None: there is none, and that is said.
pub fn nameless(system: &System, program: &str) -> Option<File> {
    let mut path = [0u8; 4096];
    let mut text = Text::new(&mut path);
    put_folder(system, &mut text);
    let k = text.len();
    text.text("/fernmoldew-XXXXXX");
    let n = text.len();
    created_at(system, program, &mut path, n, k)
}
