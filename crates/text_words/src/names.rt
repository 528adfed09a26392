// The names that a schedule in words has, each as one number: its letters, in the order in which they come.

// The letters of names, from 1.
pub fn letter_of(b: u8) -> Option<u64> {
    match b {
        b'_' => Some(27),
        b'a'..=b'z' => Some(u64::from(b - 96)),
        _ => None,
    }
}

// One letter more; of eleven letters and more, which no name has, some number that no name is spelled as.
pub fn with_letter(spelled: u64, letter: u64) -> u64 {
    if spelled < 296196766695424 && letter < 28 {
        return 28 * spelled + letter;
    }
    spelled
}

fn spell(name: &str) -> u64 {
    let mut spelled = 0;
    for b in name.as_bytes() {
        if let Some(letter) = letter_of(*b) {
            spelled = with_letter(spelled, letter);
        }
    }
    spelled
}

pub const CALLS_AND_ACTS: usize = 10;

pub const CAPACITY: usize = 10;

pub const WORKERS: usize = 11;

// Calls and acts by their codes; and what begins the first two lines.
const NAMES: [&str; 12] = [
    "push",
    "force_push",
    "pop",
    "len",
    "is_empty",
    "is_full",
    "close",
    "is_closed",
    "act",
    "fail",
    "capacity",
    "workers",
];

pub fn all() -> [u64; 12] {
    NAMES.map(spell)
}

// The place among the names.
pub fn place_of(names: &[u64], spelled: u64) -> Option<usize> {
    names.iter().position(|name| *name == spelled)
}
