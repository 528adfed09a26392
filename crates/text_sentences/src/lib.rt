// Sentences in a table, each behind the keys by which it is found: one function finds and writes them all, since a call that writes for each sentence is dear to check.
//
// A row is its keys and the sentence: (&["P3>P4"], "tail #e -> #t won: claim #c is w#w's"). In a sentence #x is the number of the letter x, and $x the form of that number in a
// list of forms, as Text::nth has it.
#![tactic(auto)]

use text_output::Text;

pub type Row<'a> = (&'a [&'a str], &'a str);

// Where an act is taken, and what it leads to.
#[derive(Clone, Copy)]
pub struct Key<'a> {
    pub at: &'a str,
    pub to: &'a str,
}

impl Key<'_> {
    // P3 is also P3>P4: the first row that fits is taken.
    fn is_spelled(&self, spelled: &str) -> bool {
        match spelled.split_once('>') {
            Some((at, to)) => at == self.at && to == self.to,
            None => spelled == self.at,
        }
    }
}

fn number_of(numbers: &[u64], letter: u8) -> u64 {
    if b'a' <= letter {
        let i = (letter - b'a') as usize;
        if i < numbers.len() {
            return numbers[i];
        }
    }
    0
}

fn written(text: &mut Text, sentence: &str, numbers: &[u64], forms: &[&str]) {
    let mut mark = None;
    for b in sentence.as_bytes() {
        match mark {
            Some(b'#') => text.number(number_of(numbers, *b)),
            Some(_) => text.nth(forms, number_of(numbers, *b) as usize, numbers),
            None if matches!(*b, b'#' | b'$') => {
                mark = Some(*b);
                continue;
            }
            None => text.byte(*b),
        }
        mark = None;
    }
}

// The sentence of a key, with the numbers of the letters from a on, and the list of forms; nothing where the table has no such key.
pub fn told(text: &mut Text, table: &[Row], key: Key, numbers: &[u64], forms: &[&str]) {
    for (keys, sentence) in table {
        if keys.iter().any(|spelled| key.is_spelled(spelled)) {
            return written(text, sentence, numbers, forms);
        }
    }
}

// The same of a key that is a number.
pub fn numbered(text: &mut Text, table: &[(u64, &str)], n: u64, numbers: &[u64]) {
    for (number, sentence) in table {
        if *number == n {
            return written(text, sentence, numbers, &[]);
        }
    }
}
