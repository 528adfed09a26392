// The walk from a machine, and what is told of it.
use bounded_text_words::WORDS;
use std::fmt::Write;
use std::fs::File;
use text_output::{Text, put};
use text_sums::Sum;
use text_system::System;

// The longest list, in bytes.
const BUFFER: usize = 4194304;

// What is told of the sequences: in which ways they end, each of them, or in words (walk_explain) every ending or this one.
#[derive(Clone, Copy)]
pub enum Telling {
    Ways,
    List,
    Words(Option<u64>),
}

#[derive(Clone, Copy)]
pub struct Asked<'a> {
    pub depth: u64,
    pub telling: Telling,
    pub many: bool,
    // the schedule that was run, with the sum of its bytes
    pub file: &'a File,
    pub due: Sum,
}

// By the code of its place: 0 to 10 are those of idle workers.
fn is_idle(m: [u64; WORDS], w: u64) -> bool {
    bounded_text_words::record(m, w, 0) < 11
}

// The lowest idle worker of at most three, of which one is idle.
fn idle_worker(m: [u64; WORDS]) -> u64 {
    (0..2).find(|w| is_idle(m, *w)).unwrap_or(2)
}

// A function of its own, since a check of what is done with so long an array would count its bytes.
fn room() -> [u8; BUFFER] {
    [0; BUFFER]
}

impl Asked<'_> {
    fn refused(&self, system: &System, text: &mut Text, refusal: u64, numbers: &[u64]) {
        crate::refused::tell(system, text, self.many, refusal, numbers);
    }

    // Answers whether there is what was asked for.
    fn told(
        &self,
        system: &System,
        text: &mut Text,
        m: [u64; WORDS],
        sequences: u64,
        list: &[u8],
    ) -> bool {
        match self.telling {
            Telling::List => walk_lists::lines(system, text, list),
            Telling::Words(ending) => {
                let asked = walk_explain::Asked {
                    depth: self.depth,
                    ending,
                    file: self.file,
                    due: self.due,
                };
                return asked.tell(system, text, m, sequences, list);
            }
            Telling::Ways => {
                let bytes = list.len();
                put!(
                    text,
                    "walked depth={} sequences={sequences} bytes={bytes}\n",
                    self.depth
                );
                crate::ends::lines(system, text, m, list);
            }
        }
        true
    }

    // The list has so many bytes.
    fn listed(
        &self,
        system: &System,
        text: &mut Text,
        m: [u64; WORDS],
        n: usize,
        buffer: &mut [u8],
    ) -> bool {
        match bounded_walks::walk(bounded_text_faces::machine::read(m), self.depth, buffer) {
            Ok(sequences) => {
                let n = n.min(buffer.len());
                self.told(system, text, m, sequences, &buffer[..n])
            }
            Err(_) => true,
        }
    }

    fn walked(&self, system: &System, text: &mut Text, m: [u64; WORDS], n: usize) -> bool {
        let mut buffer = room();
        self.listed(system, text, m, n, &mut buffer)
    }

    // Answers whether nothing was refused. A list that is longer than the buffer is told with its numbers.
    pub fn walk(&self, system: &System, text: &mut Text, m: [u64; WORDS]) -> bool {
        match bounded_walks::size(bounded_text_faces::machine::read(m), self.depth) {
            Err(refusal) => {
                self.refused(system, text, refusal, &[idle_worker(m)]);
                false
            }
            Ok(all) => {
                if BUFFER < all.bytes {
                    let numbers = [all.sequences, all.bytes as u64, BUFFER as u64];
                    self.refused(system, text, 22, &numbers);
                    return false;
                }
                self.walked(system, text, m, all.bytes)
            }
        }
    }
}
