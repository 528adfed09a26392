// What each worker answered last, kept for the line of an act that is refused since its worker is idle: of each of 64 its code, as a host's words of the ring have it, and
// the number beside it. 0: it answered nothing; 11 and above: it is busy.
pub const WORDS: usize = 128;

pub fn none() -> [u64; WORDS] {
    [0; WORDS]
}

// Of the ring's records as words, five each.
pub fn in_records(records: &[u64]) -> [u64; WORDS] {
    let mut list = none();
    let (answers, _) = list.as_chunks_mut::<2>();
    let (all, _) = records.as_chunks::<5>();
    for (answer, record) in answers.iter_mut().zip(all) {
        *answer = [record[0], record[1]];
    }
    list
}
