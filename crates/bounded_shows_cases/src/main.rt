// Entries and schedules with every refusal and several at once; makings on both sides of each limit, and contents in buffers one short, exact and longer;
// machines that no making gives: broken in each of the ways that the documents name, and unbroken ones that were never reached, with words near 2 to the
// power 64. The cases are the rows of the file `stdin`; the file `stdout` is written from the documents.
#![tactic(auto)]

fn main(rt: HostRuntime) {
    let system = text_system::of(rt);
    bounded_text_answers::play_input(&system);
}
