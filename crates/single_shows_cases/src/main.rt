// Entries and schedules handed in, with every refusal and several at once; makings on both sides of the limit; contents into buffers of each length; machines
// that no making gives, and words that no exchange of the source expects. The cases are the rows of the file `stdin`; the file `stdout` is written from the
// documents and the source. A refused call is held to leaving the machine as it was.
#![tactic(auto)]

fn main(rt: HostRuntime) {
    let system = text_system::of(rt);
    single_text_answers::play_input(&system);
}
