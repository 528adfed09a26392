// The functions of crate bounded_host_step as C calls them: a static library over it, since a crate is built as one or the other. Each says what its function says.
#![tactic(auto)]

ghost use Rattle.std.specs.Prelude.{◌≡◌};
ghost use Rattle.bounded_rows.specs.Rows.{words, after};
ghost use Rattle.bounded_host_step.specs.Step.{step_words_of};

// The entry of two words: the number of its refusal, 0 where it was not refused.
#[unsafe(no_mangle)]
pub extern "C" fn fern_ring_step(
    head: &mut [u64],
    slots: &mut [u64],
    records: &mut [u64],
    first: u64,
    second: u64,
) -> u64
    ensures { after result (words head.new slots.new records.new) ≡ step_words_of (words head.old slots.old records.old) first second }
{
    bounded_host_step::fern_ring_step(head, slots, records, first, second)
}
