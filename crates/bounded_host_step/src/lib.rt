// One entry of the face that a host in C or Rust links, an archive of its own (crates/bounded_host says why). `specs/Step.antt` says what it answers; a refused entry changes no
// word.
#![tactic(auto)]

ghost use Rattle.std.specs.Prelude.{◌≡◌};
ghost use Rattle.bounded_rows.specs.Rows.{words, after};
ghost use Rattle.bounded_host_step.specs.Step.{step_words_of};

use bounded_words::Width;

// The entry of two words: the number of its refusal, 0 where it was not refused.
#[unsafe(no_mangle)]
pub extern "C" fn fern_ring_step(
    head: &mut [u64],
    slots: &mut [u64],
    records: &mut [u64],
    first: u64,
    second: u64,
) -> u64
    ensures { after result (words head.new slots.new records.new) ≡ step_words_of (words head.old slots.old records.old) first second }
{
    if bounded_slices::broken(head, slots, records) {
        return 6;
    }
    bounded_rows::turn(Width::SixtyFour, head, slots, records, first, second)
}
