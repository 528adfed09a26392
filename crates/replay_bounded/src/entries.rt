// The entries of a schedule, run on the words of a ring and its records.
ghost use Rattle.std.specs.Prelude.{◌≡◌, true, false};
ghost use Rattle.bounded_lent.specs.Lent.{broken_lent};
ghost use Rattle.bounded_rows.specs.Rows.{words, records_in, metered_in, stand};

use bounded_words::Width;
use replay_bounded_lines::{Along, Entered};
use replay_bounded_machine::{Lent, record_in, ring_in};
use replay_survey::pieces::Run;
use text_output::Text;
use text_system::System;

// To the list's end or to the first refusal, on words that stand for a ring and records that are not broken.
fn steps(
    system: &System,
    begun: Run,
    bits: Width,
    along: &mut Along,
    head: &mut [u64],
    slots: &mut [u64],
    records: &mut [u64],
    list: &[u64],
    text: &mut Text,
) -> Run
    requires records_value { broken_lent (metered_in (words head.old slots.old records.old)) (records_in records.old) ≡ false }
    requires records_value_2 { stand (words head.old slots.old records.old) ≡ true }
{
    let mut run = begun;
    for i in 0..list.len() / 2 {
        let first = list[2 * i];
        let second = list[2 * i + 1];
        let before = record_in(records, first);
        let refusal = bounded_rows::turn(bits, head, slots, records, first, second);
        let e = Entered {
            place: run.place,
            first,
            refusal,
            count: (records.len() / bounded_slices::RECORD) as u64,
            ring: ring_in(head),
            before,
            after: record_in(records, first),
        };
        along.entered(system, &e, text);
        if refusal != 0 {
            return Run { refusal, ..run };
        }
        run.place = run.place.wrapping_add(1);
    }
    run
}

fn on_words(
    system: &System,
    begun: Run,
    bits: Width,
    along: &mut Along,
    head: &mut [u64],
    slots: &mut [u64],
    records: &mut [u64],
    list: &[u64],
    text: &mut Text,
) -> Run {
    if bounded_slices::broken(head, slots, records) {
        return begun;
    }
    steps(system, begun, bits, along, head, slots, records, list, text)
}

// The entries of one piece. Ring and records are judged once a piece: no entry breaks what is not broken.
pub fn run(
    system: &System,
    begun: Run,
    bits: Width,
    along: &mut Along,
    lent: &mut Lent,
    list: &[u64],
    text: &mut Text,
) -> Run {
    on_words(
        system,
        begun,
        bits,
        along,
        lent.head,
        lent.slots,
        lent.records,
        list,
        text,
    )
}
