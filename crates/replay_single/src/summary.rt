// What a run came to: counts over its entries.
use single_places::{Answer, Place};

// The number of an answer in the order of document 01.
pub fn number_of(stands: Place) -> Option<usize> {
    let Place::Idle(answer) = stands else {
        return None;
    };
    match answer {
        Answer::Nothing => None,
        Answer::Pushed => Some(0),
        Answer::Full(_) => Some(1),
        Answer::Closed(_) => Some(2),
        Answer::Displaced(_) => Some(3),
        Answer::Popped(_) => Some(4),
        Answer::Empty => Some(5),
        Answer::PopClosed => Some(6),
        Answer::Len(_) => Some(7),
        Answer::Yes => Some(8),
        Answer::No => Some(9),
    }
}

// Of an act that led here: an exchange is to be tried again.
pub fn is_retry(stands: Place) -> bool {
    matches!(stands, Place::B1(..) | Place::C1(_))
}
