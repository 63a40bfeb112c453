//! What is so of every image.

ghost use Rattle.lift_journal.specs.Laws.{ReadsAsOnePair};

/// Whatever an image holds, it is a journal of one shape at most, and reads as at most one pair of a
/// checkpoint and the entries after it.
pub fn images_read_as_one_pair()
    ensures { ReadsAsOnePair }
{}
