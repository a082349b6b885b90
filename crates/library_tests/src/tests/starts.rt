//! Answers where the start of a thread is refused: the whole answer, or the want of a thread, and never that of memory.
//!
//! `tests/refusals.py` runs each of these tests again and again, with each start refused in turn. Where none is
//! refused the answer has to be whole.
use super::fixtures::{has_share, has_squares, is_whole_or_no_thread};
use super::listings::{ThreeBodies, holds_of_three};

#[test]
fn whole_harvest_or_no_thread(rt: HostRuntime) {
    assert!(rt; is_whole_or_no_thread(&rt, has_squares(&rt, rt.alloc(), 3, &[])));
}

#[test]
fn whole_crew_or_no_thread(rt: HostRuntime) {
    assert!(rt; is_whole_or_no_thread(&rt, has_share(&rt, rt.alloc(), 5)));
}

#[test]
fn whole_listing_or_no_thread(rt: HostRuntime) {
    assert!(rt; is_whole_or_no_thread(&rt, holds_of_three(&rt, rt.alloc(), 4, &ThreeBodies)));
}
