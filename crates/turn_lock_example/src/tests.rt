//! Two workers, and the list that they leave.
use crate::tally::Mark;
use crate::workers::work_by_two;

#[test]
fn two_workers_step_ten_times_each(rt: HostRuntime) {
    let Ok(tally) = work_by_two(&rt, rt.alloc(), 5) else {
        panic!(&rt; "no memory");
    };
    let marks = tally.marks();
    assert_eq!(&rt; marks.len(), 20);
    for number in 0..10u64 {
        let drawn = marks.iter().position(|mark| *mark == Mark::Drawn(number));
        let back = marks.iter().position(|mark| *mark == Mark::Back(number));
        assert!(&rt;
            drawn.is_some() && drawn < back,
            "{number} is drawn and given back"
        );
    }
}
