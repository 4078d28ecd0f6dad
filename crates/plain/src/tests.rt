use crate::{Refusal, find_distances};
use measure::by_length::Length;
use measure::by_locks::LocksFirst;
use measure::passage::Passage;
use measure::tenths::Tenths;
use std::test::Fail;
use waterway::worked::worked_legs;
use waterway::{Label, Leg};

#[test]
fn least_lengths(rt: HostRuntime) -> Result<(), Fail> {
    let mut labels = [Label::blank(); 5];
    find_distances(&Length, &worked_legs(true), 0, &mut labels)?;
    assert_eq!(rt; labels[1].told(), Some(Tenths { tenths: 30 }));
    assert_eq!(rt; labels[2].told(), Some(Tenths { tenths: 50 }));
    assert_eq!(rt; labels[3].told(), Some(Tenths { tenths: 65 }));
    assert_eq!(rt; labels[4], Label::blank());
    find_distances(&Length, &worked_legs(false), 0, &mut labels)?;
    assert_eq!(rt; labels[2].told(), Some(Tenths { tenths: 70 }));
    assert_eq!(rt; labels[3].told(), Some(Tenths { tenths: 85 }));
    Ok(())
}

#[test]
fn fewest_locks(rt: HostRuntime) -> Result<(), Fail> {
    let mut labels = [Label::blank(); 5];
    find_distances(&LocksFirst, &worked_legs(true), 0, &mut labels)?;
    assert_eq!(rt;
        labels[2].told(),
        Some(Passage {
            locks: 0,
            length: 70
        })
    );
    assert_eq!(rt;
        labels[3].told(),
        Some(Passage {
            locks: 0,
            length: 85
        })
    );
    Ok(())
}

#[test]
fn what_is_off_the_chart_is_refused(rt: HostRuntime) {
    let mut labels = [Label::blank(); 5];
    assert_eq!(rt;
        find_distances(&Length, &worked_legs(true), 5, &mut labels),
        Err(Refusal::HomeOffChart)
    );
    let long = [Leg {
        from: 0,
        to: 1,
        length: 60_001,
        locks: 0,
        open: true,
    }];
    assert_eq!(rt;
        find_distances(&Length, &long, 0, &mut labels),
        Err(Refusal::LegOffChart)
    );
    let mut many = [Label::blank(); 257];
    assert_eq!(rt;
        find_distances(&Length, &worked_legs(true), 0, &mut many),
        Err(Refusal::TooManyMarks)
    );
}
