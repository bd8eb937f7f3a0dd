ghost use Rattle.std.specs.Prelude.{◌≡◌, length};

use agenda::{Due, DueTimes, Marks};
use std::process::Abort;
use std::test::Fail;

/// A place, when the object there is due from then on, and then the first of all times and its place.
type Set = (u32, Option<u64>, Option<(u64, u32)>);

const SETS: [Set; 9] = [
    (2, Some(30), Some((30, 2))),
    (0, Some(40), Some((30, 2))),
    (4, Some(10), Some((10, 4))),
    (1, Some(25), Some((10, 4))),
    (4, None, Some((25, 1))),
    (4, None, Some((25, 1))),
    (2, Some(20), Some((20, 2))),
    (3, Some(50), Some((20, 2))),
    (2, Some(35), Some((25, 1))),
];

/// A millisecond, and the place of the object that is taken then.
const TAKES: [(u64, Option<u32>); 8] = [
    (24, None),
    (25, Some(1)),
    (25, None),
    (100, Some(2)),
    (100, Some(0)),
    (49, None),
    (50, Some(3)),
    (100, None),
];

fn set(rt: &impl Abort, times: &mut DueTimes, row: Set)
    requires five { length times.old ≡ 5 }
    ensures five { length times.new ≡ 5 }
{
    let (place, due, first) = row;
    assert!(rt; place < 5);
    times.set(place, due);
    let expected = match first {
        Some((at, place)) => Some(Due { at, place }),
        None => None,
    };
    assert!(rt; times.first() == expected);
}

#[test]
fn what_is_due_first_is_taken_first(rt: HostRuntime) -> Result<(), Fail> {
    let mut times = DueTimes::new(rt.alloc(), 5)?;
    assert!(rt; times.first() == None);
    for row in SETS {
        set(&rt, &mut times, row);
    }
    for (now, expected) in TAKES {
        assert!(rt; times.take(now) == expected);
    }
    Ok(())
}

#[test]
fn no_objects_are_never_due(rt: HostRuntime) -> Result<(), Fail> {
    let mut times = DueTimes::new(rt.alloc(), 0)?;
    assert!(rt; times.first() == None);
    assert!(rt; times.take(u64::MAX) == None);
    Ok(())
}

/// A place that is marked, and then the places that are listed.
type Mark = (u32, &'static [u32]);

const MARKS: [Mark; 6] = [
    (3, &[3]),
    (0, &[3, 0]),
    (3, &[3, 0]),
    (4, &[3, 0, 4]),
    (0, &[3, 0, 4]),
    (1, &[3, 0, 4, 1]),
];

fn mark(rt: &impl Abort, marks: &mut Marks, place: u32, listed: &[u32])
    requires five { length marks.old.flags ≡ 5 }
    ensures five { length marks.new.flags ≡ 5 }
{
    assert!(rt; place < 5);
    marks.mark(place);
    assert!(rt; marks.is_marked(place));
    assert!(rt; marks.listed() == listed);
}

#[test]
fn places_are_listed_in_the_order_of_marking(rt: HostRuntime) -> Result<(), Fail> {
    let mut marks = Marks::new(rt.alloc(), 5)?;
    for (place, listed) in MARKS {
        mark(&rt, &mut marks, place, listed);
    }
    assert!(rt; !marks.is_marked(2));
    marks.clear();
    for place in 0..5 {
        assert!(rt; !marks.is_marked(place));
    }
    mark(&rt, &mut marks, 0, &[0]);
    mark(&rt, &mut marks, 2, &[0, 2]);
    Ok(())
}
